//! Laws of what is made of a module's texts. Each function's contract is the law; it does nothing when it runs.

ghost use Rattle.module_merge.specs.Laws.{MergedTextIsOne, MergedTextIsOfAnyOrder, ImageIsOne, ImageIsOfAnyOrder, LinkingIsOfAnyOrder, EndIsOfAnyOrder};

/// A module has one merged text and one image, whatever the order in which its texts come.
pub fn merged_texts_are_one()
    ensures merged { MergedTextIsOne }
    ensures image { ImageIsOne }
    ensures merged_moved { MergedTextIsOfAnyOrder }
    ensures image_moved { ImageIsOfAnyOrder }
{}

/// Whether objects are linked, and what keeps them from it, is of no order in which they come.
pub fn linking_is_of_any_order()
    ensures linked { LinkingIsOfAnyOrder }
    ensures ends { EndIsOfAnyOrder }
{}
