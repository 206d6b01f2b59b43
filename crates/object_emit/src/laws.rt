//! Laws of the code of functions. Each function's contract is the law; it does nothing when it runs.

ghost use Rattle.object_emit.specs.Laws.{LabelsAreSet, SlotsAreApart, SlotsAreWithin};

/// In the code of each unit the labels are numbered from 0; each is set once, and no jump goes anywhere else.
pub fn labels_are_set()
    ensures { LabelsAreSet }
{}

/// No two parameters or locals of a function have a slot in common, and all slots lie behind those of `self` and within
/// the words that the function has.
pub fn slots_are_apart()
    ensures apart { SlotsAreApart }
    ensures within { SlotsAreWithin }
{}
