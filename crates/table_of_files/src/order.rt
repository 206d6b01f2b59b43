ghost use Rattle.std.specs.Prelude.{◌≡◌, All, IsTrue};
ghost use Rattle.std.specs.List.{list_all};
ghost use Rattle.std.specs.List.Sorted.{IsStrictlySortedBy};
ghost use Rattle.std.specs.Ordering.{nat_cmp};
ghost use Rattle.std.specs.Cmp.Lexicographic.{slice_cmp};
ghost use Rattle.drv_outside.specs.Plain.{is_plain_path as is_plain};
ghost use Rattle.module_merge.specs.Module.{is_partial as is_partial_text};
ghost use Rattle.module_merge.specs.Object.{is_object as is_object_text};

use drv_outside::{Path, Text, is_plain_path};
use module_merge::{is_object, is_partial};
use ordered_lists::ascends;

fn all_plain(paths: &[Path]) -> bool
    ensures { result ≡ list_all is_plain paths.now }
{
    paths.iter().all(|path| is_plain_path(path.as_str()))
}

/// Whether all paths are plain.
pub fn are_plain(paths: &[Path]) -> bool
    ensures { IsTrue result → All (λ path. IsTrue (is_plain path)) paths.now }
{
    all_plain(paths)
}

/// Whether each path is below those after it.
pub fn are_sorted(paths: &[Path]) -> bool
    ensures { IsTrue result → IsStrictlySortedBy (slice_cmp nat_cmp) paths.now }
{
    ascends(paths)
}

fn all_objects(objects: &[Text]) -> bool
    ensures { result ≡ list_all is_object_text objects.now }
{
    objects.iter().all(|object| is_object(object.as_slice()))
}

/// Whether all texts are object texts.
pub fn are_objects(objects: &[Text]) -> bool
    ensures { IsTrue result → All (λ object. IsTrue (is_object_text object)) objects.now }
{
    all_objects(objects)
}

fn all_partials(partials: &[Text]) -> bool
    ensures { result ≡ list_all is_partial_text partials.now }
{
    partials
        .iter()
        .all(|partial| is_partial(partial.as_slice()))
}

/// Whether all texts are partial texts.
pub fn are_partials(partials: &[Text]) -> bool
    ensures { IsTrue result → All (λ partial. IsTrue (is_partial_text partial)) partials.now }
{
    all_partials(partials)
}
