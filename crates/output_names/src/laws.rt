ghost use Rattle.std.specs.Prelude.{◌≡◌, ℕ, List, IsTrue};
ghost use Rattle.drv_outside.specs.Plain.{is_plain_name, is_plain_path};
ghost use Rattle.output_names.specs.Stems.{stem_of, object_name};

/// No two sources have one stem, and the name of an object is plain.
pub fn stem_laws()
    ensures differ { (p q : List ℕ) → IsTrue (is_plain_path p) → IsTrue (is_plain_path q) → stem_of p ≡ stem_of q → p ≡ q }
    ensures plain { (path : List ℕ) → IsTrue (is_plain_path path) → IsTrue (is_plain_name (object_name path)) }
{}
