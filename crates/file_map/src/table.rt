ghost use Rattle.std.specs.Prelude.{◌≡◌, None};
ghost use Rattle.serde_json.specs.View.{view};
ghost use Rattle.file_map.specs.Reading.{keys_fault, members_or_none};

use serde_json::Value;

/// An output file map: names of output files, by the path of a source and the kind of output. The
/// outputs of the module itself stand under the empty path.
///
/// Contracts see by `members` the members of its JSON object.
#[derive(Drop)]
pub struct FileMap {
    pub(crate) table: Value,
    ghost plain: { keys_fault (members_or_none (view table)) ≡ None },
}
