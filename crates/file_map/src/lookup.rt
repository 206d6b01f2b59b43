ghost use Rattle.std.specs.Prelude.{◌≡◌, None, option_map};
ghost use Rattle.serde_json.specs.Data.{no_members};
ghost use Rattle.serde_json.specs.View.{view};
ghost use Rattle.file_map.specs.Kinds.{given};
ghost use Rattle.file_map.specs.Reading.{keys_fault, members_or_none};
ghost use Rattle.file_map.specs.Table.{members};

use crate::FileMap;
use serde_json::Value;

impl FileMap {
    /// The map that gives no names.
    pub fn empty() -> FileMap
        ensures { members result ≡ no_members }
    {
        FileMap { table: Value::Null }
    }

    // The map with this table.
    pub(crate) fn from_table(table: Value) -> FileMap
        requires { keys_fault (members_or_none (view table)) ≡ None }
        ensures { members result ≡ members_or_none (view table) }
    {
        FileMap { table }
    }

    // The name that the map gives for a key and a kind.
    pub(crate) fn given(&self, key: &str, kind: &str) -> Option<&str>
        ensures { option_map (λ name. name.now) result ≡ given (members self.now) key.now kind.now }
    {
        let kinds = self.table.get(key)?;
        let name = kinds.get(kind)?;
        name.as_str()
    }
}
