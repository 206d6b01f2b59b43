use dep_key::{Name, Text};

/// Why an output file map is refused.
#[derive(Clone, Debug, Drop, PartialEq, Eq)]
pub enum MapFault {
    /// There is no such file.
    Absent,
    /// It is no JSON text.
    NotJson,
    /// It is no JSON object.
    NotTable,
    /// What stands under this key is no object.
    NotObject { key: Text },
    /// What stands under this key for this kind of output is no string.
    Kind { key: Text, kind: Text },
    /// The output of this kind under this key isn't a plain name.
    PathNotPlain { key: Text, kind: Text },
    /// Two outputs have this name.
    PathRepeated { path: Name },
}

/// Why a build record is refused.
#[derive(Clone, Debug, Drop, PartialEq, Eq)]
pub enum RecordFault {
    /// It is no JSON text.
    NotJson,
    /// This field is missing or has another form.
    Field { name: Text },
    /// It is written in another version of the format.
    Version { found: u64 },
    /// What it says of this file has another form.
    File { path: Text },
}
