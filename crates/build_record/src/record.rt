use drv_outside::{Path, RecordFault, Stamp, Text};
use sqlite_items::Items;

/// What a build keeps of itself for the next one.
#[derive(Debug, Drop)]
pub struct BuildRecord {
    /// The name of the module.
    pub module: Text,
    /// The text of the output file map, where there was one.
    pub map: Option<Text>,
    /// The sources of the build, by path.
    pub files: Items<FileState>,
}

/// A source as a build found it.
#[derive(Debug, Drop)]
pub struct FileState {
    pub path: Path,
    pub stamp: Stamp,
    /// Whether the file had no errors.
    pub clean: bool,
}

/// Why bytes gave no record.
#[derive(Clone, Debug, Drop, PartialEq, Eq)]
pub enum RecordEnd {
    /// They aren't the text of a record.
    Fault(RecordFault),
    /// Memory was wanted and not there.
    NoMemory,
}
