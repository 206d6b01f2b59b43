use build_record::BuildRecord;
use dep_key::FileGraph;

/// What a folder with valid priors tells of the build before.
#[derive(Drop)]
pub struct Found {
    pub build_record: BuildRecord,
    /// The version of the priors.
    pub version: u64,
    /// Their graph, by path.
    pub graph: Vec<FileGraph>,
}
