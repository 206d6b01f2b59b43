use dep_graph::Graph;
use dep_key::{FileNo, Key, Name, Path, Text};
use drv_outside::{Entry, RecordFault};
use file_map::Names;
use swiftdeps::DepsFault;

/// What a build folder held as a build began.
#[derive(Debug, Drop)]
pub struct Seen {
    /// The bytes of the gate, where there is one.
    pub gate: Option<Text>,
    /// The bytes of the build record, where there is one.
    pub build_record: Option<Text>,
    /// The bytes of the priors, where there are any.
    pub priors: Option<Text>,
    /// The names of all files of the folder.
    pub names: Vec<Name>,
}

/// What a build is asked for.
#[derive(Debug, Drop)]
pub struct Asked {
    /// The name of the module.
    pub module: Text,
    /// The text of the output file map, where there is one.
    pub map: Option<Text>,
    /// The sources, by path.
    pub listed: Vec<Entry>,
    /// The names of the outputs; the files among them stand in the order of the sources.
    pub names: Names,
}

/// Why a file is compiled.
#[derive(Debug, Drop)]
pub enum Why {
    /// The record doesn't have the file.
    New,
    /// Its stamp isn't the recorded one.
    Changed,
    /// It had errors.
    Dirty,
    /// The folder lacks one of its three outputs.
    MissingOutput,
    /// It uses this key, whose print changed in another file. No file of a first wave is traced.
    Traced(Key),
    /// The priors aren't valid.
    NoPriors,
}

/// Why the priors of a folder aren't valid: the first of these that holds.
#[derive(Debug, Drop)]
pub enum PriorsWhy {
    /// The folder has no gate.
    NoGate,
    /// The gate isn't the one byte 01.
    GateClosed,
    /// The folder has no build record.
    NoRecord,
    /// The build record is refused.
    Record(RecordFault),
    /// The record is that of another module.
    OtherModule {
        found: Text,
        asked: Text,
    },
    /// The record was written for another output file map, or one of both has none.
    OtherMap {
        found: Option<Text>,
        asked: Option<Text>,
    },
    /// The folder has no priors.
    NoPriors,
    /// The priors are refused.
    Priors(DepsFault),
}

/// A file of the first wave.
#[derive(Debug, Drop)]
pub struct FirstFile {
    /// Its place in the listing.
    pub no: FileNo,
    pub why: Why,
}

/// How a build begins.
#[derive(Drop)]
pub struct Plan {
    /// The recorded graph, or why there is none that is valid.
    pub priors: Result<Graph, PriorsWhy>,
    /// The files of the first wave, by path.
    pub first: Vec<FirstFile>,
    /// The files of the recorded graph that aren't listed, by path.
    pub removed: Vec<Path>,
    /// Whether there is nothing to do: no file is in the first wave or removed, the folder has exactly
    /// the names that it should have, and its priors have the present version.
    pub idle: bool,
    /// Whether the priors are valid and of the version before, with prints in place of digests.
    pub migrates: bool,
}
