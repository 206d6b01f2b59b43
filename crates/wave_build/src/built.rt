use dep_key::FileGraph;
use module_compile::CompiledFile;

/// What a build in waves has in hand at its end.
#[derive(Drop)]
pub struct BuiltFiles {
    /// What each file of the module came to that was compiled, in their order, and `None` for each that was skipped.
    pub files: Vec<Option<CompiledFile>>,
    /// The graph of each file, in their order, with a digest in place of each print: what priors record.
    pub graphs: Vec<FileGraph>,
}
