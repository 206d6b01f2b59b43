use dep_key::FileNo;

/// A step of a build's schedule.
#[derive(Clone, Copy, Debug, PartialEq, Eq)]
pub enum Event {
    /// A pending file starts.
    Take(FileNo),
    /// A running file has finished, and what it changed is taken in.
    Finish(FileNo),
}

/// Why the result of a job isn't taken in.
#[derive(Clone, Copy, Debug, PartialEq, Eq)]
pub enum FinishEnd {
    /// No job of this file is running.
    NotRunning { no: FileNo },
    /// Memory was wanted and not there.
    NoMemory,
}
