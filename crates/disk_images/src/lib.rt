//! What a crash of the machine may leave of a folder, and why a build may be stopped by one at any
//! moment. The disk itself is defined in `drv_outside`; here are the laws that hold of it, whichever
//! folders are trusted.
#![tactic(auto)]

ghost use Rattle.drv_outside.specs.Disk.{Folder};
ghost use Rattle.disk_images.specs.Laws.{ChoiceIsImage, CommitIsDurable, CrashIsDurable, DoneLeaves, DropIsDurable, EachImageIsSo, LeavesCompose, ReadsAsImage, ReadsLeave, StopLeaves};

/// Which folders a driver may trust.
pub trait Trust {
    ghost trusted: { Folder → Type 0 };
}

/// What reads give, and what a crash leaves by any choice, are images of a disk.
pub fn image_laws()
    ensures reads { ReadsAsImage }
    ensures choice { ChoiceIsImage }
{}

/// A crash, and a file that is removed behind the driver's back, leave trusted folders.
pub fn crash_laws<K: Trust>()
    ensures crash { CrashIsDurable K.trusted }
    ensures dropped { DropIsDurable K.trusted }
{}

/// A build that shuts its gate first and opens it last may be stopped by a crash at any moment.
pub fn commit_law<K: Trust>()
    ensures { CommitIsDurable K.trusted }
{}

/// What runs of calls leave at each of their moments.
pub fn moment_laws<K: Trust>()
    ensures done { DoneLeaves K.trusted }
    ensures stops { StopLeaves K.trusted }
    ensures reads { ReadsLeave K.trusted }
    ensures compose { LeavesCompose K.trusted }
    ensures each { EachImageIsSo K.trusted }
{}
