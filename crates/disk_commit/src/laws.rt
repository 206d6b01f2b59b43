//! A law of changes of a folder. The contract is the law; the function does nothing when it runs.

ghost use Rattle.disk_commit.specs.Safe.{ChangeIsSafe};

use disk_images::Trust;

/// A change of a folder may be stopped by a crash at any moment.
pub fn change_is_safe<K: Trust>()
    ensures { ChangeIsSafe K.trusted }
{}
