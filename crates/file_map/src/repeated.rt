ghost use Rattle.std.specs.Prelude.{◌≡◌, IfOk};
ghost use Rattle.file_map.specs.Repeated.{IsRepeatFault};

use crate::MapFault;
use drv_outside::{Name, NoMemory};
use ordered_lists::least_repeat;
use std::alloc::Global;

// The fault of a list of names: the least of them that stands twice.
pub(crate) fn repeat_fault(alloc: Global, names: &[Name]) -> Result<Option<MapFault>, NoMemory>
    ensures { IfOk result (λ fault. IsRepeatFault names.now fault) }
{
    match least_repeat(alloc, names)? {
        Some(name) => {
            let path = Name::from_str(alloc, name.as_str())?;
            Ok(Some(MapFault::PathRepeated { path }))
        }
        None => Ok(None),
    }
}
