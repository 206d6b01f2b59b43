ghost use Rattle.std.specs.Prelude.{◌≡◌, IfOk, option_copied};

use drv_outside::Text;
use std::alloc::AllocError;

/// A copy of what was found.
pub fn copied(found: Option<&Text>) -> Result<Option<Text>, AllocError>
    ensures { IfOk result (λ copy. copy ≡ option_copied found.entry) }
{
    match found {
        Some(bytes) => Ok(Some(bytes.clone()?)),
        None => Ok(None),
    }
}
