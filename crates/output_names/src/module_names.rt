ghost use Rattle.std.specs.Prelude.{◌≡◌};
ghost use Rattle.output_names.specs.ModuleNames.{is_module_name};

use swift_token::{is_keyword, is_word};

/// The most bytes of a module's name.
pub const MAX_MODULE_NAME_BYTES: usize = 100;

/// Whether the bytes may name a module: an identifier of at most `MAX_MODULE_NAME_BYTES` bytes.
#[tactic(auto, unfolding(crate::specs::ModuleNames::is_module_name))]
pub fn is_module_name(name: &[u8]) -> bool
    ensures { result ≡ is_module_name name.now }
{
    if name.len() > MAX_MODULE_NAME_BYTES || !is_word(name) {
        return false;
    }
    match str::from_utf8(name) {
        Ok(text) => !is_keyword(text),
        Err(_) => false,
    }
}
