ghost use Rattle.std.specs.Prelude.{◌≡◌, map, string_bytes, IsTrue, IfOk};
ghost use Rattle.drv_outside.specs.Plain.{is_plain_path};
ghost use Rattle.output_names.specs.Stems.{without_slash, stem_of, object_name};

use drv_outside::{Name, NoMemory};
use std::alloc::Global;

/// The bytes of `.swift`, with which the path of a source ends.
pub const ENDING_BYTES: usize = 6;

/// What parts the components of a path.
pub const SLASH: u8 = b'/';

/// What stands in a name for a slash of the path. No plain path has it.
pub const TILDE: u8 = b'~';

fn without_slash(byte: u8) -> u8
    ensures { result ≡ without_slash byte }
{
    if byte == SLASH { TILDE } else { byte }
}

fn without_slashes(alloc: Global, bytes: &[u8]) -> Result<Vec<u8>, NoMemory>
    ensures { IfOk result (λ stem. stem.items ≡ map without_slash bytes.now) }
{
    let stem: Vec<u8> = bytes
        .iter()
        .map(|byte| without_slash(*byte))
        .collect(alloc)?;
    Ok(stem)
}

/// The path of a source without `.swift`, and with `~` for each `/`: what the default names of its
/// outputs begin with. No two sources have one stem.
#[tactic(auto, using(crate::proofs::StemsLemmas::long_path))]
pub fn stem_of(alloc: Global, path: &str) -> Result<String, NoMemory>
    requires { IsTrue (is_plain_path path.now) }
    ensures { IfOk result (λ stem. string_bytes stem ≡ stem_of path.now) }
{
    let bytes = path.as_bytes();
    let stem = without_slashes(alloc, &bytes[..bytes.len() - ENDING_BYTES])?;
    let stem = String::from_utf8(stem).unwrap();
    Ok(stem)
}

/// The name of the object of the source at a path: its stem and `.o`.
pub fn object_name(alloc: Global, path: &str) -> Result<Name, NoMemory>
    requires { IsTrue (is_plain_path path.now) }
    ensures { IfOk result (λ name. name ≡ object_name path.now) }
{
    let stem = stem_of(alloc, path)?;
    let stem = stem.as_str();
    let name = format!(in alloc; "{stem}.o")?;
    let name = Name::from_string(name)?;
    Ok(name)
}
