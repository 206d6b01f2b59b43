//! What a build is asked for, where there is no output file map.

ghost use Rattle.std.specs.Prelude.{◌≡◌, All, IsTrue, IfOk};
ghost use Rattle.drv_outside.specs.Plain.{is_plain_name, is_plain_path};
ghost use Rattle.drv_outside.specs.TreeState.{AscendByPath};
ghost use Rattle.file_map.specs.Assigned.{all_names, names_for};
ghost use Rattle.file_map.specs.Repeated.{AreDistinct};
ghost use Rattle.output_names.specs.ModuleNames.{is_module_name};
ghost use Rattle.project_sources.specs.Parsed.{entry_paths};
ghost use Rattle.serde_json.specs.Data.{no_members};
ghost use Rattle.driver_build.specs.Wanted.{wanted, wanted_of};

use crate::Asked;
use dep_key::{NoMemory, Path, Text};
use drv_outside::Entry;
use file_map::{FileMap, Names, assign};
use std::alloc::Global;

/// The paths of sources, in their order.
fn paths_of(alloc: Global, entries: &[Entry]) -> Result<Vec<Path>, NoMemory>
    ensures { IfOk result (λ paths. paths.items ≡ entry_paths entries.now) }
{
    let mut paths = Vec::new(alloc);
    for entry in entries {
        paths.push(entry.path.clone()?)?;
    }
    Ok(paths)
}

/// The names of the outputs of a module with these sources.
fn default_names(alloc: Global, name: &str, entries: &[Entry]) -> Result<Names, NoMemory>
    requires name { IsTrue (is_module_name name.now) }
    requires plain { All (λ path. IsTrue (is_plain_path path)) (entry_paths entries.now) }
    requires ascending { AscendByPath entries.now }
    ensures names { IfOk result (λ names. names ≡ names_for no_members name.now (entry_paths entries.now)) }
    ensures distinct { IfOk result (λ names. AreDistinct (all_names names)) }
    ensures plain { IfOk result (λ names. All (λ name. IsTrue (is_plain_name name)) (all_names names)) }
{
    let paths = paths_of(alloc, entries)?;
    let file_map = FileMap::empty();
    match assign(alloc, &file_map, name, &paths) {
        Ok(names) => Ok(names),
        Err(_) => Err(NoMemory),
    }
}

/// What a build of a module with these sources is asked for.
pub fn asked_of(alloc: Global, name: &str, entries: Vec<Entry>) -> Result<Asked, NoMemory>
    requires name { IsTrue (is_module_name name.now) }
    requires plain { All (λ path. IsTrue (is_plain_path path)) (entry_paths entries.items) }
    requires ascending { AscendByPath entries.items }
    ensures wanted { IfOk result (λ asked. wanted asked ≡ wanted_of name.now entries.items) }
    ensures distinct { IfOk result (λ asked. AreDistinct (all_names asked.names)) }
    ensures plain { IfOk result (λ asked. All (λ name. IsTrue (is_plain_name name)) (all_names asked.names)) }
{
    let names = default_names(alloc, name, &entries)?;
    let module = Text::from_slice(alloc, name.as_bytes())?;
    Ok(Asked {
        module,
        map: None,
        listed: entries,
        names,
    })
}
