ghost use Rattle.std.specs.Prelude.{◌≡◌, ◌++◌, map, All, IsTrue, IfOk, IfErr};
ghost use Rattle.std.specs.Ordering.{nat_cmp};
ghost use Rattle.std.specs.Cmp.Lexicographic.{slice_cmp};
ghost use Rattle.std.specs.List.Sorted.{IsStrictlySortedBy};
ghost use Rattle.drv_outside.specs.Plain.{is_plain_name, is_plain_path};
ghost use Rattle.output_names.specs.ModuleNames.{is_module_name};
ghost use Rattle.file_map.specs.Assigned.{name_of, file_names, names_for, all_names, IsAssigned, IsRefusal};
ghost use Rattle.file_map.specs.Repeated.{AreDistinct};
ghost use Rattle.file_map.specs.Table.{members};
ghost use Rattle.serde_json.specs.Data.{no_members};
ghost use Rattle.file_map.specs.declared.ends.MapEnd.{MapEnd};

use crate::names::all_names;
use crate::repeated::repeat_fault;
use crate::{FileMap, FileNames, MapEnd, MapFault, Names};
use drv_outside::{Name, NoMemory, Path};
use output_names::stem_of;
use sqlite_items::Items;
use std::alloc::Global;

// The name that a map gives, and else the base with the ending.
fn name_of(
    alloc: Global,
    file_map: &FileMap,
    key: &str,
    kind: &str,
    base: &str,
    ending: &str,
) -> Result<Name, NoMemory>
    ensures { IfOk result (λ name. name ≡ name_of (members file_map.now) key.now kind.now (base.now ++ ending.now)) }
{
    match file_map.given(key, kind) {
        Some(name) => {
            let name = Name::from_str(alloc, name)?;
            Ok(name)
        }
        None => {
            let name = format!(in alloc; "{base}{ending}")?;
            let name = Name::from_string(name)?;
            Ok(name)
        }
    }
}

fn file_names(alloc: Global, file_map: &FileMap, path: &str) -> Result<FileNames, NoMemory>
    requires { IsTrue (is_plain_path path.now) }
    ensures { IfOk result (λ names. names ≡ file_names (members file_map.now) path.now) }
{
    let stem = stem_of(alloc, path)?;
    let stem = stem.as_str();
    let object = name_of(alloc, file_map, path, "object", stem, ".o")?;
    let partial = name_of(
        alloc,
        file_map,
        path,
        "swiftmodule",
        stem,
        "~partial.swiftmodule",
    )?;
    let deps = name_of(
        alloc,
        file_map,
        path,
        "swift-dependencies",
        stem,
        ".swiftdeps",
    )?;
    Ok(FileNames {
        object,
        partial,
        deps,
    })
}

fn files_for(
    alloc: Global,
    file_map: &FileMap,
    paths: &[Path],
) -> Result<Items<FileNames>, NoMemory>
    requires { All (λ path. IsTrue (is_plain_path path)) paths.now }
    ensures { IfOk result (λ files. files ≡ map (file_names (members file_map.now)) paths.now) }
{
    let mut files = Vec::new(alloc);
    for path in paths {
        files.push(file_names(alloc, file_map, path.as_str())?)?;
    }
    Ok(Items::from_vec(files))
}

fn names_for(
    alloc: Global,
    file_map: &FileMap,
    name: &str,
    paths: &[Path],
) -> Result<Names, NoMemory>
    requires { All (λ path. IsTrue (is_plain_path path)) paths.now }
    ensures { IfOk result (λ names. names ≡ names_for (members file_map.now) name.now paths.now) }
{
    let files = files_for(alloc, file_map, paths)?;
    let module = name_of(alloc, file_map, "", "swiftmodule", name, ".swiftmodule")?;
    let image = name_of(alloc, file_map, "", "image", name, ".image")?;
    let priors = name_of(alloc, file_map, "", "priors", name, ".priors")?;
    let build_record = name_of(
        alloc,
        file_map,
        "",
        "swift-dependencies",
        name,
        ".record.json",
    )?;
    let gate = name_of(alloc, file_map, "", "gate", name, ".gate")?;
    Ok(Names {
        files,
        module,
        image,
        priors,
        build_record,
        gate,
    })
}

// The names of all outputs, or the least of them that is assigned twice.
fn assigned(
    alloc: Global,
    file_map: &FileMap,
    name: &str,
    paths: &[Path],
) -> Result<Result<Names, MapFault>, NoMemory>
    requires { All (λ path. IsTrue (is_plain_path path)) paths.now }
    ensures { IfOk result (λ answer. IsAssigned (names_for (members file_map.now) name.now paths.now) answer) }
{
    let names = names_for(alloc, file_map, name, paths)?;
    let all = all_names(alloc, &names)?;
    match repeat_fault(alloc, &all)? {
        Some(fault) => Ok(Err(fault)),
        None => Ok(Ok(names)),
    }
}

/// The names of all outputs of a build: those that the map gives, and for others the defaults.
///
/// The defaults of the source `a/b.swift` are `a~b.o`, `a~b~partial.swiftmodule` and
/// `a~b.swiftdeps`, and those of the module M are `M.swiftmodule`, `M.image`, `M.priors`,
/// `M.record.json` and `M.gate`.
///
/// # Errors
///
/// `PathRepeated` with the least name that would be assigned twice. `NoMemory` where memory was
/// wanted.
pub fn assign(
    alloc: Global,
    file_map: &FileMap,
    module_name: &str,
    paths: &[Path],
) -> Result<Names, MapEnd>
    requires module_name { IsTrue (is_module_name module_name.now) }
    requires plain { All (λ path. IsTrue (is_plain_path path)) paths.now }
    requires ascending { IsStrictlySortedBy (slice_cmp nat_cmp) paths.now }
    ensures names { IfOk result (λ names. names ≡ names_for (members file_map.now) module_name.now paths.now) }
    ensures distinct { IfOk result (λ names. AreDistinct (all_names names)) }
    ensures plain { IfOk result (λ names. All (λ name. IsTrue (is_plain_name name)) (all_names names)) }
    ensures fault { IfErr result (λ end. IsRefusal (names_for (members file_map.now) module_name.now paths.now) end) }
    // Default names never meet.
    ensures defaults { members file_map.now ≡ no_members → IfErr result (λ end. end ≡ MapEnd.NoMemory) }
{
    match assigned(alloc, file_map, module_name, paths) {
        Ok(Ok(names)) => Ok(names),
        Ok(Err(fault)) => Err(MapEnd::Fault(fault)),
        Err(_) => Err(MapEnd::NoMemory),
    }
}
