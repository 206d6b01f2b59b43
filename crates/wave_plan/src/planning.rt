//! The plan of a build.

ghost use Rattle.std.specs.Prelude.{◌≡◌, ◌&&◌, ◌==◌, not, ℕ, List, length, map, IfOk, IfErr};
ghost use Rattle.std.specs.List.{AllByRecursion};
ghost use Rattle.dep_key.specs.declared.graph.FileGraph.{FileGraph};
ghost use Rattle.dep_key.specs.GraphOrder.{AreInOrder};
ghost use Rattle.file_map.specs.Assigned.{all_names};
ghost use Rattle.ordered_lists.specs.Among.{is_among};
ghost use Rattle.swiftdeps.specs.declared.fault.TheConstants.{DEPENDENCIES_VERSION};
ghost use Rattle.wave_plan.specs.declared.plan.PriorsWhy.{PriorsWhy};
ghost use Rattle.wave_plan.specs.Validity.{LastBuild, AreValid, IsFirstFault};
ghost use Rattle.wave_plan.specs.Reasons.{recorded_at, reasons, first_files};
ghost use Rattle.wave_plan.specs.Plans.{listed_paths, removed_files, have_same_names, IsFullBuild, IsIncremental};
ghost use Rattle.wave_plan.specs.Told.{told};

use crate::found::Found;
use crate::graphs::{graph_of, removed_files};
use crate::judging::last_build;
use crate::named::{have_same_names, name_set, path_set};
use crate::reasons::{all_files, files_with_reasons, recorded_files};
use crate::{Asked, FirstFile, Plan, PriorsWhy, Seen};
use build_record::FileState;
use dep_key::{FileGraph, NoMemory, Path};
use sqlite_items::Items;
use std::alloc::Global;
use swiftdeps::DEPENDENCIES_VERSION;

// The files of the first wave, beside a record.
fn first(
    alloc: Global,
    seen: &Seen,
    asked: &Asked,
    files: Items<FileState>,
) -> Result<Vec<FirstFile>, NoMemory>
    requires { length asked.now.names.files ≡ length asked.now.listed.items }
    ensures { IfOk result (λ first. first.items ≡ first_files 0 (reasons (recorded_at files) (is_among seen.now.names.items) asked.now.listed.items asked.now.names.files)) }
{
    let recorded = recorded_files(alloc, files)?;
    let held = name_set(alloc, &seen.names)?;
    let first = files_with_reasons(
        alloc,
        &recorded,
        &held,
        &asked.listed,
        asked.names.files.as_slice(),
    )?;
    Ok(first)
}

// The files of a graph that aren't listed.
fn removed(alloc: Global, asked: &Asked, graph: &[FileGraph]) -> Result<Vec<Path>, NoMemory>
    ensures { IfOk result (λ removed. removed.items ≡ removed_files (is_among (listed_paths asked.now.listed.items)) graph.now) }
{
    let listed = path_set(alloc, &asked.listed)?;
    let removed = removed_files(alloc, &listed, graph)?;
    Ok(removed)
}

// Whether the folder has exactly the names that it should have.
fn has_its_names(alloc: Global, seen: &Seen, asked: &Asked) -> Result<bool, NoMemory>
    ensures { IfOk result (λ same. same ≡ have_same_names seen.now.names.items (all_names asked.now.names)) }
{
    let wanted = asked.names.all_names(alloc)?;
    let same = have_same_names(alloc, &seen.names, &wanted)?;
    Ok(same)
}

// The plan where the priors are valid.
fn incremental(alloc: Global, seen: &Seen, asked: &Asked, found: Found) -> Result<Plan, NoMemory>
    requires named { length asked.now.names.files ≡ length asked.now.listed.items }
    requires ordered { AllByRecursion (λ (file : FileGraph). AreInOrder file.nodes) found.graph.items }
    ensures { IfOk result (λ plan. IsIncremental seen.now asked.now (told found) plan) }
{
    let Found {
        build_record,
        version,
        graph,
    } = found;
    let first = first(alloc, seen, asked, build_record.files)?;
    let removed = removed(alloc, asked, &graph)?;
    let has_its_names = has_its_names(alloc, seen, asked)?;
    let graph = graph_of(alloc, graph)?;
    let migrates = version == DEPENDENCIES_VERSION;
    let idle = first.is_empty() && removed.is_empty() && has_its_names && !migrates;
    Ok(Plan {
        priors: Ok(graph),
        first,
        removed,
        idle,
        migrates,
    })
}

// The plan where the priors aren't valid.
fn full(alloc: Global, asked: &Asked, why: PriorsWhy) -> Result<Plan, NoMemory>
    ensures { IfOk result (λ plan. IsFullBuild asked.now why plan) }
{
    let first = all_files(alloc, &asked.listed)?;
    Ok(Plan {
        priors: Err(why),
        first,
        removed: Vec::new(alloc),
        idle: false,
        migrates: false,
    })
}

/// How a build begins: whether the priors are valid, which files are compiled first and why, which were
/// removed, and whether there is nothing to do. Takes time in proportion to the lengths of all lists, but for
/// the logarithm of their lengths.
///
/// # Errors
///
/// `NoMemory` where memory was wanted, or where a file has no number.
pub fn first_wave(alloc: Global, seen: &Seen, asked: &Asked) -> Result<Plan, NoMemory>
    requires { length asked.now.names.files ≡ length asked.now.listed.items }
    // Where the plan has a graph, the priors are valid, and the build goes on from what the folder tells of the build before.
    ensures valid { IfOk result (λ plan. IfOk plan.priors (λ graph. (last : LastBuild) × AreValid seen.now asked.now last × IsIncremental seen.now asked.now last plan)) }
    // Where it has none, it has the first reason why the priors aren't valid, and every file is compiled.
    ensures fault { IfOk result (λ plan. IfErr plan.priors (λ why. IsFirstFault seen.now asked.now why × IsFullBuild asked.now why plan)) }
{
    match last_build(alloc, seen, asked)? {
        Ok(found) => incremental(alloc, seen, asked, found),
        Err(why) => full(alloc, asked, why),
    }
}
