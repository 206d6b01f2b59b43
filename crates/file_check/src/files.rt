//! Checks of files.

ghost use Rattle.std.specs.Prelude.{◌≡◌, [], ◌++◌, map, Some, IfOk};
ghost use Rattle.swift_ast.specs.declared.declarations.Decl.TheVariants as decl;
ghost use Rattle.body_check.specs.Declarations.{decl_check, file_check};
ghost use Rattle.body_check.specs.Files as spec;
ghost use Rattle.file_check.specs.Runs.{run, gathered};

use crate::declarations::{check_alias, check_func, check_global};
use crate::extensions::check_extension;
use crate::sites::SiteIndex;
use crate::structs::check_struct;
use dep_key::{Key, NoMemory};
use expr_check::{Line, Log};
use sqlite_items::Items;
use std::alloc::Global;
use std::collections::BTreeSet;
use swift_ast::{Access, Decl, FileTree, NamedDecl};
use type_rules::Answers;
use typed_code::Unit;

/// What checking a file gives.
#[derive(Drop)]
pub struct CheckedFile {
    /// By line, column and text, equal ones once.
    pub errors: BTreeSet<Line>,

    /// The code of its declarations that have no error.
    pub units: Items<Unit>,

    /// The keys that its implementation uses, in order, each once.
    pub uses: BTreeSet<Key>,
}

/// A declaration that gives a name.
fn check_named<A: Answers>(
    alloc: Global,
    answers: &A,
    log: &mut Log,
    site: &SiteIndex<'_>,
    access: &Option<Access>,
    tree: &NamedDecl,
) -> Result<Items<Unit>, NoMemory>
    ensures { IfOk result (λ units. (Some units, log.new) ≡ run (A.meanings answers.now) (decl_check site.now (decl.Named access.now tree.now)) log.old) }
{
    match tree {
        NamedDecl::Global(tree) => {
            let units = check_global(alloc, answers, log, site, access, tree)?;
            Ok(units)
        }
        NamedDecl::Func(tree) => {
            let units = check_func(alloc, answers, log, site, access, tree)?;
            Ok(units)
        }
        NamedDecl::Struct(tree) => {
            let units = check_struct(alloc, answers, log, site, access, tree)?;
            Ok(units)
        }
        NamedDecl::Alias(tree) => {
            let units = check_alias(alloc, answers, log, site, access, tree)?;
            Ok(units)
        }
    }
}

/// A declaration.
fn check_decl<A: Answers>(
    alloc: Global,
    answers: &A,
    log: &mut Log,
    site: &SiteIndex<'_>,
    decl: &Decl,
) -> Result<Items<Unit>, NoMemory>
    ensures { IfOk result (λ units. (Some units, log.new) ≡ run (A.meanings answers.now) (decl_check site.now decl.now) log.old) }
{
    match decl {
        Decl::Named(access, tree) => {
            let units = check_named(alloc, answers, log, site, access, tree)?;
            Ok(units)
        }
        Decl::Extension(tree) => {
            let units = check_extension(alloc, answers, log, site, tree)?;
            Ok(units)
        }
    }
}

/// Declarations in the order of the text.
fn check_decls<A: Answers>(
    alloc: Global,
    answers: &A,
    log: &mut Log,
    site: &SiteIndex<'_>,
    decls: &[Decl],
) -> Result<Items<Unit>, NoMemory>
    ensures { IfOk result (λ units. (Some units, log.new) ≡ gathered (λ us vs. us ++ vs) (A.meanings answers.now) (Some []) (map (decl_check site.now) decls.now) log.old) }
{
    let mut units = Items::new(alloc);
    for decl in decls {
        let more = check_decl(alloc, answers, log, site, decl)?;
        units.append(more)?;
    }
    Ok(units)
}

/// A file, from the log so far.
fn check_into<A: Answers>(
    alloc: Global,
    answers: &A,
    log: &mut Log,
    file: &FileTree,
) -> Result<Items<Unit>, NoMemory>
    ensures { IfOk result (λ units. (Some units, log.new) ≡ run (A.meanings answers.now) (file_check file.now) log.old) }
{
    let site = SiteIndex::of(alloc, file)?;
    let decls = file.decls.as_slice();
    let units = check_decls(alloc, answers, log, &site, decls)?;
    Ok(units)
}

/// Checks a file.
pub fn check_file<A: Answers>(
    alloc: Global,
    answers: &A,
    file: &FileTree,
) -> Result<CheckedFile, NoMemory>
    ensures errors { IfOk result (λ c. c.errors.keys ≡ spec.file_errors (A.meanings answers.now) file.now) }
    ensures units { IfOk result (λ c. c.units ≡ spec.file_units (A.meanings answers.now) file.now) }
    ensures uses { IfOk result (λ c. c.uses.keys ≡ spec.file_uses (A.meanings answers.now) file.now) }
{
    let mut log = Log::new(alloc);
    let units = check_into(alloc, answers, &mut log, file)?;
    let (errors, uses) = log.into_sets();
    Ok(CheckedFile {
        errors,
        units,
        uses,
    })
}
