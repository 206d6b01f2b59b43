//! The blocks of a scope.

ghost use Rattle.std.specs.Prelude.{◌≡◌, length, IfOk, OnOk};
ghost use Rattle.std.specs.Option.{option_copied};
ghost use Rattle.expr_check.specs.Scopes as scopes;
ghost use Rattle.body_check.specs.Blocks.{outer_blocks, without_innermost};

use dep_key::{Name, NoMemory};
use expr_check::{Local, Scope, copied_type, named_in};
use sqlite_items::Items;
use std::alloc::Global;
use type_rules::Ty;

/// Goes into a new block.
pub fn enter(alloc: Global, scope: &mut Scope) -> Result<(), NoMemory>
    ensures { OnOk result (scope.new ≡ scopes.entering scope.old) }
{
    scope.blocks.push(Items::new(alloc))?;
    Ok(())
}

/// Takes the innermost block away.
#[tactic(auto, using(crate::proofs::BlockLemmas::outer_last))]
fn remove_innermost(blocks: &mut Items<Items<Local>>)
    ensures { blocks.new ≡ outer_blocks blocks.old }
{
    match blocks.pop() {
        None => {}
        Some(_) => {}
    }
}

/// Goes out of the innermost block.
pub fn leave(scope: &mut Scope)
    ensures { scope.new ≡ without_innermost scope.old }
{
    remove_innermost(&mut scope.blocks);
}

/// The first local of a name in the innermost block.
#[tactic(auto, using(crate::proofs::BlockLemmas::innermost_more))]
pub fn named_in_innermost<'a>(blocks: &'a [Items<Local>], name: &str) -> Option<&'a Local>
    ensures { option_copied result ≡ scopes.named_in (scopes.innermost blocks.now) name.now }
{
    match blocks {
        [] => None,
        [block, inner @ ..] => match inner {
            [] => named_in(block.as_slice(), name),
            _ => named_in_innermost(inner, name),
        },
    }
}

/// Puts a local into the innermost block.
#[tactic(auto, using(crate::proofs::BlockLemmas::in_last))]
fn push_local(alloc: Global, blocks: &mut Items<Items<Local>>, local: Local) -> Result<(), NoMemory>
    ensures { OnOk result (blocks.new ≡ scopes.in_innermost blocks.old local) }
{
    match blocks.pop() {
        None => {
            let mut block = Items::new(alloc);
            block.push(local)?;
            blocks.push(block)?;
            Ok(())
        }
        Some(mut block) => {
            block.push(local)?;
            blocks.push(block)?;
            Ok(())
        }
    }
}

/// The number of the next local. One that has no room is answered as want of memory.
pub fn next_number(scope: &Scope) -> Result<u32, NoMemory>
    ensures { IfOk result (λ number. number ≡ length scope.now.types) }
{
    let count = scope.types.len();
    if count > u32::MAX as usize {
        return Err(NoMemory);
    }
    Ok(count as u32)
}

/// Declares a parameter or a local in the innermost block, with a type or with none.
pub fn declare(
    alloc: Global,
    scope: &mut Scope,
    name: &str,
    ty: Option<Ty>,
    mutable: bool,
) -> Result<(), NoMemory>
    ensures { OnOk result (scope.new ≡ scopes.declaring scope.old name.now ty mutable) }
{
    let number = next_number(scope)?;
    let name = Name::from_str(alloc, name)?;
    let copy = copied_type(&ty)?;
    let local = Local {
        name,
        ty: copy,
        mutable,
        number,
    };
    push_local(alloc, &mut scope.blocks, local)?;
    scope.types.push(ty)?;
    Ok(())
}
