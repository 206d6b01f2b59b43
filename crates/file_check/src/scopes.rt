//! The scopes of a file's declarations.

ghost use Rattle.std.specs.Prelude.{◌≡◌, [], ◌∷◌, Some, None, IfOk};
ghost use Rattle.body_check.specs.Declarations as spec;

use crate::sites::SiteIndex;
use dep_key::{Name, NoMemory, Path};
use expr_check::Scope;
use sqlite_items::Items;
use std::alloc::Global;
use type_rules::Ty;

/// Outside structs and extensions; initial values are read there too.
pub fn outside(alloc: Global, site: &SiteIndex<'_>) -> Result<Scope, NoMemory>
    ensures { IfOk result (λ scope. scope ≡ spec.outside site.now) }
{
    let path = Path::from_str(alloc, site.path())?;
    Ok(Scope {
        path,
        context: None,
        self_type: None,
        blocks: Items::new(alloc),
        types: Items::new(alloc),
        result: None,
        emits: true,
    })
}

/// Inside a member of a context, with a type of `self` or none.
pub fn inside(
    alloc: Global,
    site: &SiteIndex<'_>,
    context: &Name,
    of: Option<Ty>,
) -> Result<Scope, NoMemory>
    ensures { IfOk result (λ scope. scope ≡ spec.inside site.now context.now of) }
{
    let path = Path::from_str(alloc, site.path())?;
    let context = context.clone()?;
    Ok(Scope {
        path,
        context: Some(context),
        self_type: of,
        blocks: Items::new(alloc),
        types: Items::new(alloc),
        result: None,
        emits: true,
    })
}
