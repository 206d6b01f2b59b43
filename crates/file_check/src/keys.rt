//! The keys of a file's declarations.

ghost use Rattle.std.specs.Prelude.{◌≡◌, IfOk};
ghost use Rattle.dep_key.specs.KeyBuilders.{top_level, nominal, member};
ghost use Rattle.body_check.specs.Declarations as spec;

use crate::sites::SiteIndex;
use decl_index::is_private;
use dep_key::{Key, Name, NoMemory, key_name};
use std::alloc::Global;
use swift_ast::{Access, Leaf};

/// The name by which a declaration is known in the module.
pub fn name_in_keys(
    alloc: Global,
    site: &SiteIndex<'_>,
    access: &Option<Access>,
    name: &Leaf,
) -> Result<Name, NoMemory>
    ensures { IfOk result (λ made. made ≡ spec.name_in_keys site.now access.now name.now) }
{
    let name = key_name(alloc, site.path(), is_private(access), name.text.as_str())?;
    Ok(name)
}

/// The key of a declaration outside structs and extensions.
pub fn top_key(
    alloc: Global,
    site: &SiteIndex<'_>,
    access: &Option<Access>,
    name: &Leaf,
) -> Result<Key, NoMemory>
    ensures { IfOk result (λ key. key ≡ top_level (spec.name_in_keys site.now access.now name.now)) }
{
    let name = name_in_keys(alloc, site, access, name)?;
    Ok(Key::top_level(name))
}

/// The key of a member of a context.
pub fn member_key(
    alloc: Global,
    site: &SiteIndex<'_>,
    context: &Name,
    access: &Option<Access>,
    name: &Leaf,
) -> Result<Key, NoMemory>
    ensures { IfOk result (λ key. key ≡ member context.now (spec.name_in_keys site.now access.now name.now)) }
{
    let name = name_in_keys(alloc, site, access, name)?;
    Ok(Key::member(context.clone()?, name))
}

/// The key of a name in keys.
pub fn top_key_of(name: &Name) -> Result<Key, NoMemory>
    ensures { IfOk result (λ key. key ≡ top_level name.now) }
{
    let name = name.clone()?;
    Ok(Key::top_level(name))
}

/// The key of the stored parts of a struct.
pub fn nominal_key(context: &Name) -> Result<Key, NoMemory>
    ensures { IfOk result (λ key. key ≡ nominal context.now) }
{
    let context = context.clone()?;
    Ok(Key::nominal(context))
}

/// The name in a key.
pub fn name_of(key: &Key) -> Result<Name, NoMemory>
    ensures { IfOk result (λ name. name ≡ key.now.name) }
{
    let name = key.name.clone()?;
    Ok(name)
}
