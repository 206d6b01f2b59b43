//! The keys of one declaration.

ghost use Rattle.std.specs.Prelude.{◌≡◌, [], ◌∷◌, IfOk};
ghost use Rattle.decl_index.specs.Declarations.{is_private, global_keys, struct_keys, extension_keys, member_keys};

use dep_key::{Key, Keys, Name, NoMemory};
use std::alloc::Global;
use swift_ast::Access;

/// Whether a declaration is visible in its file alone.
pub fn is_private(access: &Option<Access>) -> bool
    ensures { result ≡ is_private access.now }
{
    match access {
        Some(Access::Private(_)) => true,
        Some(Access::Fileprivate(_)) => true,
        Some(Access::Internal(_)) => false,
        Some(Access::Public(_)) => false,
        None => false,
    }
}

/// One key alone.
fn alone(alloc: Global, key: Key) -> Result<Keys, NoMemory>
    ensures { IfOk result (λ keys. keys ≡ key ∷ []) }
{
    let mut keys = Vec::new(alloc);
    keys.push(key)?;
    Ok(Keys::from_vec(keys))
}

/// The keys of a global, a function or an alias.
pub fn global_keys(alloc: Global, name: Name) -> Result<Keys, NoMemory>
    ensures { IfOk result (λ keys. keys ≡ global_keys name) }
{
    let keys = alone(alloc, Key::top_level(name))?;
    Ok(keys)
}

/// The keys of a struct.
pub fn struct_keys(alloc: Global, name: &Name) -> Result<Keys, NoMemory>
    ensures { IfOk result (λ keys. keys ≡ struct_keys name.now) }
{
    let own = Key::top_level(name.clone()?);
    let stored = Key::nominal(name.clone()?);
    let members = Key::potential_member(name.clone()?);
    let mut keys = Vec::new(alloc);
    keys.push(own)?;
    keys.push(stored)?;
    keys.push(members)?;
    Ok(Keys::from_vec(keys))
}

/// The keys of an extension.
pub fn extension_keys(alloc: Global, context: &Name) -> Result<Keys, NoMemory>
    ensures { IfOk result (λ keys. keys ≡ extension_keys context.now) }
{
    let key = Key::potential_member(context.clone()?);
    let keys = alone(alloc, key)?;
    Ok(keys)
}

/// The keys of a member.
pub fn member_keys(alloc: Global, context: &Name, name: Name) -> Result<Keys, NoMemory>
    ensures { IfOk result (λ keys. keys ≡ member_keys context.now name) }
{
    let key = Key::member(context.clone()?, name);
    let keys = alone(alloc, key)?;
    Ok(keys)
}
