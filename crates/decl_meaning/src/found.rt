//! Lists of what was found, where all of it was.

ghost use Rattle.std.specs.Prelude.{◌≡◌, IfOk};
ghost use Rattle.checks.specs.Checks.{appended};
ghost use Rattle.decl_meaning.specs.Asking.{items_in};

use dep_key::NoMemory;

/// One more, if all so far were found and it is.
pub fn append_found<T: Drop>(
    found: Option<Vec<T>>,
    one: Option<T>,
) -> Result<Option<Vec<T>>, NoMemory>
    ensures { IfOk result (λ all. items_in all ≡ appended (items_in found) one) }
{
    match found {
        None => Ok(None),
        Some(mut items) => match one {
            None => Ok(None),
            Some(one) => {
                items.push(one)?;
                Ok(Some(items))
            }
        },
    }
}
