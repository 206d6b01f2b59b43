//! Arguments, one by one.

ghost use Rattle.std.specs.Prelude.{◌≡◌, IfOk};
ghost use Rattle.checks.specs.Checks.{appended};
ghost use Rattle.expr_check.specs.Phrases.{label_of};
ghost use Rattle.expr_tree.specs.Callees.{argument_view, arguments_view};

use crate::given::Given;
use dep_key::{Name, NoMemory};
use std::alloc::Global;
use swift_ast::Leaf;

/// The label of an argument, and `_` where it has none.
pub fn label_of(alloc: Global, label: &Option<(Leaf, Leaf)>) -> Result<Name, NoMemory>
    ensures { IfOk result (λ made. made ≡ label_of label.now) }
{
    match label {
        None => {
            let name = Name::from_str(alloc, "_")?;
            Ok(name)
        }
        Some((t, _)) => {
            let name = Name::from_str(alloc, t.text.as_str())?;
            Ok(name)
        }
    }
}

/// One argument more, if all so far were there and it is.
pub fn with_argument(
    givens: Option<Vec<Given>>,
    given: Option<Given>,
) -> Result<Option<Vec<Given>>, NoMemory>
    ensures { IfOk result (λ made. arguments_view made ≡ appended (arguments_view givens) (argument_view given)) }
{
    match givens {
        None => Ok(None),
        Some(mut givens) => match given {
            None => Ok(None),
            Some(given) => {
                givens.push(given)?;
                Ok(Some(givens))
            }
        },
    }
}
