//! What the definitions of a file print and use, and why a file whose uses haven't moved comes to the same.
//!
//! The node of a definition is one query: its value is the print, and what it asks are the uses. A print fixes what its key
//! means, so it is enough to look at prints to know whether a file has to be compiled again. `specs/Prints.antt` says what
//! is printed, `specs/Nodes.antt` what is used, `specs/Coverage.antt` what stays the same.
#![tactic(auto)]

ghost use Rattle.iface_print.specs.Coverage.{Covers, KeptKeysMeanTheSame, NodesAgree, PrintsAgree, QueriesAgree, UsedKeysMeanTheSame};
ghost use Rattle.iface_print.specs.Examples.{CirclesAreCircular, ErrorsAreBroken, FieldsAreLaidOut, PartialTextsAreForOthers};
ghost use Rattle.iface_print.specs.Laws.{EachPrintIsALine, EqualPrintsMeanTheSame, NodesArePrints};

mod partials;
mod texts;

pub use partials::partial_text;
pub use texts::put_print;
pub use type_infer::{FileTree, Meaning};

/// A print is one line, and fixes the meaning of its key.
pub fn print_laws()
    ensures fix { EqualPrintsMeanTheSame }
    ensures lines { EachPrintIsALine }
    ensures nodes { NodesArePrints }
{}

/// A file whose uses haven't moved comes to the same: the keys that no changed file declares mean the same, and so do the
/// keys that it uses; its definitions print and use the same; and so does whatever is read of it that asks only uses of the
/// file. `X` is the type of such a reading.
pub fn coverage_laws<X>()
    ensures kept { Covers (λ implementation. KeptKeysMeanTheSame) }
    ensures used { Covers UsedKeysMeanTheSame }
    ensures nodes { Covers (λ implementation. NodesAgree) }
    ensures prints { Covers (λ implementation. PrintsAgree) }
    ensures queries { Covers (QueriesAgree X) }
{}

/// What the keys of a small module mean, and how they are printed; and the partial text of a file.
pub fn worked_examples()
    ensures circles { CirclesAreCircular }
    ensures errors { ErrorsAreBroken }
    ensures fields { FieldsAreLaidOut }
    ensures partials { PartialTextsAreForOthers }
{}
