//! Grammars: forms of trees over any tokens, trees read from the front of a list, and first faults.
//!
//! The crate names no language. Its definitions stand in `specs/`: the forms from which rules are
//! built in `Forms.antt`, what a reader finds in `Faults.antt`, whole lists in `Whole.antt`, levels of
//! brackets in `Levels.antt`. Each form comes with its laws in `proofs/`: when no two trees have one
//! list of tokens, each way in which a tree is taken, and each in which it is refused. Here stand the
//! laws that hold of every form.
#![tactic(auto)]

ghost use Rattle.grammar.specs.Laws.{ListHasOneTree, NeverTreeAndFault, ListHasOneFault};

/// A list of tokens has at most one tree, where the form tells its trees apart; it has at most one first
/// fault, and never a tree and a first fault.
pub fn whole_laws<T, X>()
    ensures one_tree { ListHasOneTree T X }
    ensures never_both { NeverTreeAndFault T X }
    ensures one_fault { ListHasOneFault T X }
{}

#[cfg(test)]
mod tests {
    use super::whole_laws;

    #[test]
    fn laws_hold_at_numbers(_rt: HostRuntime) {
        whole_laws::<u32, u8>();
    }
}
