//! Queries with answers that depend on one another: what a key means is the value of a task that
//! fetches other keys, and the meanings of all keys are the least solution of their tasks.
//!
//! The crate names no language: its definitions stand in `specs/Queries.antt`, and here are the
//! laws that hold of every set of rules. Tasks that fetch keys are those of Mokhov, Mitchell and
//! Peyton Jones, *Build Systems à la Carte* (2018); the rounds are Kleene's iteration.
#![tactic(auto)]

ghost use Rattle.queries.specs.Laws.{EachRoundKeepsAnswers, SolutionKnowsEachRound, SolutionIsFixed, SolutionIsLeast, TrueAnswersGiveTrueOnes, StoppedTaskWaits, NeededKeyIsAwaited, CirclesAreNeverKnown, UnknownIsNeverKnown, SolutionIsOne, AgreementCovers, AnsweredTaskEnds, TasksCompose, EqualAnswersGiveEqualValues, GivenValuesPass, TestsCompose, StoppedTaskNeeds, NeedsOfTheFirst, NeedsOfTheNext, NeedsBehindTheEnd};

/// Rounds only add answers, and end in the least answers that the tasks themselves give.
pub fn solution_laws<K, A>()
    ensures growth { EachRoundKeepsAnswers K A }
    ensures complete { SolutionKnowsEachRound K A }
    ensures fixed { SolutionIsFixed K A }
    ensures least { SolutionIsLeast K A }
    ensures one { SolutionIsOne K A }
{}

/// What an evaluator on demand rests on: it may keep any true answers, in any order.
pub fn demand_laws<K, A>()
    ensures answers { TrueAnswersGiveTrueOnes K A }
    ensures waits { StoppedTaskWaits K A }
    ensures awaited { NeededKeyIsAwaited K A }
    ensures circles { CirclesAreNeverKnown K A }
    ensures unknown { UnknownIsNeverKnown K A }
{}

/// Changes that keys outside a set don't see leave their answers alone.
pub fn coverage_law<K, A>()
    ensures { AgreementCovers K A }
{}

/// A task that goes through other tasks gives what they give, and depends on what they do. What it
/// gives depends on the answers to its dependencies alone.
pub fn task_laws<K, A, X, Y>()
    ensures answered { AnsweredTaskEnds K A X }
    ensures compose { TasksCompose K A X Y }
    ensures equal_answers { EqualAnswersGiveEqualValues K A X }
{}

/// A task of which each end passes a test gives only what passes: so no reading ends with a value
/// that the test refuses.
pub fn test_laws<K, A, X, Y>()
    ensures given { GivenValuesPass K A X }
    ensures compose { TestsCompose K A X Y }
{}

/// Which keys a task needs before it can end, whatever else becomes known.
pub fn need_laws<K, A, X, Y>()
    ensures stopped { StoppedTaskNeeds K A X }
    ensures first { NeedsOfTheFirst K A X Y }
    ensures next { NeedsOfTheNext K A X Y }
    ensures behind { NeedsBehindTheEnd K A X Y }
{}

#[cfg(test)]
mod tests {
    use super::{coverage_law, demand_laws, need_laws, solution_laws, task_laws, test_laws};

    #[test]
    fn laws_hold_at_numbers(_rt: HostRuntime) {
        solution_laws::<u32, u8>();
        demand_laws::<u32, u8>();
        coverage_law::<u32, u8>();
        task_laws::<u32, u8, bool, u16>();
        test_laws::<u32, u8, bool, u16>();
        need_laws::<u32, u8, bool, u16>();
    }
}
