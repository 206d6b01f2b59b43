//! Checks of programs: tasks that say errors and may give a value.
//!
//! What a check asks are the keys that it fetches, so that the uses of a part of a program, the errors in it and its typed form
//! come from one definition (`specs/Checks.antt`). Here are the laws: a program that enters what is said and what is asked into
//! two sets as it goes (`specs/Logs.antt`) makes that value and these sets. The crate names no language.
#![tactic(auto)]

ghost use Rattle.checks.specs.Laws.{MadeIsTheCheck, SameAnswersMakeTheSame, MadeOfBind, MadeOfBoth, MadeOfNoting, MadeOfTried, MadeOfHushed, MadeOfFirst, BindMakesItsFrontFirst, BothMakeTheFirstFirst, ChainMakesItsFrontFirst, SameAnswersGiveTheSame, OwnAnswersGiveTheValue, UsedIsAsked, OwnedIsUnasked, OwnAnswersGoAlong};

/// From nothing, a program ends with the value of the check, the set of its errors and the set of the keys that it asks. All
/// three depend on the answers to what is asked, and on nothing else.
pub fn check_laws<K, A, E, X>()
    ensures made { MadeIsTheCheck K A E X }
    ensures alike { SameAnswersMakeTheSame K A E X }
{}

/// What is made of checks that are put together is put together of what is made of each.
pub fn made_laws<K, A, E, X, Y>()
    ensures bind { MadeOfBind K A E X Y }
    ensures both { MadeOfBoth K A E X Y }
    ensures noting { MadeOfNoting K A E X Y }
    ensures tried { MadeOfTried K A E X }
    ensures hushed { MadeOfHushed K A E X }
    ensures first { MadeOfFirst K A E X }
{}

/// What goes on with a check makes that check first, a chain of any length too.
pub fn front_laws<K, A, E, T, X, Y, Z>()
    ensures bind { BindMakesItsFrontFirst K A E X Y Z }
    ensures both { BothMakeTheFirstFirst K A E X Y Z }
    ensures chain { ChainMakesItsFrontFirst K A E T X Y Z }
{}

/// A task that asks own keys beside those that it uses: with the same answers at all of them it gives the same and uses the
/// same, and with the answers of own keys put in it is a task of what it uses alone.
pub fn own_key_laws<K, A, E, X, Y>()
    ensures same { SameAnswersGiveTheSame K A X }
    ensures value { OwnAnswersGiveTheValue K A X }
    ensures used { UsedIsAsked K A X }
    ensures owned { OwnedIsUnasked K A X }
    ensures bind { OwnAnswersGoAlong K A E X Y }
{}

#[cfg(test)]
mod tests {
    use super::{check_laws, front_laws, made_laws, own_key_laws};

    #[test]
    fn laws_hold_at_numbers(_rt: HostRuntime) {
        check_laws::<u32, u8, u16, bool>();
        made_laws::<u32, u8, u16, bool, u64>();
        front_laws::<u32, u8, u16, u8, bool, u64, u32>();
        own_key_laws::<u32, u8, u16, bool, u64>();
    }
}
