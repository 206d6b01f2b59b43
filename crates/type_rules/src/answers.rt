ghost use Rattle.std.specs.Prelude.{◌≡◌};
ghost use Rattle.dep_key.specs.declared.key.Key.{Key};
ghost use Rattle.type_rules.specs.declared.meaning.Meaning.{Meaning};

use crate::Meaning;
use dep_key::Key;

/// What is known of the keys of a module.
pub trait Answers {
    /// What each key means.
    ghost meanings: { Self → Key → Meaning };

    /// What a key means.
    fn meaning(&self, key: &Key) -> &Meaning
        ensures { result.now ≡ meanings self.now key.now };
}
