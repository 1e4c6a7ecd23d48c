//! What the words of a frame mean.

ghost use Rattle.std.specs.Prelude.{◌≡◌, Some, None, MatchOption, MatchResult, IfOk};
ghost use Rattle.value_types.specs.Views.{datum};
ghost use Rattle.host_spec.specs.Words.{meaning, object_of};
ghost use Rattle.host_spec.specs.Hosted.{IsHosted};
ghost use Rattle.object_store.specs.Shown.{shown_of, AreIndices};
ghost use Rattle.object_store.specs.Refs.{IsMeant, IsBadOnly};

use crate::objects::{Objects, Shown, object_tag};
use crate::small::{is_small, small_value};
use tagged_val::Val;
use value_types::ScVal;

/// What a word means.
#[derive(Drop)]
pub enum Ref<'a> {
    /// A small form, which its bits say.
    Small(Val),
    Object(&'a ScVal),
}

/// The error of a word that means nothing.
#[derive(Clone, Copy, Debug, PartialEq, Eq)]
pub struct Bad;

/// Why no value is made of a word.
#[derive(Clone, Copy, Debug, PartialEq, Eq)]
pub enum TakeErr {
    /// The word means nothing.
    Bad,
    /// Memory ran out.
    NoMemory,
}

impl Objects {
    /// The object of a word with an object's tag. O(1).
    pub fn object(&self, shown: &Shown, word: Val) -> Option<&ScVal>
        requires { AreIndices self.now shown.now }
        ensures { MatchOption result (object_of (shown_of self.now shown.now) word.0 ≡ None)
            (λ v. (object_of (shown_of self.now shown.now) word.0 ≡ Some (datum v.now)) × IsHosted (datum v.now)) }
    {
        let minor = word.0 / 256 % 0x100_0000;
        let major = word.0 / 0x1_0000_0000;
        if minor != 0 || major % 2 != 0 {
            return None;
        }
        match self.shown(shown, (major / 2) as usize) {
            None => None,
            Some(value) => {
                if word.0 % 256 == object_tag(value) {
                    Some(value)
                } else {
                    None
                }
            }
        }
    }

    /// What a word means in a frame. O(1), takes no memory.
    #[tactic(auto, using(crate::proofs::Resolving::meaning_object, crate::proofs::Resolving::meaning_small))]
    pub fn resolve(&self, shown: &Shown, word: Val) -> Result<Ref<'_>, Bad>
        requires { AreIndices self.now shown.now }
        ensures { MatchResult result (IsMeant (meaning (shown_of self.now shown.now) word.0))
            (λ _. meaning (shown_of self.now shown.now) word.0 ≡ None) }
    {
        if word.is_object() {
            match self.object(shown, word) {
                None => Err(Bad),
                Some(value) => Ok(Ref::Object(value)),
            }
        } else if is_small(word) {
            Ok(Ref::Small(word))
        } else {
            Err(Bad)
        }
    }

    /// The value that a word means in a frame, as a value of its own.
    #[tactic(auto, using(crate::proofs::Resolving::meaning_object, crate::proofs::Resolving::meaning_small))]
    pub fn take(&self, shown: &Shown, word: Val) -> Result<ScVal, TakeErr>
        requires { AreIndices self.now shown.now }
        ensures means { MatchResult result (λ v. meaning (shown_of self.now shown.now) word.0 ≡ Some (datum v))
            (IsBadOnly (meaning (shown_of self.now shown.now) word.0)) }
        ensures hosted { IfOk result (λ v. IsHosted (datum v)) }
    {
        match self.resolve(shown, word) {
            Err(_) => Err(TakeErr::Bad),
            Ok(Ref::Small(val)) => small_value(self.allocator(), val),
            Ok(Ref::Object(value)) => match value.clone() {
                Err(_) => Err(TakeErr::NoMemory),
                Ok(copy) => Ok(copy),
            },
        }
    }
}
