//! What the words of a frame mean: one call for each kind of argument.

ghost use Rattle.std.specs.Prelude.{◌≡◌, ◌≤◌, length, IfOk};
ghost use Rattle.value_types.specs.Views.{datum, datums, datum_pairs};
ghost use Rattle.value_types.specs.Datum.{items_of, members_of, bytes as bytes_datum, string as string_datum};
ghost use Rattle.value_types.specs.Datum.{symbol as symbol_datum, vec as vec_datum, map as map_datum, address as address_datum};
ghost use Rattle.host_spec.specs.Arguments.{argument};
ghost use Rattle.host_spec.specs.Hosted.{IsHosted, IsMade};
ghost use Rattle.object_store.specs.Shown.{shown_of, AreIndices};
ghost use Rattle.host_frame.specs.Resolved.{Resolves};
ghost use Rattle.host_frame.specs.Held.{held, held_text, muxed};
ghost use Rattle.host_interface.specs.declared.kinds.ArgKind.TheVariants as kinds;

use crate::errors::{INVALID_VALUE, OTHER_TYPE};
use crate::held::{Held, HeldText};
use crate::typed;
use host_spec::ValueErr;
use object_store::{Objects, Ref, Shown, TakeErr, small_value};
use std::alloc::Global;
use std::marker::Model;
use tagged_val::Val;
use value_types::{AccountId, Entry, Int128Parts, ScAddress, ScError, ScVal, UInt128Parts};

/// The values that were shown in a frame, lent.
///
/// Each call returns what a word means as an argument of one kind. The small form of a type and its object form are both taken.
/// A word without meaning is `INVALID_VALUE`, a value of another type `OTHER_TYPE`. A call charges nothing.
#[derive(Drop)]
pub struct Values<'a> {
    objects: &'a Objects,
    shown: &'a Shown,
}

impl<'a> Model for Values<'a> {
    ghost use Rattle.std.specs.Prelude.{List};
    ghost use Rattle.std.specs.Coded.{coded_list};
    ghost use Rattle.value_types.specs.Datum.{Datum};
    ghost use Rattle.value_types.specs.RowLaws.{coded_datum};

    ghost Value = { List Datum };

    ghost coded = { coded_list coded_datum };

    ghost use Rattle.object_store.specs.Shown.{shown_of, AreIndices};

    ghost view = { λ v. shown_of v.objects.now v.shown.now };

    ghost invariant = { λ v. AreIndices v.objects.now v.shown.now };
}

impl<'a> Values<'a> {
    /// What was shown in the frame.
    pub fn new(objects: &'a Objects, shown: &'a Shown) -> Values<'a>
        requires { AreIndices objects.now shown.now }
        ensures { result ≡ shown_of objects.now shown.now }
    {
        Values { objects, shown }
    }

    /// Where new values take their memory from.
    pub fn allocator(&self) -> Global {
        self.objects.allocator()
    }

    /// The value of a word.
    #[tactic(auto, using(crate::proofs::Resolving::resolved_object, crate::proofs::Resolving::resolved_small))]
    pub fn value(&self, word: u64) -> Result<Held<'a>, ValueErr>
        ensures means { Resolves result (λ h. datum (held h)) (argument kinds.Value self.now word) }
        ensures hosted { IfOk result (λ h. IsHosted (datum (held h))) }
    {
        let val = Val(word);
        if val.is_object() {
            return match self.objects.object(self.shown, val) {
                None => Err(INVALID_VALUE),
                Some(value) => Ok(Held::Lent(value)),
            };
        }
        match small_value(self.allocator(), val) {
            Err(TakeErr::Bad) => Err(INVALID_VALUE),
            Err(TakeErr::NoMemory) => Err(ValueErr::NoMemory),
            Ok(value) => Ok(Held::Own(value)),
        }
    }

    /// The error of a word.
    #[tactic(auto, using(crate::proofs::Resolving::resolved_stops, crate::proofs::Resolving::resolved_as))]
    pub fn error(&self, word: u64) -> Result<ScError, ValueErr>
        ensures { Resolves result (λ e. e) (argument kinds.Error self.now word) }
    {
        match self.value(word) {
            Err(error) => Err(error),
            Ok(value) => typed::error_of(value.get()),
        }
    }

    /// The U32 of a word.
    #[tactic(auto, using(crate::proofs::Resolving::resolved_stops, crate::proofs::Resolving::resolved_as))]
    pub fn number32(&self, word: u64) -> Result<u32, ValueErr>
        ensures { Resolves result (λ n. n) (argument kinds.U32 self.now word) }
    {
        match self.value(word) {
            Err(error) => Err(error),
            Ok(value) => typed::number32_of(value.get()),
        }
    }

    /// The U64 of a word.
    #[tactic(auto, using(crate::proofs::Resolving::resolved_stops, crate::proofs::Resolving::resolved_as))]
    pub fn number64(&self, word: u64) -> Result<u64, ValueErr>
        ensures { Resolves result (λ n. n) (argument kinds.U64 self.now word) }
    {
        match self.value(word) {
            Err(error) => Err(error),
            Ok(value) => typed::number64_of(value.get()),
        }
    }

    /// The I64 of a word.
    #[tactic(auto, using(crate::proofs::Resolving::resolved_stops, crate::proofs::Resolving::resolved_as))]
    pub fn signed64(&self, word: u64) -> Result<i64, ValueErr>
        ensures { Resolves result (λ n. n) (argument kinds.I64 self.now word) }
    {
        match self.value(word) {
            Err(error) => Err(error),
            Ok(value) => typed::signed64_of(value.get()),
        }
    }

    /// The U128 of a word.
    #[tactic(auto, using(crate::proofs::Resolving::resolved_stops, crate::proofs::Resolving::resolved_as))]
    pub fn number128(&self, word: u64) -> Result<UInt128Parts, ValueErr>
        ensures { Resolves result (λ n. n) (argument kinds.U128 self.now word) }
    {
        match self.value(word) {
            Err(error) => Err(error),
            Ok(value) => typed::number128_of(value.get()),
        }
    }

    /// The I128 of a word.
    #[tactic(auto, using(crate::proofs::Resolving::resolved_stops, crate::proofs::Resolving::resolved_as))]
    pub fn signed128(&self, word: u64) -> Result<Int128Parts, ValueErr>
        ensures { Resolves result (λ n. n) (argument kinds.I128 self.now word) }
    {
        match self.value(word) {
            Err(error) => Err(error),
            Ok(value) => typed::signed128_of(value.get()),
        }
    }

    /// The timepoint of a word.
    #[tactic(auto, using(crate::proofs::Resolving::resolved_stops, crate::proofs::Resolving::resolved_as))]
    pub fn timepoint(&self, word: u64) -> Result<u64, ValueErr>
        ensures { Resolves result (λ n. n) (argument kinds.Timepoint self.now word) }
    {
        match self.value(word) {
            Err(error) => Err(error),
            Ok(value) => typed::timepoint_of(value.get()),
        }
    }

    /// The duration of a word.
    #[tactic(auto, using(crate::proofs::Resolving::resolved_stops, crate::proofs::Resolving::resolved_as))]
    pub fn duration(&self, word: u64) -> Result<u64, ValueErr>
        ensures { Resolves result (λ n. n) (argument kinds.Duration self.now word) }
    {
        match self.value(word) {
            Err(error) => Err(error),
            Ok(value) => typed::duration_of(value.get()),
        }
    }

    /// The text of a symbol's word.
    #[tactic(auto, using(crate::proofs::Resolving::resolved_stops, crate::proofs::Resolving::resolved_as))]
    pub fn symbol(&self, word: u64) -> Result<HeldText<'a>, ValueErr>
        ensures means { Resolves result (λ t. held_text t) (argument kinds.Symbol self.now word) }
        ensures hosted { IfOk result (λ t. IsHosted (symbol_datum (held_text t))) }
    {
        match self.value(word) {
            Err(error) => Err(error),
            Ok(value) => typed::text_of(value),
        }
    }

    /// The bytes of a word.
    #[tactic(auto, using(crate::proofs::Resolving::resolved_bad, crate::proofs::Resolving::no_small_bytes, crate::proofs::Resolving::resolved_some))]
    pub fn bytes(&self, word: u64) -> Result<&'a [u8], ValueErr>
        ensures means { Resolves result (λ b. b.now) (argument kinds.Bytes self.now word) }
        ensures hosted { IfOk result (λ b. IsHosted (bytes_datum b.now)) }
    {
        match self.objects.resolve(self.shown, Val(word)) {
            Err(_) => Err(INVALID_VALUE),
            Ok(Ref::Small(_)) => Err(OTHER_TYPE),
            Ok(Ref::Object(value)) => typed::bytes_of(value),
        }
    }

    /// The bytes of a string's word.
    #[tactic(auto, using(crate::proofs::Resolving::resolved_bad, crate::proofs::Resolving::no_small_string, crate::proofs::Resolving::resolved_some))]
    pub fn string(&self, word: u64) -> Result<&'a [u8], ValueErr>
        ensures means { Resolves result (λ b. b.now) (argument kinds.String self.now word) }
        ensures hosted { IfOk result (λ b. IsHosted (string_datum b.now)) }
    {
        match self.objects.resolve(self.shown, Val(word)) {
            Err(_) => Err(INVALID_VALUE),
            Ok(Ref::Small(_)) => Err(OTHER_TYPE),
            Ok(Ref::Object(value)) => typed::string_of(value),
        }
    }

    /// The items of a vec's word.
    #[tactic(auto, using(crate::proofs::Resolving::resolved_bad, crate::proofs::Resolving::no_small_vec, crate::proofs::Resolving::resolved_some))]
    pub fn vec(&self, word: u64) -> Result<&'a [ScVal], ValueErr>
        ensures means { Resolves result (λ m. datums m.now) (argument kinds.Vec self.now word) }
        ensures hosted { IfOk result (λ m. IsHosted (vec_datum (items_of (datums m.now)))) }
    {
        match self.objects.resolve(self.shown, Val(word)) {
            Err(_) => Err(INVALID_VALUE),
            Ok(Ref::Small(_)) => Err(OTHER_TYPE),
            Ok(Ref::Object(value)) => typed::items_of(value),
        }
    }

    /// The entries of a map's word, whose keys rise.
    #[tactic(auto, using(crate::proofs::Resolving::resolved_bad, crate::proofs::Resolving::no_small_map, crate::proofs::Resolving::resolved_some))]
    pub fn map(&self, word: u64) -> Result<&'a [Entry], ValueErr>
        ensures means { Resolves result (λ m. datum_pairs m.now) (argument kinds.Map self.now word) }
        ensures hosted { IfOk result (λ m. IsHosted (map_datum (members_of (datum_pairs m.now)))) }
    {
        match self.objects.resolve(self.shown, Val(word)) {
            Err(_) => Err(INVALID_VALUE),
            Ok(Ref::Small(_)) => Err(OTHER_TYPE),
            Ok(Ref::Object(value)) => typed::entries_of(value),
        }
    }

    /// A vec's word: the whole value, and its items.
    #[tactic(auto, using(crate::proofs::Resolving::resolved_bad, crate::proofs::Resolving::no_small_vec, crate::proofs::Resolving::resolved_some))]
    pub fn whole_vec(&self, word: u64) -> Result<(&'a ScVal, &'a [ScVal]), ValueErr>
        ensures means { Resolves result (λ p. datums p.1.now) (argument kinds.Vec self.now word) }
        ensures same { IfOk result (λ p. vec_datum (items_of (datums p.1.now)) ≡ datum p.0.now) }
        ensures hosted { IfOk result (λ p. IsHosted (datum p.0.now)) }
        ensures items { IfOk result (λ p. IsHosted (vec_datum (items_of (datums p.1.now)))) }
    {
        match self.objects.resolve(self.shown, Val(word)) {
            Err(_) => Err(INVALID_VALUE),
            Ok(Ref::Small(_)) => Err(OTHER_TYPE),
            Ok(Ref::Object(value)) => typed::whole_vec_of(value),
        }
    }

    /// A map's word: the whole value, and its entries.
    #[tactic(auto, using(crate::proofs::Resolving::resolved_bad, crate::proofs::Resolving::no_small_map, crate::proofs::Resolving::resolved_some))]
    pub fn whole_map(&self, word: u64) -> Result<(&'a ScVal, &'a [Entry]), ValueErr>
        ensures means { Resolves result (λ p. datum_pairs p.1.now) (argument kinds.Map self.now word) }
        ensures same { IfOk result (λ p. map_datum (members_of (datum_pairs p.1.now)) ≡ datum p.0.now) }
        ensures hosted { IfOk result (λ p. IsHosted (datum p.0.now)) }
        ensures entries { IfOk result (λ p. IsHosted (map_datum (members_of (datum_pairs p.1.now)))) }
    {
        match self.objects.resolve(self.shown, Val(word)) {
            Err(_) => Err(INVALID_VALUE),
            Ok(Ref::Small(_)) => Err(OTHER_TYPE),
            Ok(Ref::Object(value)) => typed::whole_map_of(value),
        }
    }

    /// The address of an account's or a contract's word.
    #[tactic(auto, using(crate::proofs::Resolving::resolved_bad, crate::proofs::Resolving::no_small_address, crate::proofs::Resolving::resolved_some))]
    pub fn address(&self, word: u64) -> Result<ScAddress, ValueErr>
        ensures means { Resolves result (λ a. a) (argument kinds.Address self.now word) }
    {
        match self.objects.resolve(self.shown, Val(word)) {
            Err(_) => Err(INVALID_VALUE),
            Ok(Ref::Small(_)) => Err(OTHER_TYPE),
            Ok(Ref::Object(value)) => typed::address_of(value),
        }
    }

    /// The number and the account of a muxed account's word.
    #[tactic(auto, using(crate::proofs::Resolving::resolved_bad, crate::proofs::Resolving::no_small_muxed, crate::proofs::Resolving::resolved_some))]
    pub fn muxed_address(&self, word: u64) -> Result<(u64, AccountId), ValueErr>
        ensures means { Resolves result muxed (argument kinds.MuxedAddress self.now word) }
        ensures account { IfOk result (λ p. IsMade (address_datum (ScAddress.Account p.1))) }
    {
        match self.objects.resolve(self.shown, Val(word)) {
            Err(_) => Err(INVALID_VALUE),
            Ok(Ref::Small(_)) => Err(OTHER_TYPE),
            Ok(Ref::Object(value)) => typed::muxed_of(value),
        }
    }
}
