//! Answers of one type.

ghost use Rattle.std.specs.Prelude.{◌≡◌, ◌<◌, ◌^◌, true, length, IfOk, IfErr};
ghost use Rattle.value_types.specs.Views.{datum, datums, datum_pairs};
ghost use Rattle.value_types.specs.Datum.{items_of, members_of, boolean, void, u32 as u32_datum, bytes as bytes_datum};
ghost use Rattle.value_types.specs.Datum.{string as string_datum, symbol as symbol_datum, vec as vec_datum, map as map_datum};
ghost use Rattle.host_spec.specs.Answers.{value as given_value, object as given_object};
ghost use Rattle.host_spec.specs.Hosted.{IsMade, is_symbol};
ghost use Rattle.host_spec.specs.Words.{object_tag};
ghost use Rattle.host_spec.specs.declared.error.ValueErr.TheVariants as errs;
ghost use Rattle.value_xdr.specs.Bytes.{IsBounded};
ghost use Rattle.tagged_val.specs.Scalars.{is_scalar};
ghost use Rattle.host_frame.specs.Answered.{answer_of};
ghost use Rattle.host_frame.specs.Made.{IsAnswerMade, AreMade};

use crate::answer::Answer;
use host_spec::ValueErr;
use value_types::{Blob, Entries, Entry, ScVal, ScVals};
use value_xdr::hold_bytes;

impl Answer {
    /// Answers void.
    #[tactic(auto, using(crate::proofs::Making::scalar_made))]
    pub fn void() -> Answer
        ensures value { answer_of result ≡ given_value void }
        ensures made { IsAnswerMade (answer_of result) }
    {
        Answer::Value(ScVal::Void)
    }

    /// Answers a boolean.
    #[tactic(auto, using(crate::proofs::Making::scalar_made), unfolding(xdr_spec::specs::Format::boolean))]
    pub fn boolean(flag: bool) -> Answer
        ensures value { answer_of result ≡ given_value (boolean flag) }
        ensures made { IsAnswerMade (answer_of result) }
    {
        Answer::Value(ScVal::Bool(flag))
    }

    /// Answers a U32.
    #[tactic(auto, using(crate::proofs::Making::scalar_made), unfolding(xdr_spec::specs::Format::number32))]
    pub fn number32(number: u32) -> Answer
        ensures value { answer_of result ≡ given_value (u32_datum number) }
        ensures made { IsAnswerMade (answer_of result) }
    {
        Answer::Value(ScVal::U32(number))
    }

    /// Answers a number as an object, also where its word could hold it.
    #[tactic(auto, using(crate::proofs::Making::scalar_object))]
    pub fn object(number: ScVal) -> Answer
        requires bounded { IsBounded (datum number) }
        requires scalar { is_scalar (datum number) ≡ true }
        requires tag { 0 < object_tag (datum number) }
        ensures value { answer_of result ≡ given_object (datum number) }
        ensures made { IsAnswerMade (answer_of result) }
    {
        Answer::Object(number)
    }

    /// Answers these bytes as a Bytes.
    pub fn bytes(content: Vec<u8>) -> Answer
        requires { length content.items < 2 ^ 32 }
        ensures value { answer_of result ≡ given_value (bytes_datum content.items) }
        ensures made { IsAnswerMade (answer_of result) }
    {
        hold_bytes(&content);
        Answer::Value(ScVal::Bytes(Blob::from_vec(content)))
    }

    /// Answers these bytes as a String.
    pub fn string(content: Vec<u8>) -> Answer
        requires { length content.items < 2 ^ 32 }
        ensures value { answer_of result ≡ given_value (string_datum content.items) }
        ensures made { IsAnswerMade (answer_of result) }
    {
        hold_bytes(&content);
        Answer::Value(ScVal::String(Blob::from_vec(content)))
    }

    /// Answers this text as a Symbol.
    #[tactic(auto, using(crate::proofs::Making::symbol_made))]
    pub fn symbol(text: Vec<u8>) -> Answer
        requires { is_symbol text.items ≡ true }
        ensures value { answer_of result ≡ given_value (symbol_datum text.items) }
        ensures made { IsAnswerMade (answer_of result) }
    {
        Answer::Value(ScVal::Symbol(Blob::from_vec(text)))
    }

    /// Answers the vec of these items. Its only error is memory.
    pub fn vec(items: Vec<ScVal>) -> Result<Answer, ValueErr>
        requires few { length items.items < 2 ^ 32 }
        requires made { AreMade (datums items.items) }
        ensures value { IfOk result (λ a. answer_of a ≡ given_value (vec_datum (items_of (datums items.items)))) }
        ensures made { IfOk result (λ a. IsAnswerMade (answer_of a)) }
        ensures memory { IfErr result (λ e. e ≡ errs.NoMemory) }
    {
        let items = ScVals::from_vec(items)?;
        Ok(Answer::Value(ScVal::Vec(Some(items))))
    }

    /// Answers the map of these entries, whose keys have to be in order. Its only error is memory.
    pub fn map(entries: Vec<Entry>) -> Result<Answer, ValueErr>
        requires { IsMade (map_datum (members_of (datum_pairs entries.items))) }
        ensures value { IfOk result (λ a. answer_of a ≡ given_value (map_datum (members_of (datum_pairs entries.items)))) }
        ensures made { IfOk result (λ a. IsAnswerMade (answer_of a)) }
        ensures memory { IfErr result (λ e. e ≡ errs.NoMemory) }
    {
        let entries = Entries::from_vec(entries)?;
        Ok(Answer::Value(ScVal::Map(Some(entries))))
    }

    /// Answers a value that contracts may hold.
    pub fn value(value: ScVal) -> Answer
        requires { IsMade (datum value) }
        ensures value { answer_of result ≡ given_value (datum value) }
        ensures made { IsAnswerMade (answer_of result) }
    {
        Answer::Value(value)
    }
}
