//! From clap's matches to a request.

ghost use Rattle.std.specs.Prelude.{◌≡◌, codes, option_and_then};
ghost use Rattle.clap.specs.Matches.{found_of};
ghost use Rattle.clap.specs.Walk.{first_of, rows_of};
ghost use Rattle.command_words.specs.Answers.{ReadsWords};
ghost use Rattle.command_words.specs.Values.{number64_in};
ghost use Rattle.why_words.specs.Words.{form_from, has_no_place, place_from, request_from, target_from};

use crate::{Form, Request, Target};
use clap::ArgMatches;
use command_words::{WordsErr, are_names, is_given, is_set, number_of, value_of};
use edge_io::Word;
use set_place::Place;
use std::alloc::Global;

/// The request of the options that clap found.
pub(crate) fn request_from(alloc: Global, found: &ArgMatches<'_>) -> Result<Request, WordsErr>
    ensures { ReadsWords result (request_from (rows_of (found_of found.now))) }
{
    let (target, file) = target_of(alloc, found)?;
    let ledger = value_of(alloc, found, "ledger")?;
    let verdicts = value_of(alloc, found, "verdicts")?;
    let close_time = number_of(found, "close-time", 0, u64::MAX)?;
    let form = form_of(found)?;
    if !are_names(&[&file, &ledger, &verdicts]) {
        return Err(WordsErr::Usage);
    }
    Ok(Request {
        target,
        file,
        base64: is_set(found, "base64"),
        ledger,
        verdicts,
        close_time,
        form,
    })
}

/// What is run, and the file of it: an envelope, or a place of a set.
fn target_of(alloc: Global, found: &ArgMatches<'_>) -> Result<(Target, Word), WordsErr>
    ensures { ReadsWords result (target_from (first_of (codes "tx") (rows_of (found_of found.now)))
        (first_of (codes "set") (rows_of (found_of found.now))) (rows_of (found_of found.now))) }
{
    if is_given(found, "tx") {
        if is_given(found, "set") || !has_no_place(found) {
            return Err(WordsErr::Usage);
        }
        let tx = value_of(alloc, found, "tx")?;
        return Ok((Target::Envelope, tx));
    }
    let set = value_of(alloc, found, "set")?;
    if is_set(found, "record") {
        return Err(WordsErr::Usage);
    }
    let place = place_of(found)?;
    Ok((Target::InSet(place), set))
}

/// Whether no option of a place is given.
fn has_no_place(found: &ArgMatches<'_>) -> bool
    ensures { result ≡ has_no_place (rows_of (found_of found.now)) }
{
    !is_given(found, "stage") && !is_given(found, "cluster") && !is_given(found, "place")
}

/// The place of the transaction in the set.
fn place_of(found: &ArgMatches<'_>) -> Result<Place, WordsErr>
    ensures { ReadsWords result (place_from (rows_of (found_of found.now))) }
{
    Ok(Place {
        stage: index_of(found, "stage")?,
        cluster: index_of(found, "cluster")?,
        transaction: index_of(found, "place")?,
    })
}

/// How the run is made and shown.
fn form_of(found: &ArgMatches<'_>) -> Result<Form, WordsErr>
    ensures { ReadsWords result (form_from (rows_of (found_of found.now))) }
{
    let lines = index_of(found, "lines")?;
    Ok(Form {
        recorded: is_set(found, "record"),
        json: is_set(found, "json"),
        lines,
    })
}

/// The value of an option, as a number.
fn index_of(found: &ArgMatches<'_>, id: &str) -> Result<usize, WordsErr>
    ensures { ReadsWords result (option_and_then number64_in (first_of id.now (rows_of (found_of found.now)))) }
{
    let number = number_of(found, id, 0, u64::MAX)?;
    Ok(number as usize)
}
