//! The values of options.

ghost use Rattle.std.specs.Prelude.{◌≡◌, ◌≤◌, IfSome, map, option_map};
ghost use Rattle.std.specs.List.{list_any};
ghost use Rattle.std.specs.Str.{bytes_eq};
ghost use Rattle.command_words.specs.Values.{are_names, begins_with, kind_in, number_in, with_name};

use crate::ShowKind;
use edge_io::Word;

/// The number of one or more decimal digits, if it is in this range.
pub fn number_in(text: &str, least: u64, most: u64) -> Option<u64>
    ensures number { result ≡ number_in least most text.now }
    ensures range { IfSome result (λ n. (least ≤ n) × (n ≤ most)) }
{
    // `parse` accepts a plus sign.
    if begins_with(text, b'+') {
        return None;
    }
    let number = text.parse::<u64>().ok()?;
    if least <= number && number <= most {
        Some(number)
    } else {
        None
    }
}

fn begins_with(text: &str, mark: u8) -> bool
    ensures { result ≡ begins_with mark text.now }
{
    text.as_bytes().first() == Some(&mark)
}

/// The kind of file that this word names.
pub fn kind_in(text: &str) -> Option<ShowKind>
    ensures { result ≡ kind_in text.now }
{
    match text {
        "set" => Some(ShowKind::Set),
        "envelope" => Some(ShowKind::Envelope),
        "ledger" => Some(ShowKind::Ledger),
        "value" => Some(ShowKind::Value),
        _ => None,
    }
}

/// Whether the names of a command's files are right: none is empty, and no two are equal.
pub fn are_names(names: &[&Word]) -> bool
    ensures { result ≡ are_names (map (λ n. n.now) names.now) }
{
    for (i, name) in names.iter().enumerate() {
        if name.as_str().is_empty() || has_name(&names[i + 1..], name) {
            return false;
        }
    }
    true
}

/// Whether the names of a command's files are right, if it may have one more file.
#[tactic(auto, using(crate::proofs::Names::more_names))]
pub fn are_names_with(more: Option<&Word>, names: &[&Word]) -> bool
    ensures { result ≡ are_names (with_name (option_map (λ n. n.now) more.entry) (map (λ n. n.now) names.now)) }
{
    let Some(name) = more else {
        return are_names(names);
    };
    if name.as_str().is_empty() {
        return false;
    }
    if has_name(names, name) {
        return false;
    }
    are_names(names)
}

fn has_name(names: &[&Word], name: &Word) -> bool
    ensures { result ≡ list_any (λ n. bytes_eq name.now n.now) names.now }
{
    names.iter().any(|other| name.as_str() == other.as_str())
}
