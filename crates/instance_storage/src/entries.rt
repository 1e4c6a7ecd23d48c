//! Entries of instance storage, and what they add to the size of an instance.

ghost use Rattle.std.specs.Prelude.{◌≡◌, ◌<◌, ◌≤◌, ◌+◌, ◌&&◌, nat_le, length, slice_set, MatchResult};
ghost use Rattle.std.specs.List.{insert, remove};
ghost use Rattle.value_types.specs.Datum.{members_of, map};
ghost use Rattle.value_types.specs.Depth.{depth_of};
ghost use Rattle.value_types.specs.Views.{datum, datum_pair, datum_pairs};
ghost use Rattle.xdr_core.specs.Sizes.{capped};
ghost use Rattle.host_spec.specs.Hosted.{IsHosted, IsMade};
ghost use Rattle.instance_storage.specs.Held.{members_size, pair_size};

use host_frame::measured;
use value_types::{Entry, depth};
use xdr_core::add_sizes;

/// The bytes of the XDR of an instance that does not count its entries.
pub(crate) const INSTANCE_BYTES: u64 = 48;

/// The bytes of the XDR of entries of this size with one more entry, or `u64::MAX` if there are more.
#[tactic(auto, using(crate::proofs::Measuring::grown_is), unfolding(host_spec::specs::Hosted::size_of))]
pub(crate) fn grown(size: u64, entry: &Entry) -> u64
    requires key { IsMade (datum entry.now.key) }
    requires val { IsMade (datum entry.now.val) }
    ensures { result ≡ capped (size + pair_size (datum_pair entry.now)) }
{
    add_sizes(size, add_sizes(measured(&entry.key), measured(&entry.val)))
}

/// The bytes of the XDR of the entry at an index.
#[tactic(auto, using(host_frame::proofs::Lemmas::pairs_length))]
pub(crate) fn size_at(entries: &[Entry], index: usize) -> u64
    requires hosted { IsHosted (map (members_of (datum_pairs entries.now))) }
    requires within { index < length (datum_pairs entries.now) }
    ensures { result + members_size (remove (datum_pairs entries.now) index) ≡ members_size (datum_pairs entries.now) }
{
    grown(0, &entries[index])
}

/// Whether an instance whose entries have this size is within the limits of values with this entry. The others are.
pub(crate) fn is_within_limits(size: u64, entry: &Entry) -> bool
    ensures { result ≡ nat_le size 16777168
        && (nat_le (depth_of (datum entry.now.key)) 99 && nat_le (depth_of (datum entry.now.val)) 99) }
{
    size <= 16_777_216 - INSTANCE_BYTES && depth(&entry.key) <= 99 && depth(&entry.val) <= 99
}

/// Puts an entry over the one at an index.
#[tactic(auto, using(crate::proofs::Editing::pairs_set, host_frame::proofs::Lemmas::pairs_length))]
pub(crate) fn overwrite(mut entries: Vec<Entry>, index: usize, entry: Entry) -> Vec<Entry>
    requires { index < length (datum_pairs entries.items) }
    ensures { datum_pairs result.items ≡ slice_set (datum_pairs entries.items) index (datum_pair entry) }
{
    entries[index] = entry;
    entries
}

/// Inserts an entry before the one at an index. `Err` has the entries as they were, since memory ran out.
#[tactic(auto, using(crate::proofs::Editing::pairs_insert, host_frame::proofs::Lemmas::pairs_length))]
pub(crate) fn insert_at(
    mut entries: Vec<Entry>,
    index: usize,
    entry: Entry,
) -> Result<Vec<Entry>, Vec<Entry>>
    requires { index ≤ length (datum_pairs entries.items) }
    ensures { MatchResult result (λ e. datum_pairs e.items ≡ insert (datum_pairs entries.items) index (datum_pair entry))
        (λ e. datum_pairs e.items ≡ datum_pairs entries.items) }
{
    match entries.insert(index, entry) {
        Ok(()) => Ok(entries),
        Err(_) => Err(entries),
    }
}

/// Removes the entry at an index.
#[tactic(auto, using(crate::proofs::Editing::pairs_remove, host_frame::proofs::Lemmas::pairs_length))]
pub(crate) fn remove_at(mut entries: Vec<Entry>, index: usize) -> Vec<Entry>
    requires { index < length (datum_pairs entries.items) }
    ensures { datum_pairs result.items ≡ remove (datum_pairs entries.items) index }
{
    let _entry = entries.remove(index);
    entries
}
