//! The measures of collections.

ghost use Rattle.std.specs.Prelude.{◌≡◌, ◌-◌, ◌^◌, min};
ghost use Rattle.value_types.specs.Datum.{items_of, members_of};
ghost use Rattle.value_types.specs.Views.{datums, datum_pairs};
ghost use Rattle.value_types.specs.Depth.{items_depth, members_depth};
ghost use Rattle.value_types.specs.XdrSize.{items_xdr_size, members_xdr_size};

use crate::nesting::depth;
use crate::sizes::xdr_size;
use crate::value::{Entry, ScVal};

/// What a vec or a map keeps beside its members. A larger measure than `u64::MAX` is `u64::MAX`.
#[derive(Clone, Copy)]
pub(crate) struct Measures {
    /// The size of all members in XDR bytes, without their count.
    pub(crate) xdr_size: u64,
    /// The depth of the deepest member, or 0.
    pub(crate) depth: u64,
}

/// Measures the items of a vec, in O(1) each.
pub(crate) fn measure_items(items: &[ScVal]) -> Measures
    ensures xdr_size { result.xdr_size ≡ min (items_xdr_size (items_of (datums items.now))) (2 ^ 64 - 1) }
    ensures depth { result.depth ≡ min (items_depth (items_of (datums items.now))) (2 ^ 64 - 1) }
{
    let mut size = 0u64;
    let mut deepest = 0u64;
    for item in items {
        size = size.saturating_add(xdr_size(item));
        deepest = deepest.max(depth(item));
    }
    Measures {
        xdr_size: size,
        depth: deepest,
    }
}

/// Measures the keys and the values of a map, in O(1) each.
pub(crate) fn measure_entries(entries: &[Entry]) -> Measures
    ensures xdr_size { result.xdr_size ≡ min (members_xdr_size (members_of (datum_pairs entries.now))) (2 ^ 64 - 1) }
    ensures depth { result.depth ≡ min (members_depth (members_of (datum_pairs entries.now))) (2 ^ 64 - 1) }
{
    let mut size = 0u64;
    let mut deepest = 0u64;
    for entry in entries {
        size = size
            .saturating_add(xdr_size(&entry.key))
            .saturating_add(xdr_size(&entry.val));
        deepest = deepest.max(depth(&entry.key)).max(depth(&entry.val));
    }
    Measures {
        xdr_size: size,
        depth: deepest,
    }
}
