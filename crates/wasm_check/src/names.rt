//! The rule that the names of exports differ (core section 3.4.10).

ghost use Rattle.std.specs.Prelude.{◌≡◌, IfOk};
ghost use Rattle.std.specs.Str.{bytes_eq};
ghost use Rattle.module_spec.specs.Outside.{exports_differ};

use std::alloc::{AllocError, Global};
use std::collections::BTreeSet;
use wasm_spec::Export;

/// Returns whether two names are equal.
pub fn same_name(left: &[u8], right: &[u8]) -> bool
    ensures { result ≡ bytes_eq left.now right.now }
{
    left == right
}

/// Returns whether no two exports have the same name, in O(n log n).
pub fn names_differ(alloc: Global, exports: &[Export]) -> Result<bool, AllocError>
    ensures { IfOk result (λ b. b ≡ exports_differ exports.now) }
{
    let mut seen = BTreeSet::new(alloc);
    for export in exports {
        if !seen.insert(export.name.as_slice())? {
            return Ok(false);
        }
    }
    Ok(true)
}
