//! The lives of entries before they are raised. They say what a map had, without a copy of an entry.

ghost use Rattle.std.specs.Prelude.{◌≡◌, ◌++◌, IfOk, OnOk};
ghost use Rattle.ledger_types.specs.Key.{key_format};
ghost use Rattle.ledger_spec.specs.LedgerMap.{find as find_in};
ghost use Rattle.set_steps.specs.Lives.{life_of};

use entry_lookup::{Found, Ground};
use ledger_types::LedgerKey;
use xdr_core::NoMemory;

/// The life that the entry at a key had.
#[derive(Drop)]
pub struct Life {
    pub key: LedgerKey,
    pub live_until: u32,
}

/// Returns the life of an entry that was found at a key.
fn life_of_found(key: &LedgerKey, found: Found<'_>) -> Result<Life, NoMemory>
    ensures { IfOk result (λ life. life ≡ record { key = key.now; live_until = found.entry.live_until }) }
{
    let live_until = found.live_until;
    let key = key.clone()?;
    Ok(Life { key, live_until })
}

/// Keeps the life of the entry at a key, if there is one.
pub(crate) fn keep_life<G: Ground>(
    ground: &G,
    lives: &mut Vec<Life>,
    key: &LedgerKey,
) -> Result<(), NoMemory>
    requires { key_format.fits key.now }
    ensures { OnOk result (lives.new.items ≡ lives.old.items ++ life_of key.now (find_in (G.map ground.now) key.now)) }
{
    match ground.find(key) {
        None => Ok(()),
        Some(found) => {
            let life = life_of_found(key, found)?;
            lives.push(life)?;
            Ok(())
        }
    }
}
