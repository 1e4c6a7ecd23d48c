//! The groups of a list of changes.

ghost use Rattle.std.specs.Prelude.{◌≡◌};
ghost use Rattle.std.specs.Option.{option_map};
ghost use Rattle.ledger_types.specs.Entry.{entry_format};
ghost use Rattle.entry_lookup.specs.Found.{kept_of};
ghost use Rattle.change_log.specs.Fits.{IsGroup};
ghost use Rattle.change_log.specs.Groups.{before_of, after_of, entry_of};
ghost use Rattle.change_log.specs.Play.{replaced_by, put_by};
ghost use Rattle.change_log.specs.Views.{group_of};

use entry_lookup::Found;
use ledger_types::LedgerEntry;

/// How a list of changes says that an entry changed.
#[derive(Clone, Copy)]
pub enum Group<'a> {
    /// There was no entry.
    Made(Found<'a>),
    /// There is no entry any more.
    Gone(Found<'a>),
    /// The entry or its live-until ledger changed.
    Altered { old: Found<'a>, new: Found<'a> },
}

impl<'a> Group<'a> {
    /// The entry before the change.
    pub fn before(self) -> Option<Found<'a>>
        ensures { option_map kept_of result ≡ before_of (group_of self.entry) }
    {
        match self {
            Group::Made(_) => None,
            Group::Gone(old) => Some(old),
            Group::Altered { old, .. } => Some(old),
        }
    }

    /// The entry after the change.
    pub fn after(self) -> Option<Found<'a>>
        ensures { option_map kept_of result ≡ after_of (group_of self.entry) }
    {
        match self {
            Group::Made(new) => Some(new),
            Group::Gone(_) => None,
            Group::Altered { new, .. } => Some(new),
        }
    }

    /// An entry at the group's key.
    pub fn entry(self) -> &'a LedgerEntry
        ensures entry { result.now ≡ entry_of (group_of self.entry) }
        ensures fits { IsGroup (group_of self.entry) → entry_format.fits result.now }
    {
        match self {
            Group::Made(new) => new.entry,
            Group::Gone(old) => old.entry,
            Group::Altered { old, .. } => old.entry,
        }
    }

    /// What the group replaces: forwards the entry before the change, backwards the one after it.
    pub fn replaced(self, back: bool) -> Option<Found<'a>>
        ensures { option_map kept_of result ≡ replaced_by back (group_of self.entry) }
    {
        if back { self.after() } else { self.before() }
    }

    /// What stands there then.
    pub fn put(self, back: bool) -> Option<Found<'a>>
        ensures { option_map kept_of result ≡ put_by back (group_of self.entry) }
    {
        if back { self.before() } else { self.after() }
    }
}
