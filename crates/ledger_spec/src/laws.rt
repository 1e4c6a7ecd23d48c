//! Laws of what an access finds in a ledger's map, before and after a change.

ghost use Rattle.std.specs.Prelude.{◌≡◌, ◌↔◌, ◌<◌, ◌≤◌, ◌^◌, ℕ, Bool, false, ◌+◌, min, max, Some, None, Ok, Err, IsSomeAnd};
ghost use Rattle.std.specs.Prelude.{IsTrue};
ghost use Rattle.std.specs.Option.{option_map};
ghost use Rattle.std.specs.FinMap.{insert, remove};
ghost use Rattle.ledger_types.specs.Entry.{key_of};
ghost use Rattle.ledger_types.specs.declared.key.LedgerKey.{LedgerKey};
ghost use Rattle.ledger_types.specs.declared.entry.LedgerEntry.{LedgerEntry};
ghost use Rattle.ledger_types.specs.declared.header.Settings.{Settings};
ghost use Rattle.ledger_spec.specs.declared.Kept.{Kept};
ghost use Rattle.ledger_spec.specs.LedgerMap.{LedgerMap, find, key_bytes, IsLedgerMap};
ghost use Rattle.ledger_spec.specs.LedgerFile.{are_settings};
ghost use Rattle.ledger_spec.specs.Seen.{seen, live, absent, archived};
ghost use Rattle.ledger_spec.specs.Changes.{put, delete, make, extend, raise, first_life, furthest, Unextended};
ghost use Rattle.ledger_spec.specs.ChangeLaws.{IsTemporary, last_of, living_until, OthersStay, IsPut, IsMade, CanGet, IsReason};

/// What an access finds in ledger n depends on the entry's live-until ledger; a key that is neither live nor archived is
/// absent.
pub fn seen_by_life()
    // an entry is live up to and including its live-until ledger
    ensures lives { (n : ℕ) (map : LedgerMap) (key : LedgerKey) (kept : Kept)
        → (seen n map key ≡ live kept) ↔ ((find map key ≡ Some kept) × (n ≤ kept.live_until)) }
    // after that ledger it is archived, unless it is temporary
    ensures is_archived { (n : ℕ) (map : LedgerMap) (key : LedgerKey)
        → (seen n map key ≡ archived) ↔ IsSomeAnd (find map key)
        (λ kept. (kept.live_until < n) × ¬ (IsTemporary kept.entry.data)) }
{}

/// An entry that is put in ledger n is live there, with n as its last modified ledger.
pub fn put_is_seen()
    // a live entry keeps its live-until ledger
    ensures keeps_life { (settings : Settings) (n : ℕ) (map : LedgerMap) (entry : LedgerEntry) (kept : Kept)
        → seen n map (key_of entry) ≡ live kept → IsPut n entry kept.live_until (put settings n map entry) }
    // temporary data that was absent gets the minimum temporary TTL, which counts ledger n
    ensures temporary_begins { (settings : Settings) (n : ℕ) (map : LedgerMap) (entry : LedgerEntry)
        → IsTrue (are_settings settings) → seen n map (key_of entry) ≡ absent → IsTemporary entry.data
        → IsPut n entry (last_of n settings.min_temporary_ttl) (put settings n map entry) }
    // other data and code that was absent gets the minimum persistent TTL
    ensures persistent_begins { (settings : Settings) (n : ℕ) (map : LedgerMap) (entry : LedgerEntry)
        → IsTrue (are_settings settings) → seen n map (key_of entry) ≡ absent → ¬ (IsTemporary entry.data)
        → IsPut n entry (last_of n settings.min_persistent_ttl) (put settings n map entry) }
    // a put fails exactly if the key is archived
    ensures refused { (settings : Settings) (n : ℕ) (map : LedgerMap) (entry : LedgerEntry)
        → (put settings n map entry ≡ None) ↔ (seen n map (key_of entry) ≡ archived) }
    // the entries at other keys stay
    ensures others { (settings : Settings) (n : ℕ) (map after : LedgerMap) (entry : LedgerEntry)
        → put settings n map entry ≡ Some after → OthersStay (key_of entry) map after }
{}

/// A key that is deleted in ledger n is absent afterwards.
pub fn delete_is_absent()
    // the record of a live entry is removed
    ensures taken { (n : ℕ) (map : LedgerMap) (key : LedgerKey) (kept : Kept)
        → seen n map key ≡ live kept → IsSomeAnd (delete n map key) (λ after. find after key ≡ None) }
    // if the key was absent, the map stays
    ensures stays { (n : ℕ) (map : LedgerMap) (key : LedgerKey) → seen n map key ≡ absent → delete n map key ≡ Some map }
    // a delete fails exactly if the key is archived
    ensures refused { (n : ℕ) (map : LedgerMap) (key : LedgerKey) → (delete n map key ≡ None) ↔ (seen n map key ≡ archived) }
    // the entries at other keys stay
    ensures others { (n : ℕ) (map after : LedgerMap) (key : LedgerKey)
        → delete n map key ≡ Some after → OthersStay key map after }
{}

/// An entry that is made at an absent key is there afterwards, with the given live-until ledger.
pub fn make_is_seen()
    // an absent key gets the entry, with n as its last modified ledger
    ensures made { (n : ℕ) (map : LedgerMap) (entry : LedgerEntry) (live_until : ℕ)
        → seen n map (key_of entry) ≡ absent → IsMade n entry live_until (make n map entry live_until) }
    // the entry is live in ledger n, unless the given live-until ledger is below n
    ensures lives { (n : ℕ) (map after : LedgerMap) (made : Bool) (entry : LedgerEntry) (live_until : ℕ) → n ≤ live_until
        → seen n map (key_of entry) ≡ absent → make n map entry live_until ≡ Some (made, after)
        → seen n after (key_of entry) ≡ live
        (record { entry = record entry { last_modified_ledger_seq = n }; live_until = live_until }) }
    // a live entry stays as it is
    ensures stays { (n : ℕ) (map : LedgerMap) (entry : LedgerEntry) (live_until : ℕ) (kept : Kept)
        → seen n map (key_of entry) ≡ live kept → make n map entry live_until ≡ Some (false, map) }
    // a make fails exactly if the key is archived
    ensures refused { (n : ℕ) (map : LedgerMap) (entry : LedgerEntry) (live_until : ℕ)
        → (make n map entry live_until ≡ None) ↔ (seen n map (key_of entry) ≡ archived) }
    // the entries at other keys stay
    ensures others { (n : ℕ) (map after : LedgerMap) (made : Bool) (entry : LedgerEntry) (live_until : ℕ)
        → make n map entry live_until ≡ Some (made, after) → OthersStay (key_of entry) map after }
{}

/// An entry that is taken out of a map can be put back.
pub fn taken_goes_back()
    ensures { (map : LedgerMap) (key : LedgerKey) (kept : Kept)
        → find map key ≡ Some kept → insert (remove map (key_bytes key)) (key_bytes key) kept ≡ map }
{}

/// A ledger's map stays a ledger's map when it changes.
pub fn changes_keep_ledger_maps()
    ensures put { (settings : Settings) (n : ℕ) (map after : LedgerMap) (entry : LedgerEntry) → CanGet n map entry
        → first_life settings n entry < 2 ^ 32 → put settings n map entry ≡ Some after → IsLedgerMap after }
    ensures delete { (n : ℕ) (map after : LedgerMap) (key : LedgerKey)
        → IsLedgerMap map → delete n map key ≡ Some after → IsLedgerMap after }
    ensures make { (n : ℕ) (map after : LedgerMap) (made : Bool) (entry : LedgerEntry) (live_until : ℕ) → CanGet n map entry
        → live_until < 2 ^ 32 → make n map entry live_until ≡ Some (made, after) → IsLedgerMap after }
    ensures extend { (settings : Settings) (n : ℕ) (map after : LedgerMap) (key : LedgerKey) (threshold extend_to : ℕ)
        → IsLedgerMap map
        → furthest settings n < 2 ^ 32 → extend settings n map key threshold extend_to ≡ Ok after → IsLedgerMap after }
    ensures raise { (map : LedgerMap) (key : LedgerKey) (live_until : ℕ)
        → IsLedgerMap map → live_until < 2 ^ 32 → IsLedgerMap (raise map key live_until) }
{}

/// An extension never shortens a life. It lengthens the life of a live entry that has few ledgers left.
pub fn extend_is_longer()
    // if at most `threshold` ledgers were left, the entry lives until the later of two ledgers: its own live-until ledger,
    // and the requested one, capped at the furthest
    ensures little_left { (settings : Settings) (n : ℕ) (map after : LedgerMap) (key : LedgerKey) (threshold extend_to : ℕ)
        (kept : Kept)
        → extend settings n map key threshold extend_to ≡ Ok after → seen n map key ≡ live kept → kept.live_until ≤ n + threshold
        → find after key ≡ Some (living_until
        (max kept.live_until (min (n + extend_to) (last_of n settings.max_entry_ttl))) kept) }
    // if more ledgers were left, the entry stays as it is
    ensures much_left { (settings : Settings) (n : ℕ) (map after : LedgerMap) (key : LedgerKey) (threshold extend_to : ℕ)
        (kept : Kept)
        → extend settings n map key threshold extend_to ≡ Ok after → seen n map key ≡ live kept → n + threshold < kept.live_until
        → find after key ≡ Some kept }
    // in both cases the entry itself stays, and its live-until ledger does not fall; it is beyond the furthest only if it
    // was before
    ensures bounded { (settings : Settings) (n : ℕ) (map after : LedgerMap) (key : LedgerKey) (threshold extend_to : ℕ)
        (kept : Kept)
        → extend settings n map key threshold extend_to ≡ Ok after → seen n map key ≡ live kept
        → IsSomeAnd (find after key) (λ later. (later.entry ≡ kept.entry) × (kept.live_until ≤ later.live_until)
        × (later.live_until ≤ max kept.live_until (last_of n settings.max_entry_ttl))) }
    // an extension fails for a reason exactly if that reason holds
    ensures refused { (why : Unextended) (settings : Settings) (n : ℕ) (map : LedgerMap) (key : LedgerKey)
        (threshold extend_to : ℕ)
        → (extend settings n map key threshold extend_to ≡ Err why) ↔ IsReason why settings n map key threshold extend_to }
    // the entries at other keys stay
    ensures others { (settings : Settings) (n : ℕ) (map after : LedgerMap) (key : LedgerKey) (threshold extend_to : ℕ)
        → extend settings n map key threshold extend_to ≡ Ok after → OthersStay key map after }
{}

/// A raised entry lives until the later of two ledgers: its own live-until ledger and the given one.
pub fn raise_is_longest()
    // the entry itself stays, and an absent key stays absent
    ensures later { (map : LedgerMap) (key : LedgerKey) (live_until : ℕ)
        → find (raise map key live_until) key ≡ option_map (λ (kept : Kept). living_until (max kept.live_until live_until) kept)
        (find map key) }
    // the entries at other keys stay
    ensures others { (map : LedgerMap) (key : LedgerKey) (live_until : ℕ) → OthersStay key map (raise map key live_until) }
{}
