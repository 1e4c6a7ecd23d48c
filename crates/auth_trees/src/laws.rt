//! Laws of demands and of snapshots.

ghost use Rattle.std.specs.Prelude.{◌≡◌, ◌≤◌, ℕ, List, Bool, true, Option, Some, length};
ghost use Rattle.std.specs.List.{slice_get};
ghost use Rattle.value_types.specs.declared.address.ScAddress.{ScAddress};
ghost use Rattle.invoke_types.specs.declared.function.Function.{Function};
ghost use Rattle.auth_types.specs.declared.auth_entry.AuthEntry.{AuthEntry};
ghost use Rattle.auth_spec.specs.declared.demand.Demand.TheVariants.{Matched};
ghost use Rattle.auth_spec.specs.declared.demand.Demand.{Demand};
ghost use Rattle.auth_spec.specs.declared.point.Point.{Point};
ghost use Rattle.auth_spec.specs.Demands.{Marked, authorises, demand, after_demand, restored, IsLater};
ghost use Rattle.auth_spec.specs.Authorities.{Authorised, IsDemanded, demands_of, point_of, noted_back, undone_to, IsLaterState};

/// An entry that meets a demand is there, and is one of the demanded address.
pub fn matched_is_of_address()
    ensures { (s : Marked) (path : List ℕ) (caller : Option ScAddress) (address : ScAddress) (function : Function) (index : ℕ)
        (first : Bool)
        → demand s path caller address function ≡ Matched index first
        → (entry : AuthEntry) × (slice_get s.entries index ≡ Some entry) × (authorises s.source address entry ≡ true) }
{}

/// A restore to a snapshot gives the state that the marks had at the snapshot.
pub fn restore_goes_back()
    ensures { (start later : Marked) → IsLater start later → restored (length start.pairs) later ≡ start }
{}

/// A state is later than those before it, through demands and through restores to snapshots that are not older.
pub fn later_is_later()
    ensures itself { (s : Marked) → IsLater s s }
    ensures again { (s t u : Marked) → IsLater s t → IsLater t u → IsLater s u }
    ensures demand { (s : Marked) (path : List ℕ) (caller : Option ScAddress) (address : ScAddress) (function : Function)
        → IsLater s (after_demand s path caller address function) }
    ensures restore { (s t : Marked) (count : ℕ) → IsLater s t → length s.pairs ≤ count → IsLater s (restored count t) }
{}

/// What an authority of any kind answers: an entry that meets a demand is there, and is one of the demanded address.
pub fn matched_entry_is_there()
    ensures { (path : List ℕ) (caller : Option ScAddress) (address : ScAddress) (function : Function) (index : ℕ) (first : Bool)
        (s t : Authorised) → IsDemanded path caller address function (Matched index first) s t
        → (entry : AuthEntry) × (slice_get s.entries index ≡ Some entry) × (authorises s.source address entry ≡ true) }
{}

/// A restore of an authority to a snapshot gives the state that it had at the snapshot, but for what was noted.
pub fn authority_goes_back()
    ensures { (start later : Authorised) → IsLaterState start later → undone_to (point_of start) later
        ≡ record start { noted = noted_back (demands_of start.noted) later.noted } }
{}

/// A state of an authority is later than those before it, through demands and through restores to snapshots that are not older.
pub fn authority_is_later()
    ensures itself { (s : Authorised) → IsLaterState s s }
    ensures again { (s t u : Authorised) → IsLaterState s t → IsLaterState t u → IsLaterState s u }
    ensures demand { (path : List ℕ) (caller : Option ScAddress) (address : ScAddress) (function : Function) (answered : Demand)
        (s t : Authorised) → IsDemanded path caller address function answered s t → IsLaterState s t }
    ensures restore { (s t : Authorised) (to : Point) → IsLaterState s t → length s.pairs ≤ to.pairs
        → IsLaterState s (undone_to to t) }
{}
