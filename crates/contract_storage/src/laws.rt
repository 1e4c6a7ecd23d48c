//! Laws of a storage's snapshots.

ghost use Rattle.std.specs.Prelude.{◌≡◌};
ghost use Rattle.contract_storage.specs.Layered.{IsMixed};
ghost use Rattle.contract_storage.specs.Stored.{Stored, with_snapshot, with_touched};
ghost use Rattle.contract_storage.specs.Stored.{IsHalfReleased, IsLater, IsReleased, IsRestored};

/// A restore gives the state that the storage had before the snapshot was opened, but for the touched keys, which stay. So that
/// state is later than any before the snapshot.
pub fn restore_goes_back()
    ensures back { (start later back : Stored) → IsLater (with_snapshot start) later → IsRestored later back
        → back ≡ with_touched start later.touched }
    ensures later { (first start later back : Stored) → IsLater first start → IsLater (with_snapshot start) later
        → IsRestored later back → IsLater first back }
{}

/// A release gives a state that is later than that before the snapshot was opened.
pub fn release_goes_on()
    ensures { (start later done : Stored) → IsLater (with_snapshot start) later → IsReleased later done
        → (done ≡ record later { snapshots = start.snapshots }) × IsLater start done }
{}

/// A release that runs out of memory gives a state that is later than that before the snapshot was opened. Each key has there its
/// entry before the release, or that before the snapshot was opened.
pub fn half_release_goes_on()
    ensures { (start later done : Stored) → IsLater (with_snapshot start) later → IsHalfReleased later done
        → (done ≡ record later { map = done.map; snapshots = start.snapshots }) × IsLater start done
        × IsMixed later.map start.map done.map }
{}

/// A state is later than those before it, through any number of calls.
pub fn later_is_later()
    ensures itself { (s : Stored) → IsLater s s }
    ensures again { (s t u : Stored) → IsLater s t → IsLater t u → IsLater s u }
{}
