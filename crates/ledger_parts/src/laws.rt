//! The laws of runs on parts.

ghost use Rattle.ledger_parts.specs.Laws.{SeenLaw, CutLaw};
ghost use Rattle.ledger_parts.specs.Notes.{NotedFrameLaw, NotedSeenLaw, NotedCutLaw};

/// A cluster needs to see only its own entries and those that it reads, and entries may be taken out cluster after cluster.
pub fn parts_as_they_are_cut()
    ensures seen { SeenLaw }
    ensures cut { CutLaw }
{}

/// If what is noted of a transaction depends on its declared keys alone, clusters on parts note what they note in the stage in
/// order. The condition only concerns maps before and after that differ at no key but those declared read-write.
pub fn parts_note_the_same<K>()
    ensures frame { NotedFrameLaw K }
    ensures seen { NotedSeenLaw K }
    ensures cut { NotedCutLaw K }
{}
