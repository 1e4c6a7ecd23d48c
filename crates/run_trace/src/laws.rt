//! Laws of the accesses that a trace shows.

ghost use Rattle.run_trace.specs.Shown.{SeenLaw};
ghost use Rattle.run_trace.specs.Lines.{ToldLaw, ShownLaw};

/// A trace shows what it was told, and so the accesses that it has seen, within the limit.
pub fn seen_accesses_are_shown()
    ensures told { ToldLaw }
    ensures seen { SeenLaw }
    ensures shown { ShownLaw }
{}
