//! Laws of change logs.

ghost use Rattle.change_log.specs.Laws.{BackLaw, EachKeyLaw, GroupsLaw, KeysLaw, ListBackLaw, ReadLaw, WrittenLaw};

/// What a log changed is undone by the same log backwards, and what is undone so is done again by the log forwards.
pub fn logs_play_back()
    ensures lists { ListBackLaw }
    ensures logs { BackLaw }
{}

/// The change groups of two ledgers' maps, played on the first, give the second.
pub fn groups_lead()
    ensures { GroupsLaw }
{}

/// The groups of two maps are found key by key.
pub fn groups_by_key()
    ensures keys { KeysLaw }
    ensures each { EachKeyLaw }
{}

/// A list of changes is read as the groups whose changes it has.
pub fn groups_are_read()
    ensures read { ReadLaw }
    ensures written { WrittenLaw }
{}
