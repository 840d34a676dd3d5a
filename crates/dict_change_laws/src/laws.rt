// Laws of operations that change dicts, as they are lowered.
ghost use Rattle.dict_change_laws.specs.Called.{EntriesAreAdded, EntriesAreTakenOut, LengthsAreReckoned, RoomIsMade};
ghost use Rattle.dict_change_laws.specs.Changed.{EntriesAreDeleted, ValuesAreStored};

/// What the graphs that change dicts leave: the length of an index is reckoned, room is made for an entry, an entry
/// comes behind the last, and one is taken out; where there is an index, it is right then.
pub fn graphs_change_dicts()
    ensures length { LengthsAreReckoned }
    ensures room { RoomIsMade }
    ensures added { EntriesAreAdded }
    ensures taken { EntriesAreTakenOut }
{}

/// The value of a key is stored: a key that is there keeps its place, and a new one is paid and goes last. `None` in the
/// place of the dict fails, or raises.
pub fn values_are_stored()
    ensures { ValuesAreStored }
{}

/// The entry of a key is taken out; a key that is missing raises, and `None` in the place of the dict fails, or raises.
pub fn entries_are_deleted()
    ensures { EntriesAreDeleted }
{}
