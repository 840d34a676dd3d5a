// The laws of indices.
ghost use Rattle.dict_laws.specs.Index.{FindsKeys, EntersKeys, MakesIndices};
ghost use Rattle.dict_laws.specs.Keys.{FindsPlaces};
ghost use Rattle.dict_laws.specs.Masks.{MasksLead, IndicesAreLonger};

/// Looking in a right index ends, and finds the entry of a key where it has one.
pub fn keys_are_found()
    ensures { FindsKeys }
{}

/// Another entry comes into a right index, which stays right.
pub fn entries_are_entered()
    ensures { EntersKeys }
{}

/// An index that is made anew is right.
pub fn indices_are_made()
    ensures { MakesIndices }
{}

/// A hash leads to a place of an index, and each place to the next, by a mask.
pub fn masks_lead()
    ensures { MasksLead }
{}

/// An index is longer than the places for entries, and its length a power of two.
pub fn indices_are_longer()
    ensures { IndicesAreLonger }
{}

/// Looking finds the place of a key, where no two keys are equal.
pub fn places_are_found<K>()
    ensures { FindsPlaces K }
{}
