// Laws of the keys of dicts.
ghost use Rattle.key_laws.specs.Keys.{ProgramsHaveKeys};

/// In the annotation of a program that has types the element of the keys of each dict can be that of keys. That does not follow from what the annotation is closed
/// under, but from how it grew: each step joins elements of keys, and what can be no key is a conflict there.
pub fn programs_have_keys()
    ensures { ProgramsHaveKeys }
{}
