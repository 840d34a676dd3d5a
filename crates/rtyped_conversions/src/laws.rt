// Laws of the programs that are made of flow graphs.
ghost use Rattle.rtyped_conversions.specs.Families.{ClassesAreFamilies};
ghost use Rattle.rtyped_conversions.specs.Having.{ConversionsHaveTheirs};

/// What conversions and comparisons ask for stands at its numbers, with what that asks for itself, where the helpers that
/// make strings of bytes and compare strings do.
pub fn conversions_have_theirs()
    ensures { ConversionsHaveTheirs }
{}

/// What is of a class is of each that is above it, and both have one topmost struct, where classes are laid out.
pub fn classes_are_families()
    ensures { ClassesAreFamilies }
{}
