// Memory that represents heaps.
ghost use Rattle.std.specs.Prelude.{ℤ};
ghost use Rattle.lower_laws.specs.Copied.{Before};
ghost use Rattle.lower_laws.specs.Done.{Any};
ghost use Rattle.object_laws.specs.Bridged.{PlainIsDone};
ghost use Rattle.object_laws.specs.Rows.{AnInstance, OneEntry, TwoWords};

/// Two blocks represent a heap with one list of two words.
pub fn two_words_are_a_list()
    ensures { TwoWords }
{}

/// One block represents a heap with one instance, of a class that has a base: an attribute that is set, and one that is not.
pub fn an_instance_is_a_block()
    ensures { AnInstance }
{}

/// Three blocks represent a heap with one dict of one entry, which its index finds.
pub fn an_entry_is_in_a_dict()
    ensures { OneEntry }
{}

/// What is done with words, truth values, bytes, strings and `None`, whatever memory holds, is done over the relation of
/// objects.
pub fn plain_operations_are_done()
    ensures any { PlainIsDone Any }
    ensures before { (step : ℤ) → PlainIsDone (Before step) }
{}
