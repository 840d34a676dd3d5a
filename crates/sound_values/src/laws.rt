// Laws of the values of elements.
ghost use Rattle.sound_values.specs.Laws.{ValuesAreOfLarger, SortsMayGrow, NothingHasNoValue};

/// A value of an element is a value of each element that is above it.
#[tactic(auto, using(crate::proofs::Larger::values_are_of_larger))]
pub fn values_are_of_larger()
    ensures { ValuesAreOfLarger }
{}

/// A value of an element is one where there are more objects.
#[tactic(auto, using(crate::proofs::Growing::sorts_may_grow))]
pub fn sorts_may_grow()
    ensures { SortsMayGrow }
{}

/// What is not reached has no value.
#[tactic(auto, using(crate::proofs::Larger::nothing_has_no_value))]
pub fn nothing_has_no_value()
    ensures { NothingHasNoValue }
{}
