// Laws of operations on dicts whose operands are converted, as they are lowered.
ghost use Rattle.rpy_tree.specs.declared.syntax.CmpOp.TheVariants as compared;
ghost use Rattle.object_laws.specs.Done.{Any};
ghost use Rattle.dict_find_laws.specs.Lookups.{FirstIsThere, SecondIsThere};
ghost use Rattle.dict_change_laws.specs.Changed.{CanStore, KeysAreThere};
ghost use Rattle.dict_conversion_laws.specs.Changed.{EntriesAreDeleted, ValuesAreStored};
ghost use Rattle.dict_conversion_laws.specs.Lookups.{KeysAreLookedFor, ValuesAreGot, ValuesAreGotAs, ValuesAreGotOrNone, ValuesAreRead, ValuesAreReadAs};
ghost use Rattle.dict_conversion_laws.specs.Operands.{KeyedOperandsAreConverted, OperandsAreConverted};

/// An operation that is done of an operand of an element is done of an operand that goes to that element, where the
/// conversion is written before: of all values, and of those of which the laws of dicts speak.
pub fn operands_are_converted()
    ensures any { OperandsAreConverted Any }
    ensures first { KeyedOperandsAreConverted FirstIsThere }
    ensures second { KeyedOperandsAreConverted SecondIsThere }
    ensures keys { KeyedOperandsAreConverted KeysAreThere }
    ensures stores { KeyedOperandsAreConverted CanStore }
{}

/// Whether a key that is converted has an entry in a dict, and whether it has none.
pub fn keys_are_looked_for()
    ensures within { KeysAreLookedFor compared.Within }
    ensures not_within { KeysAreLookedFor compared.NotWithin }
{}

/// The value of a key that is converted, as it is or converted to the place of the result; a key that is missing raises,
/// and `None` in the place of the dict fails, or raises.
pub fn values_are_read()
    ensures itself { ValuesAreRead }
    ensures converted { ValuesAreReadAs }
{}

/// The value of a key that is converted, or else another one, which is converted to the place of the result, as the value
/// may be, or `None`.
pub fn values_are_got()
    ensures other { ValuesAreGot }
    ensures converted { ValuesAreGotAs }
    ensures none { ValuesAreGotOrNone }
{}

/// A value is stored, where the key and the value are converted: a key that is there keeps its place, and a new one is
/// paid and goes last. The result is the value before it was converted.
pub fn values_are_stored()
    ensures { ValuesAreStored }
{}

/// The entry of a key that is converted is taken out; a key that is missing raises, and `None` in the place of the dict
/// fails, or raises.
pub fn entries_are_deleted()
    ensures { EntriesAreDeleted }
{}
