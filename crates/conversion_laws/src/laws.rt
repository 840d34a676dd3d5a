// Laws of conversions as they are lowered.
ghost use Rattle.rpy_tree.specs.declared.syntax.CmpOp.TheVariants as compared;
ghost use Rattle.conversion_laws.specs.Compared.{BytesAreOrdered, ValuesAreCompared};
ghost use Rattle.conversion_laws.specs.Constants.{ConstantsAreGiven, FlagsAreGiven, NoneIsGiven, StringsAreGiven, WordsAreGiven};
ghost use Rattle.conversion_laws.specs.Conversions.{ValuesAreConverted};
ghost use Rattle.conversion_laws.specs.Ordered.{ElementsGoUp};
ghost use Rattle.conversion_laws.specs.Turns.{TurnsArePaid};

/// A value keeps what it is where it is converted.
pub fn values_are_converted()
    ensures { ValuesAreConverted }
{}

/// What is below another element goes to it, where both have their structs.
pub fn elements_go_up()
    ensures { ElementsGoUp }
{}

/// A constant of a class or a module that is no list and no dict, also a string and a tuple, gives its value.
pub fn constants_are_given()
    ensures { ConstantsAreGiven }
{}

/// So do words, truth values, strings and `None` in the text of a function.
pub fn literals_are_given()
    ensures words { WordsAreGiven }
    ensures flags { FlagsAreGiven }
    ensures strings { StringsAreGiven }
    ensures none { NoneIsGiven }
{}

/// Whether two values are equal: words, truth values, bytes, strings and `None`, and tuples of these, item by item.
pub fn values_are_compared()
    ensures equal { ValuesAreCompared compared.Eq }
    ensures unequal { ValuesAreCompared compared.Ne }
{}

/// A byte is less than another, at most, greater or at least.
pub fn bytes_are_ordered()
    ensures less { BytesAreOrdered compared.Lt }
    ensures at_most { BytesAreOrdered compared.Le }
    ensures greater { BytesAreOrdered compared.Gt }
    ensures at_least { BytesAreOrdered compared.Ge }
{}

/// A turn of a loop costs a step.
pub fn turns_are_paid()
    ensures { TurnsArePaid }
{}
