// Laws of calls whose arguments and results are converted.
ghost use Rattle.std.specs.Prelude.{ℕ};
ghost use Rattle.rpy_meaning.specs.declared.row.RowOp.TheVariants as row;
ghost use Rattle.call_conversion_laws.specs.Calls.{FunctionsAreCalled, MethodsAreCalled, ValuesAreCalled};
ghost use Rattle.call_conversion_laws.specs.Initialised.{InstancesAreInitialised};
ghost use Rattle.call_conversion_laws.specs.Looked.{MethodsAreLookedUp};
ghost use Rattle.call_conversion_laws.specs.Several.{ValuesOfSeveralAreCalled};

/// A call of a function by its name, also of a method by its class: arguments and result are converted, and the defaults of
/// the other parameters are passed as constants.
pub fn functions_are_called()
    ensures function { FunctionsAreCalled row.Call }
    ensures method { (class : ℕ) → FunctionsAreCalled (row.CallOf class) }
{}

/// A method of an instance, or of `None`, where but one function can be meant.
pub fn methods_are_called()
    ensures { MethodsAreCalled }
{}

/// A value that is one function, or `None`.
pub fn values_are_called()
    ensures { ValuesAreCalled }
{}

/// A new instance of a class with `__init__`, which is called with it and the arguments.
pub fn instances_are_initialised()
    ensures { InstancesAreInitialised }
{}

/// A value that is one of several functions, or `None`.
pub fn values_of_several_are_called()
    ensures { ValuesOfSeveralAreCalled }
{}

/// A method of an instance, or of `None`, where the vtable of the instance has it.
pub fn methods_are_looked_up()
    ensures { MethodsAreLookedUp }
{}
