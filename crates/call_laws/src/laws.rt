// Laws of calls as they are lowered.
ghost use Rattle.std.specs.Prelude.{ℕ};
ghost use Rattle.rpy_meaning.specs.declared.row.RowOp.TheVariants as row;
ghost use Rattle.call_laws.specs.Calls.{FunctionsAreCalled, InstancesAreInitialised, MethodsAreCalled, ValuesAreCalled};
ghost use Rattle.call_laws.specs.Indirect.{MethodsAreLookedUp};
ghost use Rattle.call_laws.specs.Raised.{ExceptionsAreRaised};

/// A call of a function by its name, also of a method by its class, with an argument for each parameter.
pub fn functions_are_called()
    ensures function { FunctionsAreCalled row.Call }
    ensures method { (class : ℕ) → FunctionsAreCalled (row.CallOf class) }
{}

/// A new instance of a class with `__init__`, which is called with it and the arguments.
pub fn instances_are_initialised()
    ensures { InstancesAreInitialised }
{}

/// A method of an instance, or of `None`, where but one function can be meant.
pub fn methods_are_called()
    ensures { MethodsAreCalled }
{}

/// A value that is one function, or `None`.
pub fn values_are_called()
    ensures { ValuesAreCalled }
{}

/// An instance that is raised; `None` fails, or raises another exception.
pub fn exceptions_are_raised()
    ensures { ExceptionsAreRaised }
{}

/// A method of an instance, or of `None`, where the vtable of the instance has it.
pub fn methods_are_looked_up()
    ensures { MethodsAreLookedUp }
{}
