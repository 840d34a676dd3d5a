// Laws of calls.
ghost use Rattle.call_rows.specs.Calls.{FunctionsAreCalled, InstancesAreInitialised, MethodsOfClassesAreCalled, ValuesAreCalled};

/// A call of a function by its name is written.
pub fn functions_are_called()
    ensures { FunctionsAreCalled }
{}

/// A call of a method of a class by its name is written.
pub fn methods_of_classes_are_called()
    ensures { MethodsOfClassesAreCalled }
{}

/// A call of a value that is one function is written.
pub fn values_are_called()
    ensures { ValuesAreCalled }
{}

/// An instance that is made, and its `__init__` called, is written.
pub fn instances_are_initialised()
    ensures { InstancesAreInitialised }
{}
