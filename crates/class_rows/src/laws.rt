// Laws of operations on instances.
ghost use Rattle.class_rows.specs.Classes.{AttributesAreRead, AttributesAreStored, ClassesAreTold, ExceptionsAreRaised, InstancesAreMade};

/// Whether an instance is of a class is written.
pub fn classes_are_told()
    ensures { ClassesAreTold }
{}

/// That an attribute is read is written.
pub fn attributes_are_read()
    ensures { AttributesAreRead }
{}

/// That the value of an attribute is stored is written.
pub fn attributes_are_stored()
    ensures { AttributesAreStored }
{}

/// That an instance is made is written.
pub fn instances_are_made()
    ensures { InstancesAreMade }
{}

/// That an exception is raised is written.
pub fn exceptions_are_raised()
    ensures { ExceptionsAreRaised }
{}
