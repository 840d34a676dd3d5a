// Laws of attributes whose values are converted.
ghost use Rattle.class_conversion_laws.specs.Attributes.{AttributesAreStored};

/// A value that is converted to what is known of an attribute, and stored; the result is the value itself.
pub fn attributes_are_stored()
    ensures { AttributesAreStored }
{}
