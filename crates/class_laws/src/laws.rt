// Laws of operations on instances as they are lowered.
ghost use Rattle.std.specs.Prelude.{ℕ};
ghost use Rattle.rpy_tree.specs.declared.syntax.CmpOp.TheVariants as compared;
ghost use Rattle.rpy_meaning.specs.declared.row.RowOp.TheVariants as row;
ghost use Rattle.class_laws.specs.Rows.{TwoClasses};
ghost use Rattle.class_laws.specs.Instances.{AttributesAreRead, AttributesAreStored, BuiltinsAreGiven, InstancesAreMade, InstancesAreTold, IsBesideNone, IsCopied, IsEmptied, IsIdentity, IsLowered, IsNarrowed, IsTruth};

/// A value is another as it is: without objects, a list, an instance or a function.
pub fn values_are_copied()
    ensures { IsCopied row.Copy }
{}

/// Of an instance that is there, of one that was told to be of a class, and of one that is `None`, it is known that it is.
pub fn instances_are_narrowed()
    ensures there { IsNarrowed }
    ensures lower { (d : ℕ) → IsLowered d }
    ensures only_none { IsEmptied row.OnlyNone }
    ensures false_none { IsEmptied row.FalseNone }
{}

/// An attribute of an instance; one that is not set fails, or raises, as `None` does.
pub fn attributes_are_read()
    ensures { AttributesAreRead }
{}

/// An attribute that is stored, and is set then; no other one is another.
pub fn attributes_are_stored()
    ensures { AttributesAreStored }
{}

/// Whether an instance is one of a class, by the number of its class.
pub fn instances_are_told()
    ensures { InstancesAreTold }
{}

/// Whether two instances are the same, and whether one is `None`.
pub fn identity_is_done()
    ensures is { IsIdentity compared.Is }
    ensures is_not { IsIdentity compared.IsNot }
    ensures none { IsBesideNone compared.Is }
    ensures not_none { IsBesideNone compared.IsNot }
{}

/// An instance counts as true, and one that is missing as false.
pub fn instances_count_as_true()
    ensures truth { IsTruth row.Truth }
    ensures opposite { IsTruth row.Not }
{}

/// A new instance of a class without `__init__`, in one block, at its cost; and the one instance of a builtin exception class.
pub fn instances_are_made()
    ensures new { InstancesAreMade }
    ensures builtin { BuiltinsAreGiven }
{}

/// Two classes, one below the other, are laid out.
pub fn two_classes_are_laid_out()
    ensures { TwoClasses }
{}
