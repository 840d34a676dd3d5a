// Laws of the layouts of programs.
ghost use Rattle.layout_laws.specs.Beginning.{MemoryBegins};
ghost use Rattle.layout_laws.specs.Knowing.{ClassesAreKnown, ProgramsHaveTheirClasses};
ghost use Rattle.layout_laws.specs.Layouts.{LayoutsAreHad, LayoutsLayOutClasses};
ghost use Rattle.layout_laws.specs.Rows.{ExceptionsBegin, HasAttributes, HasClasses, HasShapes, IsKnown, IsStarted};
ghost use Rattle.layout_laws.specs.Starting.{AttributesAreKnown, BasesAreLaid, InstancesStart, ProgramsHaveTheirConstants};
ghost use Rattle.layout_laws.specs.Statics.{ExceptionsStand, MethodsStand, VtablesStand};
ghost use Rattle.layout_laws.specs.Typing.{StructsAreTyped};

/// The layout of every program lays out its classes, as the laws of operations on instances take it.
pub fn layouts_lay_out_classes()
    ensures { LayoutsLayOutClasses }
{}

/// What is known of a program by the world of its lowering is of the program, as its meaning sees it.
pub fn classes_are_known()
    ensures of { ClassesAreKnown }
    ensures meant { ProgramsHaveTheirClasses }
    ensures constants { ProgramsHaveTheirConstants }
{}

/// A program that has the structs of its layout has those of strings, tuples and lists in their shapes, and apart.
pub fn layouts_are_had()
    ensures { LayoutsAreHad }
{}

/// The structs of a layout keep the rules of low-level programs.
pub fn structs_are_typed()
    ensures { StructsAreTyped }
{}

/// The bases of a class with structs have some, and what it and they declare is known; so new instances start as the law
/// of them takes it, where constants stand for their values.
pub fn new_instances_start()
    ensures bases { BasesAreLaid }
    ensures attributes { AttributesAreKnown }
    ensures whole { InstancesStart }
{}

/// The statics of vtables and of builtin exceptions hold what is known of them, where it is known; a method that is
/// reached stands in its vtable where the lowering looks for it.
pub fn statics_of_classes_stand()
    ensures vtables { VtablesStand }
    ensures methods { MethodsStand }
    ensures exceptions { ExceptionsStand }
{}

/// Before anything is made, memory represents the builtin exceptions; they alone are seen of what is there from the start.
pub fn memory_begins()
    ensures { MemoryBegins }
{}

/// A program that has nothing but builtin exceptions begins so.
pub fn exceptions_begin()
    ensures { ExceptionsBegin }
{}

/// A program of two classes, one below the other, has this layout, of which the laws speak.
pub fn two_classes_have_a_layout()
    ensures shapes { HasShapes }
    ensures classes { HasClasses }
    ensures attributes { HasAttributes }
    ensures known { IsKnown }
    ensures starts { IsStarted }
{}
