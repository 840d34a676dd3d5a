// Laws of the runs of programs that are made of flow graphs.
ghost use Rattle.class_laws.specs.Instances as classes;
ghost use Rattle.list_laws.specs.Presence as lists;
ghost use Rattle.dict_change_laws.specs.Changed.{CanStore, KeysAreThere};
ghost use Rattle.dict_find_laws.specs.Lookups.{FirstIsThere, SecondIsThere};
ghost use Rattle.rtyped_runs.specs.Conditions.{ConditionsHold};
ghost use Rattle.rtyped_runs.specs.Laws.{ClassedOperationsAreWritten, CopiedOperationsAreWritten, DoneOperationsAreWritten, EnteredOperationsAreWritten, GivenOperationsAreWritten, KeyedOperationsAreWritten, ListedOperationsAreWritten, MethodsAreWritten, MethodsAreWrittenByVtables, RaisedOperationsAreWritten, ToldOperationsAreWritten, of_changes, of_classes, of_conversions, of_dicts, of_lists, of_lookups, of_values};
ghost use Rattle.rtyped_runs.specs.Premises.{GraphsAreKnown, VariablesHaveTypes};
ghost use Rattle.rtyped_runs.specs.Programs.{ProgramsAreLowered, ProgramsRunOn};

/// Every program that is made of flow graphs does what they do, block by block, where what its operations and exits are written as
/// does what they do, and nothing is caught.
pub fn programs_are_lowered()
    ensures { ProgramsAreLowered }
{}

/// So where the flow graphs end from a state on, such a program comes to the same outcome from where it stands, with the same
/// output, over memory that represents the heap.
pub fn programs_run_on()
    ensures { ProgramsRunOn }
{}

/// Where a law says of an operation that it is done, that it enters a function, or that it raises, what it is written as in a block
/// does what it does.
pub fn operations_are_written()
    ensures values { DoneOperationsAreWritten of_values }
    ensures lists { DoneOperationsAreWritten of_lists }
    ensures dicts { DoneOperationsAreWritten of_dicts }
    ensures lookups { DoneOperationsAreWritten of_lookups }
    ensures first_keys { KeyedOperationsAreWritten of_lookups FirstIsThere }
    ensures second_keys { KeyedOperationsAreWritten of_lookups SecondIsThere }
    ensures stores { KeyedOperationsAreWritten of_changes CanStore }
    ensures deletions { KeyedOperationsAreWritten of_changes KeysAreThere }
    ensures conversions { DoneOperationsAreWritten of_conversions }
    ensures classes { DoneOperationsAreWritten of_classes }
    ensures copied { CopiedOperationsAreWritten }
    ensures listed { ListedOperationsAreWritten }
    ensures given { GivenOperationsAreWritten }
    ensures entered { EnteredOperationsAreWritten }
    ensures raised { RaisedOperationsAreWritten }
    ensures lists_there { ToldOperationsAreWritten of_lists lists.IsThere }
    ensures lists_missing { ToldOperationsAreWritten of_lists lists.IsMissing }
    ensures instances_there { ToldOperationsAreWritten of_classes classes.IsThere }
    ensures instances_missing { ToldOperationsAreWritten of_classes classes.IsNothing }
    ensures classed { ClassedOperationsAreWritten }
    ensures methods { MethodsAreWritten }
    ensures by_vtables { MethodsAreWrittenByVtables }
{}

/// What is held by a variable has a type, where what is known of the variables of its graph has its structs.
pub fn variables_have_types()
    ensures { VariablesHaveTypes }
{}

/// A function has the number of its graph exactly where it is reached, as what is known of a program says.
pub fn graphs_are_known()
    ensures { GraphsAreKnown }
{}

/// What the laws of keys, entries and narrowings ask of worlds and operands holds of each operation that is as they ask.
pub fn conditions_hold()
    ensures { ConditionsHold }
{}
