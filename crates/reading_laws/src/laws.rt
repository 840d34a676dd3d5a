// Laws of what operations are written as: what that reads, and what it sets.
ghost use Rattle.reading_laws.specs.Operations.{ConversionsFit, OperationsFit, OperationsRead, OperationsReadInside};
ghost use Rattle.reading_laws.specs.Standing.{CallsGiveInPrograms};
ghost use Rattle.reading_laws.specs.Tidy.{StepsFollow};

/// What is written in two steps reads what is set, and sets variables of the graph, where each step does.
pub fn steps_follow()
    ensures { StepsFollow }
{}

/// What an operation is written as reads its operands, and what it has set itself.
pub fn operations_read()
    ensures { OperationsRead }
{}

/// Where it is an operation on its operands it also sets the variable of its result.
pub fn operations_read_inside()
    ensures { OperationsReadInside }
{}

/// It sets variables of the graph, where what it calls gives something.
pub fn operations_fit()
    ensures { OperationsFit }
{}

/// So does what converts the arguments of a link.
pub fn conversions_fit()
    ensures { ConversionsFit }
{}

/// What is asked for gives something in every program that is made of flow graphs, where its functions do.
pub fn calls_give()
    ensures { CallsGiveInPrograms }
{}
