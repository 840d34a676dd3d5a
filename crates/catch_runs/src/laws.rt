// Laws of programs in which exceptions are caught.
ghost use Rattle.catch_runs.specs.Programs.{CatchingProgramsAreLowered, CatchingProgramsRunOn};

/// Every program that is made of flow graphs does what they do, block by block, where what its operations and exits are written as
/// does what they do: also where exits catch.
pub fn catching_programs_are_lowered()
    ensures { CatchingProgramsAreLowered }
{}

/// So where the flow graphs end from a state on, such a program comes to the same outcome from where it stands, with the same output,
/// over memory that represents the heap.
pub fn catching_programs_run_on()
    ensures { CatchingProgramsRunOn }
{}
