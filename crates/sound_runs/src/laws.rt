// Laws of runs.
ghost use Rattle.sound_runs.specs.Runs.{StepsAreRight, RunsAreNeverWrong};
ghost use Rattle.sound_runs.specs.Closed.{ClosedIsMet};
ghost use Rattle.sound_runs.specs.Start.{StartsAreSound, ProgramsAreNeverWrong};

/// A step from a state whose variables are of their elements leads to another such state, or ends the run with an outcome, or lacks the steps that it costs. It
/// does not stray: what is read is bound, a test has a truth, a link leads to a block, what is thrown is an exception, and the entry point gives a word. So it
/// is where all that the graphs ask is met, blocks that are reached read no variable that may be unbound, and what is told of a state holds of it: of a
/// narrowing that its test was passed, and of a call that the function takes its arguments.
#[tactic(auto, using(crate::proofs::Whole::steps_are_right))]
pub fn steps_are_right()
    ensures { StepsAreRight }
{}

/// So a run from such a state is never wrong, however many steps it takes: where it ends, it has an outcome.
#[tactic(auto, using(crate::proofs::Whole::runs_are_never_wrong))]
pub fn runs_are_never_wrong()
    ensures { RunsAreNeverWrong }
{}

/// A run begins in such a state: the instances of the builtin exception classes, the lists and dicts of modules and the list of arguments are of their sorts.
pub fn starts_are_sound()
    ensures { StartsAreSound }
{}

/// So a run of a program, from its start, is never wrong.
pub fn programs_are_never_wrong()
    ensures { ProgramsAreNeverWrong }
{}

/// An assignment that is closed under the rules of a program's graphs, and has each cell and mark of which these speak, meets all that the graphs ask.
pub fn closed_is_met()
    ensures { ClosedIsMet }
{}
