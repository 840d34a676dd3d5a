// Laws of whole programs that have types.
ghost use Rattle.sound_programs.specs.Never.{TypesAreSettled, ProgramsWithTypesAreNeverWrong};
ghost use Rattle.sound_programs.specs.Told.{RunsAreTold, RunsAreSound, MadeRunsAreNeverWrong};
ghost use Rattle.sound_programs.specs.Texts.{ProgramsOfTextsAreWhole};

use check_laws::{programs_of_texts_have_trees, types_leave_trees_without_fault};
use front_laws::modules_have_no_inner_classes;
use graph_plain::programs_tell_the_truth;
use names_forest::{builtins_stand_below_exception, programs_have_their_functions};
use sound_runs::{starts_are_sound, steps_are_right};

/// What the checks of a program settled is as the laws of runs ask: all that its graphs ask is met, reached functions are there with their graphs, links lead to blocks,
/// the results of operations are in no conflict, and the entry point gives an integer. The program is the one that the meaning makes of its modules.
pub fn types_are_settled()
    ensures { TypesAreSettled }
{
    types_leave_trees_without_fault();
}

/// So a run of a program that has types is never wrong, however many steps it takes: where what tests tell of operands holds along it.
pub fn programs_with_types_are_never_wrong()
    ensures { ProgramsWithTypesAreNeverWrong }
{
    types_leave_trees_without_fault();
}

/// Wherever a run of a program comes to, what a narrowing tells is true. So all that soundness asks to be told is, where the operands of other operations are as graphs
/// are made and functions that are called take their arguments.
pub fn runs_are_told()
    ensures { RunsAreTold }
{
    programs_tell_the_truth();
}

/// Then each state that a run of a program with types comes to has its variables of their elements, and its objects of their sorts.
pub fn runs_are_sound()
    ensures { RunsAreSound }
{
    types_are_settled();
    programs_tell_the_truth();
    steps_are_right();
    starts_are_sound();
}

/// And the run is never wrong.
pub fn made_runs_are_never_wrong()
    ensures { MadeRunsAreNeverWrong }
{
    types_are_settled();
    programs_tell_the_truth();
    steps_are_right();
    starts_are_sound();
}

/// The program that texts are is whole, as these laws ask, where what it names is there.
pub fn programs_of_texts_are_whole()
    ensures { ProgramsOfTextsAreWhole }
{
    programs_of_texts_have_trees();
    modules_have_no_inner_classes();
    programs_have_their_functions();
    builtins_stand_below_exception();
}
