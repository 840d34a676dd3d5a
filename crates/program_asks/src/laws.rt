// Laws of what a program asks for while it is written.
ghost use Rattle.program_asks.specs.Asking.{ProgramsOnlyAsk};
ghost use Rattle.program_asks.specs.Standing.{AskedStand, HelpersStand, ProgramsHaveAsked, SmallsStand, StaticsStand};

/// Each small graph that is asked for has its graph, behind those of the ones before it.
pub fn small_graphs_are_written()
    ensures { SmallsStand }
{}

/// In what a pass writes a small graph that is asked for stands at its number, with what it asks for itself.
pub fn small_graphs_stand()
    ensures { AskedStand }
{}

/// In what a pass writes that asks for no helper that it was not given, a helper that is asked for stands at
/// its number, and raises those of its failures that are covered where it is asked for.
pub fn helpers_stand()
    ensures { HelpersStand }
{}

/// What a pass writes has the structs of the layout, and the statics of classes where the lowering looks for
/// them.
pub fn statics_stand()
    ensures { StaticsStand }
{}

/// All this holds of every program that `rtype` makes.
pub fn programs_have_asked()
    ensures { ProgramsHaveAsked }
{}

/// What writes a program takes nothing back of what was asked for.
pub fn programs_only_ask()
    ensures { ProgramsOnlyAsk }
{}
