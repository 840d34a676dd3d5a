// Laws of blocks.
ghost use Rattle.typed_blocks.specs.Blocks.{BlocksAreDone};
ghost use Rattle.typed_blocks.specs.Checked.{ProgramsAreChecked};

/// Of each block of a program that passed its checks, which catches nothing, the parts are done, where each operation that has types is written as what it does.
pub fn blocks_are_done()
    ensures { BlocksAreDone }
{}

/// The graphs of a program that passed its checks are as this asks, where all that they ask is met.
pub fn programs_are_checked()
    ensures { ProgramsAreChecked }
{}
