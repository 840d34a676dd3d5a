// Laws of runs.
ghost use Rattle.run_laws.specs.Runs.{RunsAreFollowed};

/// Where each block of the low-level program does what the block of the flow graph does, so does the whole run: it comes to
/// the same outcome, with the same output, over memory that represents the heap.
pub fn runs_are_followed()
    ensures { RunsAreFollowed }
{}
