// Laws of what narrowings tell.
ghost use Rattle.graph_told.specs.Told.{NarrowingsTellTheTruth};

/// Wherever a run of flow graphs from the start stands before an operation that narrows a local by what a test found, that is true
/// of the local: it is not `None`, it is `None`, it is false, it is an instance of the class, or it is at least as large as what
/// stands beside it.
pub fn narrowings_tell_the_truth()
    ensures { NarrowingsTellTheTruth }
{}
