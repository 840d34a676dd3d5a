// Laws of blocks that are cut where they may raise.
ghost use Rattle.throw_laws.specs.Quiet.{QuietOperationsNeverThrow};
ghost use Rattle.throw_laws.specs.Ready.{OperationsAreReady, ReturnsAreReady};
ghost use Rattle.throw_laws.specs.Pieces.{CallsAreMade, CutWaysLeadOn, ExceptionsAreCaught, PiecesEnd, PiecesGoOn, RaisesAreCaught};

/// A way through the operations of a block leads on through its pieces.
pub fn cut_ways_lead_on()
    ensures { CutWaysLeadOn }
{}

/// What is thrown within the pieces, or raised there, goes to the link by which they
/// catch; and a call of what may throw waits where that is so.
pub fn exceptions_are_caught()
    ensures thrown { ExceptionsAreCaught }
    ensures raised { RaisesAreCaught }
    ensures called { CallsAreMade }
{}

/// Where the operations are done the pieces go on by the exit, and where the run ends in the operations it ends so in the pieces.
pub fn pieces_end()
    ensures done { PiecesGoOn }
    ensures over { PiecesEnd }
{}

/// Operations that read only variables that are set, and those that they have set, come to no place where what is needed from there on
/// is not set; nor do they behind a call that comes back.
pub fn operations_are_ready()
    ensures on { OperationsAreReady }
    ensures back { ReturnsAreReady }
{}

/// Operations that call only what never throws, and raise nothing, come to no exception.
pub fn quiet_operations_never_throw()
    ensures { QuietOperationsNeverThrow }
{}
