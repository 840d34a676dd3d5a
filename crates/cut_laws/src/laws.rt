// Laws of blocks that are cut.
ghost use Rattle.cut_laws.specs.Cuts.{CutWaysLeadOn};

/// A way through the operations of a block leads on through its pieces, where the links between them pass on variables that are
/// set.
pub fn cut_ways_lead_on()
    ensures { CutWaysLeadOn }
{}
