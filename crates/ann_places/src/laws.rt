// Laws of where the parts of a program stand, over all programs, graphs and classes.
ghost use Rattle.rpy_tree.specs.declared.program.Program.{Program};
ghost use Rattle.flow_graph.specs.declared.graph.Graphs.{Graphs};
ghost use Rattle.class_desc.specs.Tables.{Tables};
ghost use Rattle.ann_layout.specs.Layout.{planned};
ghost use Rattle.ann_rules.specs.Hold.{IsPlaced};
ghost use Rattle.ann_needs.specs.View.{whole};
ghost use Rattle.ann_layout.specs.Layout.{plan};
ghost use Rattle.ann_places.specs.Placed.{ArePlaced};
ghost use Rattle.ann_places.specs.Spots.{spots, start};

/// Each parameter, result, item, key and variable of a program stands in a cell that there is, and each
/// function, class, site, block, variable and node has a mark that there is.
#[tactic(auto, using(crate::proofs::Placing::placed))]
pub fn parts_have_places()
    ensures { (p : Program) (gs : Graphs) (t : Tables) → ArePlaced p gs t (planned p gs t) }
{}

/// Each site and each result of an operation has a cell that there is, in which no conflict may stand.
pub fn spots_have_places()
    ensures { (p : Program) (gs : Graphs) (t : Tables) → IsPlaced (whole (plan p gs t)) (spots (plan p gs t)) (start (planned p gs t)) }
{}
