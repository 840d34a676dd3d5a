// What growing rests on holds of each program.
ghost use Rattle.std.specs.Prelude.{◌<◌, length};
ghost use Rattle.rpy_tree.specs.declared.program.Program.{Program};
ghost use Rattle.flow_graph.specs.declared.graph.Graphs.{Graphs};
ghost use Rattle.class_desc.specs.Tables.{Tables};
ghost use Rattle.ann_laws.specs.Rows.{HasClasses};
ghost use Rattle.ann_grown.specs.Partial.{Basis};
ghost use Rattle.ann_needs.specs.View.{whole};
ghost use Rattle.ann_layout.specs.Layout.{plan, planned};
ghost use Rattle.ann_places.specs.Spots.{spots, start};

/// Where the classes of a program are a tree and it has a site, growing has its basis: each part has its
/// place, the sites are a table, and the start is well-formed.
pub fn growing_has_a_basis()
    ensures { (p : Program) (gs : Graphs) (t : Tables) → HasClasses t → 0 < length p.sites → Basis (whole (plan p gs t)) (spots (plan p gs t)) (start (planned p gs t)) }
{}
