// Laws of trees with nodes.
ghost use Rattle.std.specs.Prelude.{◌≡◌, ℕ, Bool, true, false, Some};
ghost use Rattle.rpy_tree.specs.declared.syntax.CmpOp.TheVariants as cmp;
ghost use Rattle.rpy_meaning.specs.declared.row.RowOp.TheVariants as row;
ghost use Rattle.flow_stands.specs.Stands.{Reads};
ghost use Rattle.flow_trees.specs.Tells.{Telling, tells};
ghost use Rattle.flow_trees.specs.Tree.{Expr, Local, Apply, none, more, plain};

/// What a test tells of a local is told of one that the test reads.
pub fn tests_tell_of_what_they_read()
    ensures { (e : Expr) (way : Bool) (t : Telling) → tells e way ≡ Some t → Reads (plain e) t.local }
{}

/// A worked row: `a < b` tells of `b` beside `a` where it is true, and of `a` beside `b` where not.
pub fn the_larger_side_is_told_of()
    ensures so { (at left right a b : ℕ) → tells (Apply at true (row.Compare cmp.Lt) (more (Local left a) (more (Local right b) none))) true ≡ Some (record { local = b; op = row.NonNegative; beside = Some 0 }) }
    ensures otherwise { (at left right a b : ℕ) → tells (Apply at true (row.Compare cmp.Lt) (more (Local left a) (more (Local right b) none))) false ≡ Some (record { local = a; op = row.NonNegative; beside = Some 1 }) }
{}
