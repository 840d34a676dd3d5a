// Laws of lists of tuples, as they are lowered.
ghost use Rattle.rpy_tree.specs.declared.syntax.CmpOp.TheVariants as compared;
ghost use Rattle.list_tuple_laws.specs.Among.{TuplesAreAmong};

/// Whether a tuple is equal to one of the items of a list, and whether it is to none: tuples of words, truth values,
/// bytes, strings, `None` and such tuples, at any depth.
pub fn tuples_are_among()
    ensures within { TuplesAreAmong compared.Within }
    ensures not_within { TuplesAreAmong compared.NotWithin }
{}
