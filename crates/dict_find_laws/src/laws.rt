// Laws of operations that look into dicts, as they are lowered.
ghost use Rattle.std.specs.Prelude.{codes};
ghost use Rattle.rpy_tree.specs.declared.syntax.CmpOp.TheVariants as compared;
ghost use Rattle.dict_find_laws.specs.Finding.{KeysAreFound, KeysAreHashed};
ghost use Rattle.dict_find_laws.specs.Listings.{MethodsListKeys, MethodsListValues, WalksListKeys};
ghost use Rattle.dict_find_laws.specs.Lookups.{KeysAreLookedFor, ValuesAreGot, ValuesAreGotOrNone, ValuesAreRead};
ghost use Rattle.dict_find_laws.specs.Pairs.{MethodsListPairs};

/// The hash of a key, and the place of its entry, by the graphs for them.
pub fn keys_are_found()
    ensures hash { KeysAreHashed }
    ensures place { KeysAreFound }
{}

/// Whether a key has an entry in a dict, and whether it has none.
pub fn keys_are_looked_for()
    ensures within { KeysAreLookedFor compared.Within }
    ensures not_within { KeysAreLookedFor compared.NotWithin }
{}

/// The value of a key; one that is missing raises, and `None` in the place of the dict fails, or raises.
pub fn values_are_read()
    ensures { ValuesAreRead }
{}

/// The value of a key, or else another one, or `None`.
pub fn values_are_got()
    ensures other { ValuesAreGot }
    ensures none { ValuesAreGotOrNone }
{}

/// A list of the keys of a dict, in order of insertion, at its cost: by a method, or where the dict is walked.
pub fn keys_are_listed()
    ensures keys { MethodsListKeys (codes "keys") }
    ensures iterated { MethodsListKeys (codes "iterkeys") }
    ensures walk { WalksListKeys }
{}

/// A list of the values of a dict, in the order of their keys, at its cost.
pub fn values_are_listed()
    ensures values { MethodsListValues (codes "values") }
    ensures iterated { MethodsListValues (codes "itervalues") }
{}

/// A list of the pairs of a dict, as tuples, in order of insertion, at its cost.
pub fn pairs_are_listed()
    ensures items { MethodsListPairs (codes "items") }
    ensures iterated { MethodsListPairs (codes "iteritems") }
{}
