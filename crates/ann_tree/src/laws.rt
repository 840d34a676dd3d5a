// Worked programs: their annotations are closed under all that their trees ask, and free of conflict.
ghost use Rattle.std.specs.Prelude.{[], ◌∷◌};
ghost use Rattle.ann_tree.specs.Closed.{IsClosed};
ghost use Rattle.ann_tree.specs.Examples.{whole, objects, counting, counted, asking, asked, guarding, guarded, returning, mistaken};

/// A local that a loop counts up is a word not below zero at each node.
pub fn a_loop_is_closed()
    ensures { IsClosed whole objects counted (counting ∷ []) }
{}

/// Behind a test for `None` that returns, a local that was a string or `None` is a string.
pub fn a_test_for_none_is_closed()
    ensures { IsClosed whole objects asked (asking ∷ []) }
{}

/// A local that is bound in the body of a `try` may be unbound in a clause, and is bound behind both.
pub fn a_handler_is_closed()
    ensures { IsClosed whole objects guarded (guarding ∷ []) }
{}

/// A function that returns a word is not closed where its result is a string.
pub fn a_wrong_result_is_not_closed()
    ensures { IsClosed whole objects mistaken (returning ∷ []) → ⊥ }
{}
