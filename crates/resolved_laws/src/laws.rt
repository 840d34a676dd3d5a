// Laws of programs without the copies of checked operations.
ghost use Rattle.std.specs.Prelude.{◌≡◌, ℕ, List};
ghost use Rattle.rpy_meaning.specs.Tree.{Program};
ghost use Rattle.rpy_meaning.specs.Meaning.{mean};
ghost use Rattle.rpy_meaning.specs.Moments.{moment};
ghost use Rattle.resolved_laws.specs.Uncopied.{uncopied};

/// A program means the same without the copies of checked operations, with each list of arguments and each
/// bound on steps.
pub fn copies_mean_nothing()
    ensures { (p : Program) (args : List (List ℕ)) (n : ℕ) → mean (uncopied p) args n ≡ mean p args n }
{}

/// It has the same moments, too: at each of them it stands the same.
pub fn copies_are_no_moments()
    ensures { (p : Program) (args : List (List ℕ)) (n m : ℕ) → moment (uncopied p) args n m ≡ moment p args n m }
{}
