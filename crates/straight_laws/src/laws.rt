// What the first passes of joining keep.
ghost use Rattle.ll_code.specs.declared.program.LlProgram.{LlProgram};
ghost use Rattle.ll_code.specs.Typed.{IsWellTyped};
ghost use Rattle.turned_laws.specs.Ordered.{IsOrdered};
ghost use Rattle.turned_laws.specs.Turned.{MeanTheSame};
ghost use Rattle.straight_laws.specs.Passes.{ways, HasBlockNumbers};

/// Where each block reads its inputs alone, a program whose straight ways are single blocks means the same.
pub fn joined_ways_mean_the_same()
    ensures { (p : LlProgram) → IsWellTyped p → IsOrdered p → HasBlockNumbers p → MeanTheSame p (ways p) }
{}
