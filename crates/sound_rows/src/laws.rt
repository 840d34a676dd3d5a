// The law of operations.
ghost use Rattle.rpy_meaning.specs.declared.row.RowOp.{RowOp};
ghost use Rattle.sound_rows.specs.Sound.{IsSound};

/// Each operation is sound. Where its operands are of their elements, the objects are of their sorts, and what stands at its result is in no conflict and above
/// all that the operation's row asks, while all that the operation asks of the parts of the program is met, it is never wrong: what it gives is of the element
/// at its result; what it throws is an exception, and a builtin one unless the operation is `raise`; a function that it enters is reached, with arguments of its
/// parameters, and its result is of the element at the operation's result. The objects are of their sorts afterwards, where there may be more.
pub fn rows_are_sound()
    ensures { (o : RowOp) → IsSound o }
{}
