// Why a statement of a C file cannot be carried out.
/// A block that is `NULL` or gone; another struct; an index outside; a variable, field or item that
/// is unset; a free of what is no allocated block; an indirect call of `NULL` or of another
/// signature; a zero divisor, a shift count outside 0 to 63 or a byte outside 0 to 255; a negative
/// array length; a negative step cost; an argument's place outside. They are numbered from 1.
#[derive(Clone, Copy, Debug, PartialEq, Eq)]
pub enum StuckReason {
    Gone = 1,
    Kind = 2,
    Outside = 3,
    Unset = 4,
    BadFree = 5,
    Signature = 6,
    Word = 7,
    Length = 8,
    Cost = 9,
    Argument = 10,
}
