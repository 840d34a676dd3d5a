// How far the lines of a text have come.

/// What the lines up to some line say of a text. The first number of each is how many declarations
/// of its kind are whole; a second number is the field, the variable or the block that may come
/// next, or of `Statements` the block that is open.
#[derive(Clone, Copy, Debug, PartialEq, Eq)]
pub enum Place {
    Start,
    Include,
    Structs(u64),
    Fields(u64, u64),
    Items(u64),
    Prototypes(u64),
    Statics(u64),
    Functions(u64),
    Named(u64),
    Headed(u64, u64),
    Locals(u64, u64),
    Statements(u64, u64),
    Blocks(u64, u64),
}
