// Programs of the first path: one function of sums, assignments and prints, with names resolved to
// the numbers of locals.
use rpy_base::{Own, Seq};

#[derive(Clone, Copy, Debug, PartialEq, Eq)]
pub enum Arith {
    Add,
    Sub,
    Mul,
}

#[derive(Drop)]
pub enum Sum {
    Word(i64),
    Local(u64),
    Binary(Arith, Own<Sum>, Own<Sum>),
}

/// A line that is not the last: a local is numbered by the first line that assigns to it.
#[derive(Drop)]
pub enum Line {
    Assign(u64, Sum),
    Print(Sum),
}

/// The lines, the sum that the last line returns, and how many locals there are.
#[derive(Drop)]
pub struct Body {
    pub lines: Seq<Line>,
    pub result: Sum,
    pub locals: u64,
}
