// The names that the language knows. They have the first numbers, in this order.
pub const NONE: usize = 0;

pub const TRUE: usize = 1;

pub const FALSE: usize = 2;

pub const OS: usize = 3;

pub const SYS: usize = 4;

pub const RPYTHON: usize = 5;

pub const RLIB: usize = 6;

pub const RARITHMETIC: usize = 7;

pub const OVFCHECK: usize = 8;

pub const INTMASK: usize = 9;

pub const WRITE: usize = 10;

pub const MAXINT: usize = 11;

pub const OBJECT: usize = 12;
/// The first builtin exception class. The others follow, in the order of their numbers.
pub const EXCEPTION: usize = 13;
/// The first builtin function. The others follow.
pub const LEN: usize = 26;
/// The first method whose call makes a list. The others follow.
pub const SPLIT: usize = 37;

pub const ENTRY_POINT: usize = 44;
