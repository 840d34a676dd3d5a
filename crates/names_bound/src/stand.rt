// What a name stands for.
use rpy_tree::Builtin;

#[derive(Clone, Copy, Debug, PartialEq, Eq)]
pub enum Stand {
    /// No name, or one that is read as an attribute of a value.
    Nothing,
    /// Nothing has this name.
    Unknown,
    /// What an import at fault was to bind.
    Missing,
    Local(usize),
    Function(usize),
    /// A function in the body of a class, named by the class.
    Method(usize),
    Class(usize),
    Object,
    Constant(usize),
    Module(usize),
    Os,
    Sys,
    MaxInt,
    NoneValue,
    TrueValue,
    FalseValue,
    Builtin(Builtin),
}
