// How a run ends.
use crate::Text;

/// The name of a failure, which stops a run at once.
#[derive(Clone, Copy, Debug, PartialEq, Eq)]
pub enum FailName {
    Index,
    ZeroDivision,
    Value,
    Attribute,
    NegativeSlice,
}

/// How a run stands when it is over: it returned a word, raised an exception whose class has this
/// name, failed, or was still running when its steps were spent.
#[derive(Debug, Drop)]
pub enum Outcome {
    Returned(i64),
    Raised(Text),
    Failed(FailName),
    Running,
}
