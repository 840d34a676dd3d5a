//! C files of the subset C-sub 1, as trees.
#![tactic(auto)]

mod check;
mod stuck;
pub mod tree;

pub use check::checked;
pub use stuck::StuckReason;
pub use tree::{
    CBinary, CCell, CConst, CFile, CFunction, COperand, CPrototype, CStatic, CStmt, CStruct, CType,
    CUnary,
};
