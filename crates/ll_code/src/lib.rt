//! Low-level programs: graphs of blocks over words, bytes, truth values, functions and blocks of
//! memory, in the words of C files.
#![tactic(auto)]

mod check;
pub mod program;

pub use check::well_typed;
pub use program::{
    LlBlock, LlExit, LlGraph, LlLink, LlOp, LlProgram, LlStage, LlStatic, LlStruct, LlType, VarId,
};
