//! The trees of modules, from their tokens: the grammar, and what its rules make.
#![tactic(auto)]

pub mod ahead;
pub mod arithmetic;
pub mod atom;
pub mod cursor;
pub mod display;
pub mod expression;
pub mod fault;
pub mod found;
pub mod function;
pub mod goal;
pub mod grown;
pub mod import;
pub mod made;
pub mod member;
pub mod names;
pub mod node;
pub mod operator;
mod reader;
pub mod simple;
pub mod skip;
pub mod statement;
pub mod target;

pub use fault::ParseFault;
pub use reader::{one_module, parse};
