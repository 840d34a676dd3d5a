//! The typing of a program that has an annotation: the four faults that leave it without types.
#![tactic(auto)]

mod arity;
mod call;
mod fault;
mod least;
mod modify;

pub use fault::TypeFault;
pub use least::typing;
