//! What the parts of a program's graphs ask of an annotation, as lists.
#![tactic(auto)]

mod ask;
mod block;
mod call;
mod constant;
mod function;
mod held;
mod method;
mod operation;
mod part;
mod plan;
mod site;
mod state;

pub use ask::{Ask, Asks};
pub use block::{
    asked, exception_asks, exit_asks, goes_on, has_conflict, has_unreached, op_asks, operands_of,
};
pub use call::{functions_of, methods_of, reach, reach_method, tie_two};
pub use function::{entry_asks, start_asks, tie_asks};
pub use plan::{Callee, Places, Plan};
pub use site::site_asks;
pub use state::State;
