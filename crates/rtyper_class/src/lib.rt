//! The lowering of operations on instances and function values, and the vtables of classes.
#![tactic(auto)]

mod attribute;
mod call;
mod instance;
mod operation;
mod vtable;

pub use call::{BUILTIN_CLASSES, Reached};
pub use instance::class_graph;
pub use operation::lower_class_op;
pub use vtable::{push_exceptions, push_vtables};
