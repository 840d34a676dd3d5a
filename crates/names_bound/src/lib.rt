//! What each name of a module and of a class body stands for, and the bases of the classes.
#![tactic(auto)]

pub mod base;
pub mod clash;
pub mod declare;
pub mod fault;
pub mod imports;
pub mod known;
pub mod scopes;
pub mod stand;
pub mod table;

pub use base::{base_faults, class_bases, leads_back, without_rings};
pub use clash::{clash_faults, clashing};
pub use declare::{BUILTIN_CLASSES, ClassAt, ConstantAt, Declared, FunctionAt, all_declared};
pub use fault::{Fault, FaultKind, lesser};
pub use imports::import_faults;
pub use scopes::Scopes;
pub use stand::Stand;
pub use table::{Binding, Bound, Key, Table};
