//! What each name of an expression or a body stands for, and the numbers of the sites.
#![tactic(auto)]

pub mod finder;
pub mod locals;
pub mod part;
pub mod step;
pub mod unit;

pub use finder::{Finder, Place};
pub use locals::Locals;
pub use step::{Called, SiteAt, Step};
pub use unit::{Found, find_units};
