//! Flow graphs and their annotation to low-level programs.
#![tactic(auto)]

mod blocks;
mod cuts;
mod entry;
mod exits;
mod extra;
mod graph;
mod handlers;
mod known;
mod links;
mod live;
mod raising;
mod whole;

pub use whole::rtype;
