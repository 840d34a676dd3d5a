//! Tests of C files in memory: what the reader refuses and where, what the rules refuse, and what the
//! runner does.
#![tactic(auto)]

#[cfg(test)]
mod reader;
#[cfg(test)]
mod runner;
#[cfg(test)]
mod tree;
#[cfg(test)]
mod watch;
