//! Tests of whole calls of `rpyc` that run programs, and of what is broken or fails.
#![tactic(auto)]

#[cfg(test)]
mod hostile;
#[cfg(test)]
mod program;
#[cfg(test)]
mod worked;
