//! Tests of whole calls of `rpyc` and `translate`, over files, sinks and watchers in memory.
#![tactic(auto)]

#[cfg(test)]
mod run;
#[cfg(test)]
mod text;
#[cfg(test)]
mod whole;
