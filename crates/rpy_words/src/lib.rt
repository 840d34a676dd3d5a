//! The words of a call: the command that they fit, and what there is to do for it.
#![tactic(auto)]

mod job;
mod names;
mod words;

pub use job::{Job, Task, job_of};
pub use words::{
    Command, DEFAULT_STEPS, RunAsked, RunWords, WordsFault, are_module_names, module_name,
    read_words,
};
