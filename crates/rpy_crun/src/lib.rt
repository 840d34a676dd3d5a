//! The command that runs a C file, and what is said of a run.
#![tactic(auto)]

mod command;

pub use command::{
    C_LIMIT, CWork, arguments, crun, outcome_line, outcome_status, run_text, say_ran, say_spent,
};
