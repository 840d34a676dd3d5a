//! From a program with exceptions to its file: what the file has made and freed where its run ends.
#![tactic(auto)]

mod laws;

pub use laws::{
    counts_are_exact, payments_are_counted, raised_files_leave_nothing,
    returned_files_leave_nothing, what_files_leave_is_held,
};
