//! Laws of whole programs that have types.
#![tactic(auto)]

mod laws;

pub use laws::{
    made_runs_are_never_wrong, programs_of_texts_are_whole, programs_with_types_are_never_wrong,
    runs_are_sound, runs_are_told, types_are_settled,
};
