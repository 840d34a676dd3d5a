//! Operations on words, truth values, strings and tuples do what they are in the meaning of programs once they are
//! lowered: in every low-level program, whatever comes behind them in their block and whatever waits. Some are a few
//! low-level operations (`_followed`), others a call of a helper (`_helped`), and others ask for several helpers, make a
//! tuple, or raise (`_done`).
#![tactic(auto)]

mod done;
mod laws;

pub use done::{
    checked_words_are_done, copies_are_done, covered_words_are_done, first_laws_are_laws,
    identity_is_done, mixed_texts_are_done, numbers_of_texts_are_done, prints_are_done,
    texts_are_done, tuples_are_done, values_are_held,
};
pub use laws::{
    bits_are_followed, comparisons_are_followed, comparisons_are_helped, flags_are_followed,
    kinds_have_types, methods_are_helped, numbers_are_helped, strings_are_helped,
    words_are_followed,
};
