//! Growing: what the parts of a program ask of an annotation is met step by step, up to the first conflict.
#![tactic(auto)]

mod block;
mod call;
mod calling;
mod grow;
mod meet;
mod part;
mod stop;
mod tied;

pub use block::grow_block;
pub use grow::grow_part;
pub use meet::{News, is_spot};
pub use part::{OpPlace, Part, Piece, Way};
pub use stop::Stop;
pub use tied::grow_ties;
