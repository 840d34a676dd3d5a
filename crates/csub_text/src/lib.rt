//! What bytes are the text of a C file, and that they are so of one file alone.
#![tactic(auto)]

mod places;

ghost use Rattle.csub_text.specs.Laws.{DeadIsNoText, OneDeadLine, OneFile};

pub use places::Place;

/// The spelling of a file is the text of that file and of no other.
pub fn spelling_is_of_one_file()
    ensures { OneFile }
{}

/// Bytes with a dead line are the text of no file.
pub fn dead_bytes_are_no_text()
    ensures { DeadIsNoText }
{}

/// No bytes have two dead lines.
pub fn dead_line_is_one()
    ensures { OneDeadLine }
{}
