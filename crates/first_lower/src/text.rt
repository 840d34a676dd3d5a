// A program of the first path to its C text.
ghost use Rattle.std.specs.Prelude.{◌≡◌, ◌++◌, IfOk, codes};
ghost use Rattle.first_lower.specs.Lower.{text_of};

use crate::lower::lower;
use genc_writer::write_c;
use rpy_base::{NoMem, Text};
use rpy_first::Body;
use std::alloc::Global;

// The name of the C function that is the program.
fn entry_name(alloc: Global, name: &[u8]) -> Result<Text, NoMem>
    ensures { IfOk result (λ text. text ≡ name.now ++ codes ".entry_point") }
{
    let mut text = Text::from_bytes(alloc, name)?;
    text.append(b".entry_point")?;
    Ok(text)
}

/// The C text of the program that a body of this module's name is.
pub fn write_program(alloc: Global, name: &[u8], body: &Body) -> Result<Text, NoMem>
    ensures { IfOk result (λ text. text ≡ text_of name.now body.now) }
{
    let file = lower(alloc, entry_name(alloc, name)?, body)?;
    write_c(alloc, &file)
}
