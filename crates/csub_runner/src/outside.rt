// Arguments, names and failures.
ghost use Rattle.std.specs.Prelude.{◌≡◌, IfOk, Some};
ghost use Rattle.std.specs.Option.{option_copied};
ghost use Rattle.csub_tree.specs.Statement.{argument as argument_at, byte_in as byte_at, bytes_of, fail_name_of};
ghost use Rattle.csub_runner.specs.Erased.{erase_all};

use crate::val::{Val, byte_in};
use rpy_base::{FailName, NoMem, Text};
use std::alloc::Global;

pub fn argument(args: &[Text], i: i64) -> Option<&Text>
    ensures { option_copied result ≡ argument_at args.now i }
{
    if i < 0 {
        return None;
    }
    args.get(i as usize)
}

pub fn argument_byte(text: &Text, j: i64) -> Option<u8>
    ensures { result ≡ byte_at (Some text.now) j }
{
    if j < 0 {
        return None;
    }
    text.bytes().get(j as usize).copied()
}

/// The bytes that these items hold, where each is set.
pub fn bytes_in(alloc: Global, items: &Vec<Val>) -> Result<Option<Text>, NoMem>
    ensures { IfOk result (λ name. name ≡ bytes_of (erase_all items.now.items)) }
{
    let mut bytes = Text::new(alloc);
    for item in items {
        match byte_in(*item) {
            Some(byte) => bytes.push(byte)?,
            None => return Ok(None),
        }
    }
    Ok(Some(bytes))
}

pub fn fail_name(number: u32) -> Option<FailName>
    ensures { result ≡ fail_name_of number }
{
    match number {
        1 => Some(FailName::Index),
        2 => Some(FailName::ZeroDivision),
        3 => Some(FailName::Value),
        4 => Some(FailName::Attribute),
        5 => Some(FailName::NegativeSlice),
        _ => None,
    }
}
