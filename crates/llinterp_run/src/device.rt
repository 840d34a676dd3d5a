// Arguments, output and the ends of runs.
use crate::machine::{Code, Machine, Next, graph_at};
use crate::val::{Val, byte_in, word_in};
use csub_tree::StuckReason;
use ll_code::LlType;
use rpy_base::{FailName, NoMem, Outcome, Text};
use std::alloc::Global;

fn argument(args: &[Text], i: i64) -> Option<&Text> {
    if i < 0 {
        return None;
    }
    args.get(i as usize)
}

fn argument_byte(text: &Text, j: i64) -> Option<u8> {
    if j < 0 {
        return None;
    }
    text.bytes().get(j as usize).copied()
}

fn fail_name(number: u32) -> Option<FailName> {
    match number {
        1 => Some(FailName::Index),
        2 => Some(FailName::ZeroDivision),
        3 => Some(FailName::Value),
        4 => Some(FailName::Attribute),
        5 => Some(FailName::NegativeSlice),
        _ => None,
    }
}

/// A failure, by its number.
pub fn fail(number: u32) -> Next {
    match fail_name(number) {
        None => Next::Stuck(StuckReason::Outside),
        Some(name) => Next::Ends(Outcome::Failed(name)),
    }
}

// The bytes that these items hold, where each is set.
fn bytes_in(alloc: Global, items: &Vec<Val>) -> Result<Option<Text>, NoMem> {
    let mut bytes = Text::new(alloc);
    for item in items {
        match byte_in(*item) {
            Some(byte) => bytes.push(byte)?,
            None => return Ok(None),
        }
    }
    Ok(Some(bytes))
}

impl Machine {
    pub fn arg_count(&mut self, code: Code<'_>, a: u64) -> Next {
        match i64::try_from(code.args.len()) {
            Ok(count) => self.assign(a, Val::Word(count)),
            Err(_) => Next::Stuck(StuckReason::Argument),
        }
    }

    pub fn arg_len(&mut self, code: Code<'_>, a: u64, i: Val) -> Next {
        let Some(i) = word_in(i) else {
            return Next::Stuck(StuckReason::Unset);
        };
        let Some(text) = argument(code.args, i) else {
            return Next::Stuck(StuckReason::Argument);
        };
        match i64::try_from(text.bytes().len()) {
            Ok(count) => self.assign(a, Val::Word(count)),
            Err(_) => Next::Stuck(StuckReason::Argument),
        }
    }

    pub fn arg(&mut self, code: Code<'_>, a: u64, i: Val, j: Val) -> Next {
        let Some(i) = word_in(i) else {
            return Next::Stuck(StuckReason::Unset);
        };
        let Some(j) = word_in(j) else {
            return Next::Stuck(StuckReason::Unset);
        };
        let Some(text) = argument(code.args, i) else {
            return Next::Stuck(StuckReason::Argument);
        };
        match argument_byte(text, j) {
            None => Next::Stuck(StuckReason::Argument),
            Some(byte) => self.assign(a, Val::Word(byte as i64)),
        }
    }

    /// A byte of the output.
    pub fn put_byte(&self, x: Val) -> Next {
        let Some(byte) = word_in(x) else {
            return Next::Stuck(StuckReason::Unset);
        };
        if byte < 0 || 255 < byte {
            return Next::Stuck(StuckReason::Word);
        }
        Next::Puts(byte as u8)
    }

    fn type_in(&self, code: Code<'_>, a: u64) -> Option<LlType> {
        graph_at(code.program, self.graph)?
            .types
            .get(a as usize)
            .copied()
    }

    /// The end of the run as raised, with the items of a block as the name.
    pub fn raised(&self, alloc: Global, code: Code<'_>, a: u64) -> Result<Next, NoMem> {
        let Some(LlType::Ptr(kind)) = self.type_in(code, a) else {
            return Ok(Next::Stuck(StuckReason::Outside));
        };
        match self.reached(code, kind, self.variable(a)) {
            Err(reason) => Ok(Next::Stuck(reason)),
            Ok(cells) => match bytes_in(alloc, &cells.items)? {
                None => Ok(Next::Stuck(StuckReason::Unset)),
                Some(name) => Ok(Next::Ends(Outcome::Raised(name))),
            },
        }
    }
}
