// Reading files, and writing lines.
ghost use Rattle.std.specs.Prelude.{◌≡◌, ◌++◌, IfOk, codes};
ghost use Rattle.rpy_edge.specs.declared.status.Status.{Status};
ghost use Rattle.rpy_edge.specs.Edge.{sunk, filed, Says, PutEnds, Loads, line};

use crate::status::Status;
use rpy_base::{Files, Got, NoMem, PutError, ReadError, Sink, Text};
use std::alloc::Global;

/// Puts all of a text.
pub fn put<K: Sink>(sink: &mut K, text: &[u8]) -> Result<(), Status>
    ensures { PutEnds result text.now (sunk K.faults K.taken sink.old sink.new) }
{
    match sink.put(text) {
        Ok(()) => Ok(()),
        Err(PutError::Failed) => Err(Status::WriteFault),
        Err(PutError::NoMem) => Err(Status::NoMem),
    }
}

/// The bytes of a file, which may have at most so many.
pub fn load<F: Files>(alloc: Global, files: &mut F, name: &Text, most: u64) -> Result<Text, Status>
    ensures held { F.held files.new ≡ F.held files.old }
    ensures loads { Loads most result name.now (filed F.held F.faults files.old files.new) }
{
    let mut bytes = Vec::new(alloc);
    match files.read(alloc, name, &mut bytes, most) {
        Ok(Got::Whole) => Ok(Text::from_vec(bytes)),
        Ok(Got::TooLong) => Err(Status::TooLong),
        Ok(Got::Missing) => Err(Status::NoFile),
        Err(ReadError::Failed) => Err(Status::NotRead),
        Err(ReadError::NoMem) => Err(Status::NoMem),
    }
}

/// Two byte strings in a row.
pub fn joined(alloc: Global, start: &[u8], end: &[u8]) -> Result<Text, NoMem>
    ensures { IfOk result (λ text. text ≡ start.now ++ end.now) }
{
    let mut text = Text::from_bytes(alloc, start)?;
    text.append(end)?;
    Ok(text)
}

// The line for a status, of this file; empty where nothing is to be written.
fn line_of(alloc: Global, status: Status, file: &[u8]) -> Result<Text, NoMem>
    ensures { IfOk result (λ text. text ≡ line status file.now) }
{
    match status {
        Status::Usage => {
            Text::from_bytes(alloc, b"usage: rpy COMMAND [OPTION..] FILE.. [-- ARG..]\n")
        }
        Status::NoFile => joined(alloc, file, b": no such file\n"),
        Status::NotRead => joined(alloc, file, b": not read\n"),
        Status::TooLong => joined(alloc, file, b": too long\n"),
        Status::TooMany => Text::from_bytes(alloc, b"too many files\n"),
        Status::Done
        | Status::NotSource
        | Status::NotProgram
        | Status::Conflicting
        | Status::Untyped
        | Status::NotC
        | Status::Stuck
        | Status::WriteFault
        | Status::Raised
        | Status::Failed
        | Status::Running
        | Status::NoMem
        | Status::WorkSpent => Ok(Text::new(alloc)),
    }
}

// Puts a line, if there is one.
fn put_line<E: Sink>(err: &mut E, text: &Text) -> Result<(), Status>
    ensures { PutEnds result text.now (sunk E.faults E.taken err.old err.new) }
{
    if text.bytes().is_empty() {
        Ok(())
    } else {
        put(err, text.bytes())
    }
}

/// Writes a text, where it is not empty, and answers the status.
pub fn say_text<E: Sink>(status: Status, text: &Text, err: &mut E) -> Status
    ensures { Says status result text.now (sunk E.faults E.taken err.old err.new) }
{
    match put_line(err, text) {
        Ok(()) => status,
        Err(fault) => fault,
    }
}

/// Writes the line for a status, of this file; where there is none nothing is put.
pub fn say<E: Sink>(alloc: Global, status: Status, file: &[u8], err: &mut E) -> Status
    ensures { Says status result (line status file.now) (sunk E.faults E.taken err.old err.new) }
{
    match line_of(alloc, status, file) {
        Err(NoMem) => Status::NoMem,
        Ok(text) => say_text(status, &text, err),
    }
}
