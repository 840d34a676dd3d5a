// The work on files: what is written of their program, or what stops it.
ghost use Rattle.std.specs.Prelude.{◌≡◌, ◌≤◌, ◌<◌, ◌++◌, length, nat_le, true, codes, IfOk};
ghost use Rattle.rpy_first.specs.Source.{line_at};
ghost use Rattle.rpy_compiled.specs.Checks.{words_of};
ghost use Rattle.rpy_words.specs.Command.{are_sources};
ghost use Rattle.rpy_front.specs.Modules.{are_short};
ghost use Rattle.rpy_top.specs.Answer as spec;
ghost use Rattle.rpy_edge.specs.Edge.{sunk, filed, SaysLine};
ghost use Rattle.rpy_top.specs.Answer.{Builds, MakesText, MakesCode, LoadsNext, LoadsAll, LowersFiles, WritesFiles, Said};

use crate::fault::TranslateFault;
use crate::sources::{lower_sources, names_of, write_sources};
use ll_code::LlProgram;
use rpy_base::{Files, NoMem, Seq, Sink, Text};
use rpy_compiled::{TypeKind, type_words};
use rpy_edge::{Status, joined, load, put, say, say_text};
use rpy_first::{NameKind, SourceKind, line_at, refusal};
use rpy_front::{LIMIT, name_refusal};
use rpy_words::Task;
use std::alloc::Global;

/// How many files a program may have.
pub const MOST_FILES: usize = 64;

/// What came of the work on files.
#[derive(Drop)]
pub enum BuildWork {
    Ended(Status),
    /// The file at this place stopped it.
    AtFile(u32, Status),
    /// The file at this place is no module.
    Refused(u32, u32, SourceKind),
    /// The modules make no program, and this file tells why.
    Misnamed(u32, u32, NameKind),
    /// The program has no annotation without conflict.
    Conflicts(u32, u32, Text),
    /// The program has no types.
    Untypable(u32, u32, TypeKind),
}

// What the status of one file is for the work on all.
fn stopped(file: usize, status: Status) -> BuildWork
    requires { file ≤ 64 }
    ensures { result ≡ spec.stopped file status }
{
    match status {
        Status::NoMem => BuildWork::Ended(Status::NoMem),
        _ => BuildWork::AtFile(file as u32, status),
    }
}

// The bytes of one more file.
fn load_next<F: Files>(
    alloc: Global,
    files: &mut F,
    name: &Text,
    sources: &mut Seq<Text>,
) -> Result<(), BuildWork>
    requires { length sources.old ≤ 64 }
    ensures held { F.held files.new ≡ F.held files.old }
    ensures loads { LoadsNext result name.now (filed F.held F.faults files.old files.new) sources.old sources.new }
{
    match load(alloc, files, name, LIMIT) {
        Ok(source) => match sources.push(source) {
            Ok(()) => Ok(()),
            Err(NoMem) => Err(BuildWork::Ended(Status::NoMem)),
        },
        Err(status) => Err(stopped(sources.len(), status)),
    }
}

// The bytes of files.
fn load_all<F: Files>(alloc: Global, files: &mut F, names: &[Text]) -> Result<Seq<Text>, BuildWork>
    requires few { length names.now ≤ 64 }
    ensures held { F.held files.new ≡ F.held files.old }
    ensures loads { LoadsAll result names.now (filed F.held F.faults files.old files.new) }
{
    let mut sources = Seq::new(alloc);
    while let Some(name) = names.get(sources.len()) {
        match load_next(alloc, files, name, &mut sources) {
            Ok(()) => {}
            Err(work) => return Err(work),
        }
    }
    Ok(sources)
}

/// What came of sources that have no text.
pub fn untranslated(fault: TranslateFault) -> BuildWork
    ensures { result ≡ spec.untranslated fault }
{
    match fault {
        TranslateFault::Source(file, line, kind) => BuildWork::Refused(file, line, kind),
        TranslateFault::Name(file, line, kind) => BuildWork::Misnamed(file, line, kind),
        TranslateFault::Conflict(file, line, words) => BuildWork::Conflicts(file, line, words),
        TranslateFault::Typing(file, line, kind) => BuildWork::Untypable(file, line, kind),
        TranslateFault::NoMem => BuildWork::Ended(Status::NoMem),
    }
}

// What is written of the program that sources are, which the names of their files name.
#[tactic(auto, using(rpy_words::proofs::Files::sources_named, rpy_words::proofs::Files::some_sources))]
fn write_files(
    alloc: Global,
    task: Task,
    files: &[Text],
    sources: &[Text],
) -> Result<Text, BuildWork>
    requires named { are_sources files.now ≡ true }
    requires few { length files.now ≤ 64 }
    requires same { length sources.now ≡ length files.now }
    requires short { are_short sources.now ≡ true }
    ensures { WritesFiles task sources.now files.now result }
{
    let names = match names_of(alloc, files) {
        Ok(names) => names,
        Err(NoMem) => return Err(BuildWork::Ended(Status::NoMem)),
    };
    match write_sources(alloc, task, sources, &names) {
        Ok(text) => Ok(text),
        Err(fault) => Err(untranslated(fault)),
    }
}

// The low-level program of the program that sources are, which the names of their files name.
#[tactic(auto, using(rpy_words::proofs::Files::sources_named, rpy_words::proofs::Files::some_sources))]
fn lower_files(alloc: Global, files: &[Text], sources: &[Text]) -> Result<LlProgram, BuildWork>
    requires named { are_sources files.now ≡ true }
    requires few { length files.now ≤ 64 }
    requires same { length sources.now ≡ length files.now }
    requires short { are_short sources.now ≡ true }
    ensures { LowersFiles sources.now files.now result }
{
    let names = match names_of(alloc, files) {
        Ok(names) => names,
        Err(NoMem) => return Err(BuildWork::Ended(Status::NoMem)),
    };
    match lower_sources(alloc, sources, &names) {
        Ok(typed) => Ok(typed),
        Err(fault) => Err(untranslated(fault)),
    }
}

#[tactic(auto, using(crate::proofs::Loading::load_stops, crate::proofs::Loading::shorts, crate::proofs::Loading::text_made))]
fn make_few<F: Files>(
    alloc: Global,
    task: Task,
    names: &[Text],
    files: &mut F,
) -> Result<Text, BuildWork>
    requires named { are_sources names.now ≡ true }
    requires few { length names.now ≤ 64 }
    ensures held { F.held files.new ≡ F.held files.old }
    ensures makes { MakesText task true result names.now (filed F.held F.faults files.old files.new) }
{
    let sources = match load_all(alloc, files, names) {
        Ok(sources) => sources,
        Err(work) => return Err(work),
    };
    write_files(alloc, task, names, sources.as_slice())
}

/// What is written of the program of files, of which there may be 64.
#[tactic(auto, using(crate::proofs::Loading::too_many_text))]
pub fn make<F: Files>(
    alloc: Global,
    task: Task,
    names: &[Text],
    files: &mut F,
) -> Result<Text, BuildWork>
    requires { are_sources names.now ≡ true }
    ensures held { F.held files.new ≡ F.held files.old }
    ensures makes { MakesText task (nat_le (length names.now) 64) result names.now (filed F.held F.faults files.old files.new) }
{
    if names.len() <= MOST_FILES {
        make_few(alloc, task, names, files)
    } else {
        Err(BuildWork::Ended(Status::TooMany))
    }
}

#[tactic(auto, using(crate::proofs::Loading::load_stops, crate::proofs::Loading::shorts, crate::proofs::Loading::code_made))]
fn make_few_low<F: Files>(
    alloc: Global,
    names: &[Text],
    files: &mut F,
) -> Result<LlProgram, BuildWork>
    requires named { are_sources names.now ≡ true }
    requires few { length names.now ≤ 64 }
    ensures held { F.held files.new ≡ F.held files.old }
    ensures makes { MakesCode true result names.now (filed F.held F.faults files.old files.new) }
{
    let sources = match load_all(alloc, files, names) {
        Ok(sources) => sources,
        Err(work) => return Err(work),
    };
    lower_files(alloc, names, sources.as_slice())
}

/// The low-level program of the program of files, of which there may be 64.
#[tactic(auto, using(crate::proofs::Loading::too_many_code))]
pub fn make_low<F: Files>(
    alloc: Global,
    names: &[Text],
    files: &mut F,
) -> Result<LlProgram, BuildWork>
    requires { are_sources names.now ≡ true }
    ensures held { F.held files.new ≡ F.held files.old }
    ensures makes { MakesCode (nat_le (length names.now) 64) result names.now (filed F.held F.faults files.old files.new) }
{
    if names.len() <= MOST_FILES {
        make_few_low(alloc, names, files)
    } else {
        Err(BuildWork::Ended(Status::TooMany))
    }
}

/// The work on files: what is made of them is written.
#[tactic(auto, using(crate::proofs::Loading::put_fails, crate::proofs::Loading::put_ends, crate::proofs::Loading::not_made))]
pub fn write<F: Files, K: Sink>(
    alloc: Global,
    task: Task,
    names: &[Text],
    files: &mut F,
    out: &mut K,
) -> BuildWork
    requires { are_sources names.now ≡ true }
    ensures held { F.held files.new ≡ F.held files.old }
    ensures builds { Builds task (nat_le (length names.now) 64) result names.now (filed F.held F.faults files.old files.new) (sunk K.faults K.taken out.old out.new) }
{
    match make(alloc, task, names, files) {
        Ok(text) => match put(out, text.bytes()) {
            Ok(()) => BuildWork::Ended(Status::Done),
            Err(status) => BuildWork::Ended(status),
        },
        Err(work) => work,
    }
}

/// The name of the file at a place.
pub fn file_at(names: &[Text], file: u32) -> &[u8]
    ensures { result.now ≡ spec.file_at names.now file }
{
    match names.get(file as usize) {
        Some(name) => name.bytes(),
        None => b"",
    }
}

// Writes a line, if there was memory for it.
fn say_line<E: Sink>(status: Status, text: Result<Text, NoMem>, err: &mut E) -> Status
    ensures { SaysLine status result text (sunk E.faults E.taken err.old err.new) }
{
    match text {
        Ok(text) => say_text(status, &text, err),
        Err(NoMem) => Status::NoMem,
    }
}

// The line for a conflict.
fn conflict_line(alloc: Global, file: &[u8], line: u32, words: &Text) -> Result<Text, NoMem>
    ensures { IfOk result (λ text. text ≡ line_at file.now line (codes "conflict: " ++ words.now)) }
{
    let words = joined(alloc, b"conflict: ", words.bytes())?;
    line_at(alloc, file, line, words.bytes())
}

// The line for a program without types.
fn type_line(alloc: Global, file: &[u8], line: u32, kind: TypeKind) -> Result<Text, NoMem>
    ensures { IfOk result (λ text. text ≡ line_at file.now line (words_of kind)) }
{
    line_at(alloc, file, line, type_words(kind))
}

/// Writes the line for what came of the work.
#[tactic(auto, using(rpy_edge::proofs::Lines::said_line))]
pub fn say_work<E: Sink>(alloc: Global, work: BuildWork, names: &[Text], err: &mut E) -> Status
    ensures { Said work result names.now (sunk E.faults E.taken err.old err.new) }
{
    match work {
        BuildWork::Ended(status) => say(alloc, status, b"", err),
        BuildWork::AtFile(file, status) => say(alloc, status, file_at(names, file), err),
        BuildWork::Refused(file, line, kind) => {
            let text = refusal(alloc, file_at(names, file), line, kind);
            say_line(Status::NotSource, text, err)
        }
        BuildWork::Misnamed(file, line, kind) => {
            let text = name_refusal(alloc, file_at(names, file), line, kind);
            say_line(Status::NotProgram, text, err)
        }
        BuildWork::Conflicts(file, line, words) => {
            let text = conflict_line(alloc, file_at(names, file), line, &words);
            say_line(Status::Conflicting, text, err)
        }
        BuildWork::Untypable(file, line, kind) => {
            let text = type_line(alloc, file_at(names, file), line, kind);
            say_line(Status::Untyped, text, err)
        }
    }
}
