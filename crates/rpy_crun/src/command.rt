// The command that runs a C file.
ghost use Rattle.std.specs.Prelude.{◌≡◌, ◌++◌, ◌∷◌, [], map, All, IfOk, OnOk, OnErr, codes};
ghost use Rattle.rpy_base.specs.Outcomes as base;
ghost use Rattle.rpy_base.specs.Watching.{IsFresh};
ghost use Rattle.rpy_edge.specs.Edge.{sunk, filed, Says};
ghost use Rattle.rpy_words.specs.Command.{words_of};
ghost use Rattle.rpy_crun.specs.Running as spec;
ghost use Rattle.rpy_edge.specs.declared.status.Status.TheVariants as status;

use csub_reader::{CFault, read_c};
use csub_runner::{CRan, RunFault, run_c};
use csub_tree::{CFile, StuckReason};
use rpy_base::{FailName, Files, HeapWatch, NoMem, Outcome, Sink, Text, decimal, udecimal};
use rpy_edge::{Status, load, say, say_text};
use rpy_words::RunAsked;
use std::alloc::Global;

/// How many bytes a C file may have.
pub const C_LIMIT: u64 = 67_108_864;

/// What came of the work on a C file: it was not read, for the reason of this status; its bytes
/// are no C file that keeps the rules; there was no memory; or it was run.
#[derive(Drop)]
pub enum CWork {
    Unread(Status),
    Refused(CFault),
    Starved,
    Ran(Result<CRan, RunFault>),
}

// ---- lines

fn reason_number(reason: StuckReason) -> u64
    ensures { result ≡ spec.reason_number reason }
{
    match reason {
        StuckReason::Gone => 1,
        StuckReason::Kind => 2,
        StuckReason::Outside => 3,
        StuckReason::Unset => 4,
        StuckReason::BadFree => 5,
        StuckReason::Signature => 6,
        StuckReason::Word => 7,
        StuckReason::Length => 8,
        StuckReason::Cost => 9,
        StuckReason::Argument => 10,
    }
}

fn fail_name(name: FailName) -> &'static [u8]
    ensures { result.now ≡ base.fail_name name }
{
    match name {
        FailName::Index => b"IndexError".as_slice(),
        FailName::ZeroDivision => b"ZeroDivisionError".as_slice(),
        FailName::Value => b"ValueError".as_slice(),
        FailName::Attribute => b"AttributeError".as_slice(),
        FailName::NegativeSlice => b"NegativeSlice".as_slice(),
    }
}

// A line of two parts.
fn line_with(alloc: Global, start: &[u8], end: &[u8]) -> Result<Text, NoMem>
    ensures { IfOk result (λ text. text ≡ start.now ++ end.now ++ codes "\n") }
{
    let mut text = Text::from_bytes(alloc, start)?;
    text.append(end)?;
    text.append(b"\n")?;
    Ok(text)
}

/// The line that tells how a run ended.
pub fn outcome_line(alloc: Global, outcome: &Outcome) -> Result<Text, NoMem>
    ensures { IfOk result (λ text. text ≡ spec.outcome_line outcome.now) }
{
    match outcome {
        Outcome::Returned(word) => {
            line_with(alloc, b"returned ", decimal(alloc, *word)?.bytes())
        }
        Outcome::Raised(name) => line_with(alloc, b"raised ", name.bytes()),
        Outcome::Failed(name) => line_with(alloc, b"failed ", fail_name(*name)),
        Outcome::Running => Text::from_bytes(alloc, b"steps spent\n"),
    }
}

/// The status of an ending.
pub fn outcome_status(outcome: &Outcome) -> Status
    ensures { result ≡ spec.outcome_status outcome.now }
{
    match outcome {
        Outcome::Returned(_) => Status::Done,
        Outcome::Raised(_) => Status::Raised,
        Outcome::Failed(_) => Status::Failed,
        Outcome::Running => Status::Running,
    }
}

fn stuck_line(alloc: Global, reason: StuckReason, statement: u64) -> Result<Text, NoMem>
    ensures { IfOk result (λ text. text ≡ spec.stuck_line reason statement) }
{
    let mut text = Text::from_bytes(alloc, b"stuck ")?;
    text.append(udecimal(alloc, reason_number(reason))?.bytes())?;
    text.append(b" at statement ")?;
    text.append(udecimal(alloc, statement)?.bytes())?;
    text.append(b"\n")?;
    Ok(text)
}

fn not_text_line(alloc: Global, file: &[u8], line: u64) -> Result<Text, NoMem>
    ensures { IfOk result (λ text. text ≡ spec.not_text_line file.now line) }
{
    let mut text = Text::from_bytes(alloc, file)?;
    text.append(b":")?;
    text.append(udecimal(alloc, line)?.bytes())?;
    text.append(b": not C-sub\n")?;
    Ok(text)
}

fn not_checked_line(alloc: Global, file: &[u8], declaration: u64) -> Result<Text, NoMem>
    ensures { IfOk result (λ text. text ≡ spec.not_checked_line file.now declaration) }
{
    let mut text = Text::from_bytes(alloc, file)?;
    text.append(b": declaration ")?;
    text.append(udecimal(alloc, declaration)?.bytes())?;
    text.append(b" not checked\n")?;
    Ok(text)
}

// ---- reports

fn is_asked(asked: &RunAsked<'_>, name: &[u8]) -> bool
    ensures { result ≡ spec.is_asked (words_of asked.now) name.now }
{
    (asked.tally && name == b"tally".as_slice()) || (asked.leaks && name == b"leaks".as_slice())
}

// Adds the report of a watcher, if an option asks for it.
fn add_report(
    alloc: Global,
    asked: &RunAsked<'_>,
    watcher: &Box<dyn HeapWatch>,
    text: &mut Text,
) -> Result<(), NoMem>
    ensures ok { OnOk result (spec.Adds (spec.is_asked (words_of asked.now) (seen watcher.now).name) (seen watcher.now) text.old text.new) }
    ensures err { OnErr result (text.new ≡ text.old) }
{
    if is_asked(asked, watcher.name()) {
        let report = watcher.report(alloc)?;
        text.append(report.bytes())?;
    }
    Ok(())
}

// Adds the reports that options ask for, until memory is wanting; tells whether all are there.
fn add_reports(
    alloc: Global,
    asked: &RunAsked<'_>,
    watch: &Vec<Box<dyn HeapWatch>>,
    text: &mut Text,
) -> bool
    ensures { spec.AddsReports result (spec.asked_of (words_of asked.now) (map (λ w. seen w) watch.now.items)) text.old text.new }
{
    for i in 0..watch.len() {
        match add_report(alloc, asked, &watch[i], text) {
            Ok(()) => (),
            Err(NoMem) => return false,
        }
    }
    true
}

fn if_whole(whole: bool, worked: Status) -> Status
    ensures { result ≡ spec.if_whole whole worked }
{
    if whole { worked } else { Status::NoMem }
}

// Writes a line and the reports behind it.
fn say_reports<E: Sink>(
    alloc: Global,
    worked: Status,
    text: Text,
    asked: &RunAsked<'_>,
    watch: &Vec<Box<dyn HeapWatch>>,
    err: &mut E,
) -> Status
    ensures { spec.Reported worked result text (spec.asked_of (words_of asked.now) (map (λ w. seen w) watch.now.items)) (sunk E.faults E.taken err.old err.new) }
{
    let mut text = text;
    let whole = add_reports(alloc, asked, watch, &mut text);
    say_text(if_whole(whole, worked), &text, err)
}

// ---- what is said

fn say_outcome<E: Sink>(
    alloc: Global,
    outcome: &Outcome,
    asked: &RunAsked<'_>,
    watch: &Vec<Box<dyn HeapWatch>>,
    err: &mut E,
) -> Status
    ensures { spec.Reported (spec.outcome_status outcome.now) result (spec.outcome_line outcome.now)
        (spec.asked_of (words_of asked.now) (map (λ w. seen w) watch.now.items)) (sunk E.faults E.taken err.old err.new) }
{
    match outcome_line(alloc, outcome) {
        Ok(text) => say_reports(alloc, outcome_status(outcome), text, asked, watch, err),
        Err(NoMem) => Status::NoMem,
    }
}

fn say_stuck<E: Sink>(alloc: Global, reason: StuckReason, statement: u64, err: &mut E) -> Status
    ensures { Says status.Stuck result (spec.stuck_line reason statement) (sunk E.faults E.taken err.old err.new) }
{
    match stuck_line(alloc, reason, statement) {
        Ok(text) => say_text(Status::Stuck, &text, err),
        Err(NoMem) => Status::NoMem,
    }
}

fn spent_line(alloc: Global) -> Result<Text, NoMem>
    ensures { IfOk result (λ text. text ≡ spec.spent_line) }
{
    Text::from_bytes(alloc, b"work spent\n")
}

/// Says that the work was spent.
pub fn say_spent<E: Sink>(alloc: Global, err: &mut E) -> Status
    ensures { Says status.WorkSpent result spec.spent_line (sunk E.faults E.taken err.old err.new) }
{
    match spent_line(alloc) {
        Ok(text) => say_text(Status::WorkSpent, &text, err),
        Err(NoMem) => Status::NoMem,
    }
}

/// Says how a run of a C file ended, with the reports that options ask for.
pub fn say_ran<E: Sink>(
    alloc: Global,
    ran: &Result<CRan, RunFault>,
    asked: &RunAsked<'_>,
    watch: &Vec<Box<dyn HeapWatch>>,
    err: &mut E,
) -> Status
    ensures { spec.SaidRan ran.now result (words_of asked.now) (map (λ w. seen w) watch.now.items) (sunk E.faults E.taken err.old err.new) }
{
    match ran {
        Ok(ran) => say_outcome(alloc, &ran.outcome, asked, watch, err),
        Err(RunFault::Stuck(reason, statement)) => say_stuck(alloc, *reason, *statement, err),
        Err(RunFault::WriteFault) => Status::WriteFault,
        Err(RunFault::WorkSpent) => say_spent(alloc, err),
        Err(RunFault::NoMem) => Status::NoMem,
    }
}

fn say_not_text<E: Sink>(alloc: Global, file: &[u8], line: u64, err: &mut E) -> Status
    ensures { Says status.NotC result (spec.not_text_line file.now line) (sunk E.faults E.taken err.old err.new) }
{
    match not_text_line(alloc, file, line) {
        Ok(text) => say_text(Status::NotC, &text, err),
        Err(NoMem) => Status::NoMem,
    }
}

fn say_not_checked<E: Sink>(alloc: Global, file: &[u8], declaration: u64, err: &mut E) -> Status
    ensures { Says status.NotC result (spec.not_checked_line file.now declaration) (sunk E.faults E.taken err.old err.new) }
{
    match not_checked_line(alloc, file, declaration) {
        Ok(text) => say_text(Status::NotC, &text, err),
        Err(NoMem) => Status::NoMem,
    }
}

fn say_refused<E: Sink>(alloc: Global, why: CFault, file: &[u8], err: &mut E) -> Status
    ensures { spec.SaidRefused why result file.now (sunk E.faults E.taken err.old err.new) }
{
    match why {
        CFault::NotText(line) => say_not_text(alloc, file, line, err),
        CFault::NotChecked(declaration) => say_not_checked(alloc, file, declaration, err),
        CFault::NoMem => Status::NoMem,
    }
}

fn say_work<E: Sink>(
    alloc: Global,
    work: &CWork,
    file: &Text,
    asked: &RunAsked<'_>,
    watch: &Vec<Box<dyn HeapWatch>>,
    err: &mut E,
) -> Status
    ensures { spec.SaidC work.now result file.now (words_of asked.now) (map (λ w. seen w) watch.now.items) (sunk E.faults E.taken err.old err.new) }
{
    match work {
        CWork::Unread(why) => say(alloc, *why, file.bytes(), err),
        CWork::Refused(why) => say_refused(alloc, *why, file.bytes(), err),
        CWork::Starved => Status::NoMem,
        CWork::Ran(ran) => say_ran(alloc, ran, asked, watch, err),
    }
}

// ---- the work

/// The words that a program is given: its name, and the arguments.
pub fn arguments(alloc: Global, args: &[Text]) -> Result<Vec<Text>, NoMem>
    ensures { IfOk result (λ made. made.items ≡ codes "program" ∷ args.now) }
{
    let mut made = Vec::new(alloc);
    made.push(Text::from_bytes(alloc, b"program")?)?;
    for arg in args {
        made.push(arg.copy(alloc)?)?;
    }
    Ok(made)
}

fn run_file<K: Sink>(
    alloc: Global,
    file: &CFile,
    asked: &RunAsked<'_>,
    out: &mut K,
    watch: &mut Vec<Box<dyn HeapWatch>>,
) -> CWork
    requires { All IsFresh (map (λ w. seen w) watch.old.items) }
    ensures { spec.RunsFile result file.now (words_of asked.now) (sunk K.faults K.taken out.old out.new) (map (λ w. seen w) watch.old.items) (map (λ w. seen w) watch.new.items) }
{
    match arguments(alloc, asked.args) {
        Ok(args) => CWork::Ran(run_c(alloc, file, args.as_slice(), asked.steps, out, watch)),
        Err(NoMem) => CWork::Starved,
    }
}

/// Runs the C file whose text this is, where it is one that keeps the rules.
pub fn run_text<K: Sink>(
    alloc: Global,
    text: &Text,
    asked: &RunAsked<'_>,
    out: &mut K,
    watch: &mut Vec<Box<dyn HeapWatch>>,
) -> CWork
    requires { All IsFresh (map (λ w. seen w) watch.old.items) }
    ensures { spec.RunsBytes result text.now (words_of asked.now) (sunk K.faults K.taken out.old out.new) (map (λ w. seen w) watch.old.items) (map (λ w. seen w) watch.new.items) }
{
    match read_c(alloc, text) {
        Ok(file) => run_file(alloc, &file, asked, out, watch),
        Err(why) => CWork::Refused(why),
    }
}

fn work_of<F: Files, K: Sink>(
    alloc: Global,
    file: &Text,
    asked: &RunAsked<'_>,
    files: &mut F,
    out: &mut K,
    watch: &mut Vec<Box<dyn HeapWatch>>,
) -> CWork
    requires { All IsFresh (map (λ w. seen w) watch.old.items) }
    ensures held { F.held files.new ≡ F.held files.old }
    ensures works { spec.WorksC result file.now (words_of asked.now) (filed F.held F.faults files.old files.new) (sunk K.faults K.taken out.old out.new)
        (map (λ w. seen w) watch.old.items) (map (λ w. seen w) watch.new.items) }
{
    match load(alloc, files, file, C_LIMIT) {
        Ok(text) => run_text(alloc, &text, asked, out, watch),
        Err(why) => CWork::Unread(why),
    }
}

/// Runs a C file, and says how it ended.
pub fn crun<F: Files, K: Sink, E: Sink>(
    alloc: Global,
    file: &Text,
    asked: &RunAsked<'_>,
    files: &mut F,
    out: &mut K,
    err: &mut E,
    watch: &mut Vec<Box<dyn HeapWatch>>,
) -> Status
    requires { All IsFresh (map (λ w. seen w) watch.old.items) }
    ensures held { F.held files.new ≡ F.held files.old }
    ensures answers { spec.AnswersRun result file.now (words_of asked.now) (filed F.held F.faults files.old files.new)
        (sunk K.faults K.taken out.old out.new) (sunk E.faults E.taken err.old err.new)
        (map (λ w. seen w) watch.old.items) (map (λ w. seen w) watch.new.items) }
{
    let work = work_of(alloc, file, asked, files, out, watch);
    say_work(alloc, &work, file, asked, watch, err)
}
