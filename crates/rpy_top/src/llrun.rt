// The command that runs a program by its low-level program.
ghost use Rattle.std.specs.Prelude.{◌≡◌, ◌∷◌, true};
ghost use Rattle.rpy_edge.specs.Edge.{sunk, filed};
ghost use Rattle.rpy_words.specs.Command.{are_sources, words_of};
ghost use Rattle.rpy_top.specs.Running as spec;

use crate::building::{BuildWork, make_low, say_work};
use ll_code::LlProgram;
use llinterp_run::{LlFault, run_ll};
use rpy_base::{Files, NoMem, Outcome, Sink};
use rpy_crun::{arguments, outcome_line, outcome_status, say_spent};
use rpy_edge::{Status, say_text};
use rpy_words::RunAsked;
use std::alloc::Global;

/// What came of the work: there is no low-level program to run, there was no memory to begin, or it was
/// run.
#[derive(Drop)]
pub enum LlWork {
    Unmade(BuildWork),
    Starved,
    Ran(Result<Outcome, LlFault>),
}

fn run_program<K: Sink>(
    alloc: Global,
    program: &LlProgram,
    asked: &RunAsked<'_>,
    out: &mut K,
) -> LlWork
    ensures { spec.RunsLow result (sunk K.faults K.taken out.old out.new) }
{
    match arguments(alloc, asked.args) {
        Ok(args) => LlWork::Ran(run_ll(alloc, program, args.as_slice(), asked.steps, out)),
        Err(NoMem) => LlWork::Starved,
    }
}

fn work_of<F: Files, K: Sink>(
    alloc: Global,
    asked: &RunAsked<'_>,
    files: &mut F,
    out: &mut K,
) -> LlWork
    requires { are_sources asked.now.files.now ≡ true }
    ensures held { F.held files.new ≡ F.held files.old }
    ensures works { spec.WorksLow result (words_of asked.now) (filed F.held F.faults files.old files.new) (sunk K.faults K.taken out.old out.new) }
{
    match make_low(alloc, asked.files, files) {
        Ok(program) => run_program(alloc, &program, asked, out),
        Err(work) => LlWork::Unmade(work),
    }
}

fn say_outcome<E: Sink>(alloc: Global, outcome: &Outcome, err: &mut E) -> Status
    ensures { spec.SaidOutcome outcome.now result (sunk E.faults E.taken err.old err.new) }
{
    match outcome_line(alloc, outcome) {
        Ok(text) => say_text(outcome_status(outcome), &text, err),
        Err(NoMem) => Status::NoMem,
    }
}

fn say_ran<E: Sink>(alloc: Global, ran: &Result<Outcome, LlFault>, err: &mut E) -> Status
    ensures { spec.SaidLow ran.now result (sunk E.faults E.taken err.old err.new) }
{
    match ran {
        Ok(outcome) => say_outcome(alloc, outcome, err),
        Err(LlFault::WriteFault) => Status::WriteFault,
        Err(LlFault::WorkSpent) => say_spent(alloc, err),
        Err(LlFault::NoMem) => Status::NoMem,
    }
}

/// Runs the program of files by its low-level program, and says how it ended.
pub fn llrun<F: Files, K: Sink, E: Sink>(
    alloc: Global,
    asked: &RunAsked<'_>,
    files: &mut F,
    out: &mut K,
    err: &mut E,
) -> Status
    requires { are_sources asked.now.files.now ≡ true }
    ensures held { F.held files.new ≡ F.held files.old }
    ensures answers { spec.AnswersLow result (words_of asked.now) (filed F.held F.faults files.old files.new)
        (sunk K.faults K.taken out.old out.new) (sunk E.faults E.taken err.old err.new) }
{
    match work_of(alloc, asked, files, out) {
        LlWork::Unmade(work) => say_work(alloc, work, asked.files, err),
        LlWork::Starved => Status::NoMem,
        LlWork::Ran(ran) => say_ran(alloc, &ran, err),
    }
}
