// The command that runs a program by its C text.
ghost use Rattle.std.specs.Prelude.{◌≡◌, map, length, nat_le, All, true};
ghost use Rattle.rpy_base.specs.Watching.{IsFresh};
ghost use Rattle.rpy_edge.specs.Edge.{sunk, filed};
ghost use Rattle.rpy_words.specs.Command.{are_sources, words_of};
ghost use Rattle.rpy_top.specs.Running as spec;

use crate::building::{BuildWork, file_at, make, say_work};
use rpy_base::{Files, HeapWatch, Sink, Text};
use rpy_crun::{CWork, run_text, say_ran};
use rpy_edge::{Status, say};
use rpy_words::{RunAsked, Task};
use std::alloc::Global;

/// What came of the work on a program that is run: there is no C text to run, or this is what came
/// of it.
#[derive(Drop)]
pub enum RunWork {
    Unmade(BuildWork),
    OfText(CWork),
}

fn work_of<F: Files, K: Sink>(
    alloc: Global,
    asked: &RunAsked<'_>,
    files: &mut F,
    out: &mut K,
    watch: &mut Vec<Box<dyn HeapWatch>>,
) -> RunWork
    requires fresh { All IsFresh (map (λ w. seen w) watch.old.items) }
    requires named { are_sources asked.now.files.now ≡ true }
    ensures held { F.held files.new ≡ F.held files.old }
    ensures works { spec.WorksRun result (words_of asked.now) (filed F.held F.faults files.old files.new) (sunk K.faults K.taken out.old out.new)
        (map (λ w. seen w) watch.old.items) (map (λ w. seen w) watch.new.items) }
{
    match make(alloc, Task::Build, asked.files, files) {
        Ok(text) => RunWork::OfText(run_text(alloc, &text, asked, out, watch)),
        Err(work) => RunWork::Unmade(work),
    }
}

fn say_of_text<E: Sink>(
    alloc: Global,
    work: &CWork,
    asked: &RunAsked<'_>,
    watch: &Vec<Box<dyn HeapWatch>>,
    err: &mut E,
) -> Status
    ensures { spec.SaidOfText work.now result (words_of asked.now) (map (λ w. seen w) watch.now.items) (sunk E.faults E.taken err.old err.new) }
{
    match work {
        CWork::Unread(why) => say(alloc, *why, file_at(asked.files, 0), err),
        // No text that is written here is known to be refused.
        CWork::Refused(_) | CWork::Starved => Status::NoMem,
        CWork::Ran(ran) => say_ran(alloc, ran, asked, watch, err),
    }
}

/// Says what came of the work on a program that is run.
pub fn say_run<E: Sink>(
    alloc: Global,
    work: RunWork,
    asked: &RunAsked<'_>,
    watch: &Vec<Box<dyn HeapWatch>>,
    err: &mut E,
) -> Status
    ensures { spec.SaidRun work result (words_of asked.now) (map (λ w. seen w) watch.now.items) (sunk E.faults E.taken err.old err.new) }
{
    match work {
        RunWork::Unmade(work) => say_work(alloc, work, asked.files, err),
        RunWork::OfText(work) => say_of_text(alloc, &work, asked, watch, err),
    }
}

/// Runs the program of files by its C text, and says how it ended.
pub fn run<F: Files, K: Sink, E: Sink>(
    alloc: Global,
    asked: &RunAsked<'_>,
    files: &mut F,
    out: &mut K,
    err: &mut E,
    watch: &mut Vec<Box<dyn HeapWatch>>,
) -> Status
    requires fresh { All IsFresh (map (λ w. seen w) watch.old.items) }
    requires named { are_sources asked.now.files.now ≡ true }
    ensures held { F.held files.new ≡ F.held files.old }
    ensures answers { spec.AnswersProgram result (words_of asked.now) (filed F.held F.faults files.old files.new)
        (sunk K.faults K.taken out.old out.new) (sunk E.faults E.taken err.old err.new)
        (map (λ w. seen w) watch.old.items) (map (λ w. seen w) watch.new.items) }
{
    let work = work_of(alloc, asked, files, out, watch);
    say_run(alloc, work, asked, watch, err)
}
