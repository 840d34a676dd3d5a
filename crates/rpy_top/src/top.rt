// The top call.
ghost use Rattle.std.specs.Prelude.{◌≡◌, ◌≤◌, ◌<◌, length, map, All, true};
ghost use Rattle.rpy_base.specs.Watching.{Seen, IsFresh};
ghost use Rattle.rpy_front.specs.Modules.{are_short};
ghost use Rattle.rpy_words.specs.Command.{command, brought, Writing, are_module_names, are_sources};
ghost use Rattle.rpy_words.specs.declared.job.Task.TheVariants.{Build};
ghost use Rattle.rpy_edge.specs.declared.status.Status.{Status};
ghost use Rattle.rpy_edge.specs.Edge.{code, sunk, filed};
ghost use Rattle.rpy_top.specs.Answer.{Answers, WritesTo};
ghost use Rattle.rpy_top.specs.Running.{AnswersCall, AreLeft};

use crate::building::{BuildWork, say_work, write};
use crate::fault::TranslateFault;
use crate::llrun::llrun;
use crate::run::run;
use crate::sample::sample;
use crate::sources::write_sources;
use rpy_base::{Files, HeapWatch, Seq, Sink, Text};
use rpy_crun::crun;
use rpy_edge::Status;
use rpy_words::{Job, Task, job_of};
use std::alloc::Global;

// Writes what is asked of the program of files, and the line for it.
fn write_and_say<F: Files, K: Sink, E: Sink>(
    alloc: Global,
    task: Task,
    names: &[Text],
    files: &mut F,
    out: &mut K,
    err: &mut E,
) -> Status
    requires { are_sources names.now ≡ true }
    ensures answers { Answers result (Writing task names.now) (filed F.held F.faults files.old files.new)
        (sunk K.faults K.taken out.old out.new) (sunk E.faults E.taken err.old err.new) }
    ensures held { F.held files.new ≡ F.held files.old }
{
    let work = write(alloc, task, names, files, out);
    say_work(alloc, work, names, err)
}

fn work<F: Files, K: Sink, E: Sink>(
    alloc: Global,
    words: &[Text],
    files: &mut F,
    out: &mut K,
    err: &mut E,
    watch: &mut Vec<Box<dyn HeapWatch>>,
) -> Status
    requires { All IsFresh (map (λ w. seen w) watch.old.items) }
    ensures answers { AnswersCall result (brought (command words.now))
        (filed F.held F.faults files.old files.new) (sunk K.faults K.taken out.old out.new) (sunk E.faults E.taken err.old err.new)
        (map (λ w. seen w) watch.old.items) (map (λ w. seen w) watch.new.items) }
    ensures files { F.held files.new ≡ F.held files.old }
    ensures watchers { AreLeft (brought (command words.now)) watch.old.items watch.new.items }
{
    match job_of(words) {
        Job::Write(task, names) => write_and_say(alloc, task, names, files, out, err),
        Job::Run(asked) => run(alloc, &asked, files, out, err, watch),
        Job::LlRun(asked) => llrun(alloc, &asked, files, out, err),
        Job::CRun(file, asked) => crun(alloc, file, &asked, files, out, err, watch),
        Job::Sample(k) => sample(alloc, k, out, err, watch),
        Job::Nothing => say_work(alloc, BuildWork::Ended(Status::Usage), &[], err),
    }
}

/// Does all that the program does, and answers its status. The watchers that are handed in are
/// fresh. Each is told of every block of a run; where no run begins they stay as they are.
pub fn rpyc<F: Files, K: Sink, E: Sink>(
    alloc: Global,
    words: &[Text],
    files: &mut F,
    out: &mut K,
    err: &mut E,
    watch: &mut Vec<Box<dyn HeapWatch>>,
) -> u8
    requires { All IsFresh (map (λ w. seen w) watch.old.items) }
    ensures answers { (status : Status) × (result ≡ code status) × AnswersCall status (brought (command words.now))
        (filed F.held F.faults files.old files.new) (sunk K.faults K.taken out.old out.new) (sunk E.faults E.taken err.old err.new)
        (map (λ w. seen w) watch.old.items) (map (λ w. seen w) watch.new.items) }
    ensures files { F.held files.new ≡ F.held files.old }
    ensures watchers { AreLeft (brought (command words.now)) watch.old.items watch.new.items }
{
    work(alloc, words, files, out, err, watch).code()
}

/// The C text of sources, each with its module's name: a translation of the program that they
/// are. `Source` and `Name` tell the first source that is no module, or why the modules make no
/// program, `Conflict` and `Typing` why it is refused by its checks.
pub fn translate(
    alloc: Global,
    sources: &Seq<Text>,
    names: &Seq<Text>,
) -> Result<Text, TranslateFault>
    requires some { 0 < length sources.now }
    requires few { length sources.now ≤ 64 }
    requires same { length names.now ≡ length sources.now }
    requires named { are_module_names names.now ≡ true }
    requires short { are_short sources.now ≡ true }
    ensures { WritesTo Build sources.now names.now result }
{
    write_sources(alloc, Task::Build, sources.as_slice(), names.as_slice())
}
