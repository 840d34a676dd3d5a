// The command that runs the sample program.
ghost use Rattle.std.specs.Prelude.{◌≡◌, ◌++◌, ◌∷◌, [], length, map, All, IfOk, codes};
ghost use Rattle.rpy_base.specs.Watching.{IsFresh};
ghost use Rattle.rpy_sample.specs.Sample as text;
ghost use Rattle.rpy_crun.specs.Running.{outcome_status};
ghost use Rattle.rpy_edge.specs.Edge.{sunk, Says};
ghost use Rattle.rpy_words.specs.Command.{words_of};
ghost use Rattle.rpy_top.specs.Running as spec;

use crate::building::{BuildWork, untranslated};
use crate::run::{RunWork, say_run};
use crate::sources::write_sources;
use csub_runner::CRan;
use rpy_base::{HeapWatch, MemSink, NoMem, Sink, Text, udecimal};
use rpy_crun::{CWork, outcome_line, outcome_status, run_text};
use rpy_edge::{Status, say_text};
use rpy_front::are_short;
use rpy_sample::sample_text;
use rpy_words::{DEFAULT_STEPS, RunAsked, Task};
use std::alloc::Global;

// A list of one text.
fn one(alloc: Global, text: Text) -> Result<Vec<Text>, NoMem>
    ensures { IfOk result (λ made. made.items ≡ text ∷ []) }
{
    let mut made = Vec::new(alloc);
    made.push(text)?;
    Ok(made)
}

// The C text of a source of the module of this name.
#[tactic(auto, using(rpy_words::proofs::Files::sample_named))]
fn translated(alloc: Global, source: &[Text], names: &[Text]) -> Result<Text, BuildWork>
    requires one { length source.now ≡ 1 }
    requires named { names.now ≡ codes "sample" ∷ [] }
    ensures { spec.MakesSample source.now result }
{
    if !are_short(source) {
        return Err(BuildWork::AtFile(0, Status::TooLong));
    }
    match write_sources(alloc, Task::Build, source, names) {
        Ok(text) => Ok(text),
        Err(fault) => Err(untranslated(fault)),
    }
}

// The four lines on a run: the bytes of the source, how it ended, the bytes that it printed, and its
// steps.
fn summary(alloc: Global, source: u64, ran: &CRan, printed: u64) -> Result<Text, NoMem>
    ensures { IfOk result (λ text. text ≡ spec.summary source ran.now printed) }
{
    let mut text = Text::from_bytes(alloc, b"source ")?;
    text.append(udecimal(alloc, source)?.bytes())?;
    text.append(b"\nending ")?;
    text.append(outcome_line(alloc, &ran.outcome)?.bytes())?;
    text.append(b"output ")?;
    text.append(udecimal(alloc, printed)?.bytes())?;
    text.append(b"\nsteps ")?;
    text.append(udecimal(alloc, ran.steps_used)?.bytes())?;
    text.append(b"\n")?;
    Ok(text)
}

fn put_summary<K: Sink>(
    alloc: Global,
    source: &[Text],
    ran: &CRan,
    printed: u64,
    out: &mut K,
) -> Status
    ensures { Says (outcome_status ran.now.outcome) result (spec.summary (spec.first_length source.now) ran.now printed) (sunk K.faults K.taken out.old out.new) }
{
    let length = match source {
        [] => 0,
        [text, ..] => text.bytes().len() as u64,
    };
    match summary(alloc, length, ran, printed) {
        Ok(text) => say_text(outcome_status(&ran.outcome), &text, out),
        Err(NoMem) => Status::NoMem,
    }
}

fn run_source<P: Sink>(
    alloc: Global,
    source: &[Text],
    asked: &RunAsked<'_>,
    printed: &mut P,
    watch: &mut Vec<Box<dyn HeapWatch>>,
) -> RunWork
    requires fresh { All IsFresh (map (λ w. seen w) watch.old.items) }
    requires one { length source.now ≡ 1 }
    requires named { words_of asked.now ≡ spec.sample_words }
    ensures { spec.WorksSample result source.now (sunk P.faults P.taken printed.old printed.new) (map (λ w. seen w) watch.old.items) (map (λ w. seen w) watch.new.items) }
{
    match translated(alloc, source, asked.files) {
        Ok(text) => RunWork::OfText(run_text(alloc, &text, asked, printed, watch)),
        Err(work) => RunWork::Unmade(work),
    }
}

fn say_sample<K: Sink, E: Sink>(
    alloc: Global,
    work: RunWork,
    source: &[Text],
    asked: &RunAsked<'_>,
    printed: u64,
    watch: &Vec<Box<dyn HeapWatch>>,
    out: &mut K,
    err: &mut E,
) -> Status
    requires { words_of asked.now ≡ spec.sample_words }
    ensures { spec.SaidSample work result source.now printed (map (λ w. seen w) watch.now.items)
        (sunk K.faults K.taken out.old out.new) (sunk E.faults E.taken err.old err.new) }
{
    match work {
        RunWork::OfText(CWork::Ran(Ok(ran))) => put_summary(alloc, source, &ran, printed, out),
        other => say_run(alloc, other, asked, watch, err),
    }
}

fn sample_of<K: Sink, E: Sink>(
    alloc: Global,
    source: &[Text],
    names: &[Text],
    out: &mut K,
    err: &mut E,
    watch: &mut Vec<Box<dyn HeapWatch>>,
) -> Status
    requires fresh { All IsFresh (map (λ w. seen w) watch.old.items) }
    requires one { length source.now ≡ 1 }
    requires named { names.now ≡ codes "sample" ∷ [] }
    ensures { spec.AnswersSource result source.now (sunk K.faults K.taken out.old out.new) (sunk E.faults E.taken err.old err.new)
        (map (λ w. seen w) watch.old.items) (map (λ w. seen w) watch.new.items) }
{
    let asked = RunAsked {
        steps: DEFAULT_STEPS,
        tally: false,
        leaks: false,
        files: names,
        args: &[],
    };
    let mut printed = MemSink::new(alloc);
    let work = run_source(alloc, source, &asked, &mut printed, watch);
    let length = printed.taken().len() as u64;
    say_sample(alloc, work, source, &asked, length, watch, out, err)
}

// The sample program, and the name of its module.
fn source_of(alloc: Global, k: u32) -> Result<Vec<Text>, NoMem>
    ensures { IfOk result (λ made. made.items ≡ text.sample k ∷ []) }
{
    one(alloc, sample_text(alloc, k)?)
}

fn module_of(alloc: Global) -> Result<Vec<Text>, NoMem>
    ensures { IfOk result (λ made. made.items ≡ codes "sample" ∷ []) }
{
    one(alloc, Text::from_bytes(alloc, b"sample")?)
}

/// Runs the sample program with so many functions by its C text, and writes four lines on the run.
pub fn sample<K: Sink, E: Sink>(
    alloc: Global,
    k: u32,
    out: &mut K,
    err: &mut E,
    watch: &mut Vec<Box<dyn HeapWatch>>,
) -> Status
    requires { All IsFresh (map (λ w. seen w) watch.old.items) }
    ensures { spec.AnswersSample result k (sunk K.faults K.taken out.old out.new) (sunk E.faults E.taken err.old err.new)
        (map (λ w. seen w) watch.old.items) (map (λ w. seen w) watch.new.items) }
{
    let source = match source_of(alloc, k) {
        Ok(source) => source,
        Err(NoMem) => return Status::NoMem,
    };
    match module_of(alloc) {
        Ok(names) => sample_of(alloc, &source, &names, out, err, watch),
        Err(NoMem) => Status::NoMem,
    }
}
