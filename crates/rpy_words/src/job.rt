// What there is to do for each command.
ghost use Rattle.std.specs.Prelude.{◌≡◌, ◌∷◌, [], true, Some};
ghost use Rattle.rpy_words.specs.Command as spec;
ghost use Rattle.rpy_words.specs.Command.{JobIs, brought, command};

use crate::words::{Asked, RunAsked, what_words_ask};
use rpy_base::Text;

/// What is written of a program: its C text, that it has types, its annotation, or its flow graphs.
#[derive(Clone, Copy)]
pub enum Task {
    Build,
    Check,
    Annotate,
    Flow,
}

/// What there is to do for words.
#[derive(Clone, Copy)]
pub enum Job<'a> {
    Write(Task, &'a [Text]),
    /// The program of the files is run by its C text.
    Run(RunAsked<'a>),
    /// It is run by its low-level program.
    LlRun(RunAsked<'a>),
    /// The C file, and the words of its run.
    CRun(&'a Text, RunAsked<'a>),
    /// The sample program with so many functions is run.
    Sample(u32),
    Nothing,
}

fn c_run_of(asked: RunAsked<'_>) -> Job<'_>
    ensures { JobIs result (spec.run_file (spec.words_of asked.entry).files (spec.words_of asked.entry)) }
{
    match asked.files {
        [file] => Job::CRun(file, asked),
        _ => Job::Nothing,
    }
}

/// What there is to do for words.
pub fn job_of(words: &[Text]) -> Job<'_>
    ensures { JobIs result (brought (command words.now)) }
{
    match what_words_ask(words) {
        Asked::Build(files) => Job::Write(Task::Build, files),
        Asked::Check(files) => Job::Write(Task::Check, files),
        Asked::Annotate(files) => Job::Write(Task::Annotate, files),
        Asked::Flow(files) => Job::Write(Task::Flow, files),
        Asked::Run(asked) => Job::Run(asked),
        Asked::LlRun(asked) => Job::LlRun(asked),
        Asked::CRun(asked) => c_run_of(asked),
        Asked::Sample(k) => Job::Sample(k),
        Asked::Nothing => Job::Nothing,
    }
}
