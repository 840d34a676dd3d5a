// The words of a call.
ghost use Rattle.std.specs.Prelude.{◌≡◌, ◌≤◌, ◌<◌, ◌^◌, ◌+◌, ◌-◌, ◌*◌, ◌∷◌, [], length, take, drop, nat_le, if◌then◌else◌, true, Some, None, codes, IfOk, IfSome, OnOk, Ok, Err, Option, ℕ};
ghost use Rattle.rpy_words.specs.Command as spec;
ghost use Rattle.rpy_words.specs.Command.{AskedIs, ReadIs, command};
ghost use Rattle.rpy_words.specs.Names.{among};

use crate::names::{is_digit, is_keyword, is_letter, name_len};
use rpy_base::{NoMem, Seq, Text};
use std::alloc::Global;
use thiserror::Error;

const MOST_STEPS: u64 = 4611686018427387903;

const MOST_FUNCTIONS: u64 = 10000;

pub const DEFAULT_STEPS: u64 = 1000000000;

/// A run: the bound on its steps, which reports it asks for, its files, and its arguments.
#[derive(Drop)]
pub struct RunWords {
    pub steps: u64,
    pub tally: bool,
    pub leaks: bool,
    pub files: Seq<Text>,
    pub args: Seq<Text>,
}

/// What words ask for.
#[derive(Drop)]
pub enum Command {
    Build(Seq<Text>),
    Check(Seq<Text>),
    Annotate(Seq<Text>),
    Flow(Seq<Text>),
    Run(RunWords),
    LlRun(RunWords),
    CRun(RunWords),
    Sample(u32),
}

/// Why words ask for nothing.
#[derive(Clone, Copy, Debug, PartialEq, Eq, Error)]
pub enum WordsFault {
    #[error("usage: rpy COMMAND [OPTION..] FILE.. [-- ARG..]")]
    Usage,
    #[error("out of memory")]
    NoMem,
}

impl From<NoMem> for WordsFault {
    ghost use Rattle.std.specs.Prelude.{◌≡◌};
    ghost use Rattle.rpy_words.specs.declared.words.WordsFault.TheVariants.{NoMem};

    ghost from_gives = { λ _ fault. fault ≡ NoMem };

    fn from(_: NoMem) -> WordsFault {
        WordsFault::NoMem
    }
}

// A run, where the words stay where they are.
#[derive(Clone, Copy)]
pub struct RunAsked<'a> {
    pub steps: u64,
    pub tally: bool,
    pub leaks: bool,
    pub files: &'a [Text],
    pub args: &'a [Text],
}

// What words ask for, where they stay where they are.
#[derive(Clone, Copy)]
pub enum Asked<'a> {
    Build(&'a [Text]),
    Check(&'a [Text]),
    Annotate(&'a [Text]),
    Flow(&'a [Text]),
    Run(RunAsked<'a>),
    LlRun(RunAsked<'a>),
    CRun(RunAsked<'a>),
    Sample(u32),
    Nothing,
}

// The options so far, and the words that are left.
#[derive(Clone, Copy)]
struct Opted<'a> {
    steps: Option<u64>,
    tally: bool,
    leaks: bool,
    rest: &'a [Text],
}

#[derive(Clone, Copy)]
enum Step<'a> {
    More(Opted<'a>),
    Ended,
    Bad,
}

fn place_after_slash(file: &[u8]) -> usize
    ensures value { result ≡ spec.place_after_slash 0 0 file.now }
    ensures within { result ≤ length file.now }
{
    let mut place = 0;
    for i in 0..file.len() {
        if file[i] == b'/' {
            place = i + 1;
        }
    }
    place
}

fn without_ending(name: &[u8]) -> &[u8]
    ensures { result.now ≡ spec.without_ending name.now }
{
    let stem = name.len().saturating_sub(3);
    if &name[stem..] == b".py".as_slice() {
        &name[..stem]
    } else {
        name
    }
}

/// The module's name of a file: what stands after the last slash, without a final `.py`.
pub fn module_name(file: &[u8]) -> &[u8]
    ensures { result.now ≡ spec.module_name file.now }
{
    without_ending(&file[place_after_slash(file)..])
}

fn begins_with_letter(name: &[u8]) -> bool
    ensures { result ≡ spec.begins_with_letter name.now }
{
    match name {
        [] => false,
        [first, ..] => is_letter(*first),
    }
}

fn is_name(name: &[u8]) -> bool
    ensures { result ≡ spec.is_name name.now }
{
    begins_with_letter(name) && name_len(name) == name.len()
}

fn is_taken(name: &[u8]) -> bool
    ensures { result ≡ among (codes "os" ∷ codes "sys" ∷ codes "rpython" ∷ []) name.now }
{
    name == b"os".as_slice() || name == b"sys".as_slice() || name == b"rpython".as_slice()
}

fn is_module_name(name: &[u8]) -> bool
    ensures { result ≡ spec.is_module_name name.now }
{
    is_name(name) && !is_keyword(name) && !is_taken(name)
}

/// Whether each of these is a name that a module may have: a name, no keyword, and none of `os`,
/// `sys` and `rpython`.
pub fn are_module_names(names: &[Text]) -> bool
    ensures { result ≡ spec.are_module_names names.now }
{
    for name in names {
        if !is_module_name(name.bytes()) {
            return false;
        }
    }
    true
}

fn begins_as_file(word: &[u8]) -> bool
    ensures { result ≡ spec.begins_as_file word.now }
{
    match word {
        [] => false,
        [first, ..] => *first != b'-',
    }
}

fn is_file(word: &[u8]) -> bool
    ensures { result ≡ spec.is_file word.now }
{
    begins_as_file(word) && is_module_name(module_name(word))
}

fn names_module(name: &[u8], files: &[Text]) -> bool
    ensures { result ≡ spec.names_module name.now files.now }
{
    for file in files {
        if module_name(file.bytes()) == name {
            return true;
        }
    }
    false
}

fn are_files(files: &[Text]) -> bool
    ensures { result ≡ spec.are_files files.now }
{
    let mut rest = files;
    while let [file, others @ ..] = rest {
        if !is_file(file.bytes()) {
            return false;
        }
        if names_module(module_name(file.bytes()), others) {
            return false;
        }
        rest = others;
    }
    true
}

fn are_sources(files: &[Text]) -> bool
    ensures { result ≡ spec.are_sources files.now }
{
    match files {
        [] => false,
        [_, ..] => are_files(files),
    }
}

fn is_c_file(files: &[Text]) -> bool
    ensures { result ≡ spec.is_c_file files.now }
{
    match files {
        [file] => begins_as_file(file.bytes()),
        _ => false,
    }
}

// The number with one more digit, where it is not above the most.
fn more_digits(most: u64, n: u64, digit: u8) -> Option<u64>
    requires most { most < 2 ^ 62 }
    requires small { n ≤ most }
    requires digit { 48 ≤ digit }
    ensures { result ≡ (if nat_le (n * 10 + (digit - 48)) most then Some (n * 10 + (digit - 48)) else None) }
{
    if n > most / 10 {
        return None;
    }
    let longer = n * 10 + u64::from(digit - 48);
    if longer <= most { Some(longer) } else { None }
}

#[tactic(auto, unfolding(crate::specs::Command::digits_up_to))]
fn digits_up_to(most: u64, bytes: &[u8]) -> Option<u64>
    requires { most < 2 ^ 62 }
    ensures value { result ≡ spec.digits_up_to most 0 bytes.now }
    ensures small { IfSome result (λ n. n ≤ most) }
{
    let mut n: u64 = 0;
    for b in bytes {
        if !is_digit(*b) {
            return None;
        }
        n = more_digits(most, n, *b)?;
    }
    Some(n)
}

fn number_up_to(most: u64, bytes: &[u8]) -> Option<u64>
    requires { most < 2 ^ 62 }
    ensures value { result ≡ spec.number_up_to most bytes.now }
    ensures small { IfSome result (λ n. n ≤ most) }
{
    match bytes {
        [] => None,
        [first, rest @ ..] => {
            if *first == b'0' {
                if rest.is_empty() { Some(0) } else { None }
            } else {
                digits_up_to(most, bytes)
            }
        }
    }
}

fn with_steps<'a>(o: Opted<'a>, steps: Option<u64>) -> Step<'a>
    ensures { ReadIs result (spec.more_or_bad (spec.with_steps (spec.opted_of o.entry) steps)) }
{
    match steps {
        None => Step::Bad,
        Some(n) => {
            if o.steps.is_none() {
                Step::More(Opted {
                    steps: Some(n),
                    tally: o.tally,
                    leaks: o.leaks,
                    rest: o.rest,
                })
            } else {
                Step::Bad
            }
        }
    }
}

fn with_tally<'a>(reports: bool, o: Opted<'a>) -> Step<'a>
    ensures { ReadIs result (spec.more_or_bad (spec.with_tally reports (spec.opted_of o.entry))) }
{
    if reports && !o.tally {
        Step::More(Opted {
            steps: o.steps,
            tally: true,
            leaks: o.leaks,
            rest: o.rest,
        })
    } else {
        Step::Bad
    }
}

fn with_leaks<'a>(reports: bool, o: Opted<'a>) -> Step<'a>
    ensures { ReadIs result (spec.more_or_bad (spec.with_leaks reports (spec.opted_of o.entry))) }
{
    if reports && !o.leaks {
        Step::More(Opted {
            steps: o.steps,
            tally: o.tally,
            leaks: true,
            rest: o.rest,
        })
    } else {
        Step::Bad
    }
}

// The options, with other words left.
fn before<'a>(o: Opted<'a>, rest: &'a [Text]) -> Opted<'a>
    ensures { spec.opted_of result ≡ spec.opted_before (spec.opted_of o.entry) rest.entry.now }
{
    Opted {
        steps: o.steps,
        tally: o.tally,
        leaks: o.leaks,
        rest,
    }
}

fn steps_of<'a>(o: Opted<'a>, words: &'a [Text]) -> Step<'a>
    ensures { ReadIs result (spec.steps_of (spec.opted_of o.entry) words.entry.now) }
{
    match words {
        [] => Step::Bad,
        [n, rest @ ..] => with_steps(before(o, rest), number_up_to(MOST_STEPS, n.bytes())),
    }
}

fn option_of<'a>(reports: bool, o: Opted<'a>, word: &'a Text, rest: &'a [Text]) -> Step<'a>
    ensures { ReadIs result (spec.option_of reports (spec.opted_of o.entry) word.entry.now rest.entry.now) }
{
    if word.bytes() == b"--steps".as_slice() {
        steps_of(o, rest)
    } else if word.bytes() == b"--tally".as_slice() {
        with_tally(reports, before(o, rest))
    } else if word.bytes() == b"--leaks".as_slice() {
        with_leaks(reports, before(o, rest))
    } else {
        Step::Ended
    }
}

fn read_option<'a>(reports: bool, o: Opted<'a>) -> Step<'a>
    ensures { ReadIs result (spec.read_option reports (spec.opted_of o.entry) (spec.opted_of o.entry).rest) }
{
    match o.rest {
        [] => Step::Ended,
        [word, rest @ ..] => option_of(reports, o, word, rest),
    }
}

#[derive(Clone, Copy)]
enum Options<'a> {
    Read(Opted<'a>),
    Bad,
}

#[tactic(auto, using(crate::proofs::Options::options_none, crate::proofs::Options::options_some))]
fn read_options<'a>(turns: u64, reports: bool, o: Opted<'a>) -> Options<'a>
    ensures { spec.OptionsAre result (spec.read_options turns reports (spec.opted_of o.entry)) }
{
    if turns == 0 {
        return Options::Read(o);
    }
    match read_option(reports, o) {
        Step::More(next) => read_options(turns - 1, reports, next),
        Step::Ended => Options::Read(o),
        Step::Bad => Options::Bad,
    }
}

// How many words stand before `--`.
fn dashes(words: &[Text]) -> usize
    ensures value { result ≡ spec.dashes words.now }
    ensures within { result ≤ length words.now }
{
    let mut n = 0;
    for word in words {
        if word.bytes() == b"--".as_slice() {
            return n;
        }
        n += 1;
    }
    n
}

fn after_dashes(words: &[Text], n: usize) -> &[Text]
    requires { n ≤ length words.now }
    ensures { result.now ≡ drop (n + 1) words.now }
{
    if n < words.len() {
        &words[n + 1..]
    } else {
        &words[n..]
    }
}

fn run_words<'a>(o: Opted<'a>) -> RunAsked<'a>
    ensures { spec.words_of result ≡ spec.run_words (spec.opted_of o.entry) }
{
    let n = dashes(o.rest);
    RunAsked {
        steps: o.steps.unwrap_or(DEFAULT_STEPS),
        tally: o.tally,
        leaks: o.leaks,
        files: &o.rest[..n],
        args: after_dashes(o.rest, n),
    }
}

#[derive(Clone, Copy)]
enum RunOf<'a> {
    Run(RunAsked<'a>),
    Bad,
}

fn options_of(reports: bool, words: &[Text]) -> Options<'_>
    ensures { spec.OptionsAre result (spec.read_options 3 reports (spec.no_options words.now)) }
{
    read_options(
        3,
        reports,
        Opted {
            steps: None,
            tally: false,
            leaks: false,
            rest: words,
        },
    )
}

fn run_of(reports: bool, words: &[Text]) -> RunOf<'_>
    ensures { spec.RunIs spec.are_sources result (spec.run_of reports spec.are_sources words.now) }
{
    match options_of(reports, words) {
        Options::Read(o) => {
            let asked = run_words(o);
            if are_sources(asked.files) {
                RunOf::Run(asked)
            } else {
                RunOf::Bad
            }
        }
        Options::Bad => RunOf::Bad,
    }
}

fn c_run_of(words: &[Text]) -> RunOf<'_>
    ensures { spec.RunIs spec.is_c_file result (spec.run_of true spec.is_c_file words.now) }
{
    match options_of(true, words) {
        Options::Read(o) => {
            let asked = run_words(o);
            if is_c_file(asked.files) {
                RunOf::Run(asked)
            } else {
                RunOf::Bad
            }
        }
        Options::Bad => RunOf::Bad,
    }
}

fn asked_run(words: &[Text]) -> Asked<'_>
    ensures { AskedIs result (spec.asked_run words.now) }
{
    match run_of(true, words) {
        RunOf::Run(asked) => Asked::Run(asked),
        RunOf::Bad => Asked::Nothing,
    }
}

fn asked_ll_run(words: &[Text]) -> Asked<'_>
    ensures { AskedIs result (spec.asked_ll_run words.now) }
{
    match run_of(false, words) {
        RunOf::Run(asked) => Asked::LlRun(asked),
        RunOf::Bad => Asked::Nothing,
    }
}

fn asked_c_run(words: &[Text]) -> Asked<'_>
    ensures { AskedIs result (spec.asked_c_run words.now) }
{
    match c_run_of(words) {
        RunOf::Run(asked) => Asked::CRun(asked),
        RunOf::Bad => Asked::Nothing,
    }
}

fn asked_sample(words: &[Text]) -> Asked<'_>
    ensures { AskedIs result (spec.sample_of words.now) }
{
    match words {
        [k] => match number_up_to(MOST_FUNCTIONS, k.bytes()) {
            Some(k) => Asked::Sample(k as u32),
            None => Asked::Nothing,
        },
        _ => Asked::Nothing,
    }
}

fn asked_build(words: &[Text]) -> Asked<'_>
    ensures { AskedIs result (spec.asked_build words.now) }
{
    if are_sources(words) {
        Asked::Build(words)
    } else {
        Asked::Nothing
    }
}

fn asked_check(words: &[Text]) -> Asked<'_>
    ensures { AskedIs result (spec.asked_check words.now) }
{
    if are_sources(words) {
        Asked::Check(words)
    } else {
        Asked::Nothing
    }
}

fn asked_annotate(words: &[Text]) -> Asked<'_>
    ensures { AskedIs result (spec.asked_annotate words.now) }
{
    if are_sources(words) {
        Asked::Annotate(words)
    } else {
        Asked::Nothing
    }
}

fn asked_flow(words: &[Text]) -> Asked<'_>
    ensures { AskedIs result (spec.asked_flow words.now) }
{
    if are_sources(words) {
        Asked::Flow(words)
    } else {
        Asked::Nothing
    }
}

fn asked_by_run<'a>(name: &[u8], words: &'a [Text]) -> Asked<'a>
    ensures { AskedIs result (spec.command_that_runs name.now words.entry.now) }
{
    if name == b"run".as_slice() {
        asked_run(words)
    } else if name == b"llrun".as_slice() {
        asked_ll_run(words)
    } else if name == b"crun".as_slice() {
        asked_c_run(words)
    } else if name == b"sample".as_slice() {
        asked_sample(words)
    } else {
        Asked::Nothing
    }
}

fn asked_by<'a>(name: &[u8], words: &'a [Text]) -> Asked<'a>
    ensures { AskedIs result (spec.command_named name.now words.entry.now) }
{
    if name == b"build".as_slice() {
        asked_build(words)
    } else if name == b"check".as_slice() {
        asked_check(words)
    } else if name == b"annotate".as_slice() {
        asked_annotate(words)
    } else if name == b"flow".as_slice() {
        asked_flow(words)
    } else {
        asked_by_run(name, words)
    }
}

/// What words ask for.
pub fn what_words_ask(words: &[Text]) -> Asked<'_>
    ensures { AskedIs result (command words.now) }
{
    match words {
        [] => Asked::Nothing,
        [name, rest @ ..] => asked_by(name.bytes(), rest),
    }
}

fn copies(alloc: Global, words: &[Text]) -> Result<Seq<Text>, NoMem>
    ensures { IfOk result (λ made. made ≡ words.now) }
{
    let mut made = Seq::new(alloc);
    for word in words {
        made.push(word.copy(alloc)?)?;
    }
    Ok(made)
}

fn run_copied(alloc: Global, asked: RunAsked<'_>) -> Result<RunWords, NoMem>
    ensures { IfOk result (λ made. made ≡ spec.words_of asked.entry) }
{
    let files = copies(alloc, asked.files)?;
    let args = copies(alloc, asked.args)?;
    Ok(RunWords {
        steps: asked.steps,
        tally: asked.tally,
        leaks: asked.leaks,
        files,
        args,
    })
}

/// The command that words fit; `Usage` exactly where they fit none. Options stand before the
/// files, in any order, each at most once; every word after `--` is an argument.
pub fn read_words(alloc: Global, words: &[Text]) -> Result<Command, WordsFault>
    ensures { spec.ReadsAs result (command words.now) }
{
    match what_words_ask(words) {
        Asked::Build(files) => Ok(Command::Build(copies(alloc, files)?)),
        Asked::Check(files) => Ok(Command::Check(copies(alloc, files)?)),
        Asked::Annotate(files) => Ok(Command::Annotate(copies(alloc, files)?)),
        Asked::Flow(files) => Ok(Command::Flow(copies(alloc, files)?)),
        Asked::Run(asked) => Ok(Command::Run(run_copied(alloc, asked)?)),
        Asked::LlRun(asked) => Ok(Command::LlRun(run_copied(alloc, asked)?)),
        Asked::CRun(asked) => Ok(Command::CRun(run_copied(alloc, asked)?)),
        Asked::Sample(k) => Ok(Command::Sample(k)),
        Asked::Nothing => Err(WordsFault::Usage),
    }
}
