// A whole run.
ghost use Rattle.std.specs.Prelude.{◌≡◌, ◌≤◌, ◌^◌, List, [], ◌∷◌, ◌++◌, length, map, All, Err, OnOk, OnErr, IsErrOf, IfOk, IfErr, IfSome};
ghost use Rattle.std.specs.Option.{IfNone};
ghost use Rattle.csub_tree.specs.Layout.{shapes_of as shapes_as};
ghost use Rattle.csub_tree.specs.Machine.{step as steps_to};
ghost use Rattle.csub_runner.specs.Core.{core_of, MachineOk};
ghost use Rattle.csub_runner.specs.Synced.{Synced};
ghost use Rattle.rpy_base.specs.Watching.{IsFresh};
ghost use Rattle.csub_tree.specs.declared.stuck.StuckReason.{StuckReason};
ghost use Rattle.csub_runner.specs.Run.{HasTaken, HasTakenSome, Sends, Advances, Stops, put_by, WatchersAfter, IsOwnFault, Finished, Broken, CauseOf, Concludes, Runs};

use crate::machine::{Machine, Next};
use crate::number::statement_number;
use crate::shape::{Shape, shapes_of};
use crate::start::start;
use csub_tree::{CFile, StuckReason};
use rpy_base::{HeapWatch, NoMem, Outcome, PutError, Sink, Text, tell_gone, tell_made};
use std::alloc::Global;
use thiserror::Error;

/// How a run ended: its outcome, the steps that it paid, and how many blocks it made and freed.
#[derive(Debug, Drop)]
pub struct CRan {
    pub outcome: Outcome,
    pub steps_used: u64,
    pub blocks_made: u64,
    pub blocks_gone: u64,
}

/// Why a run has no outcome: the statement of this number, in the order of the text from 1, is
/// stuck; the sink failed; no ending was reached within 2^63 statements; there was no memory.
#[derive(Clone, Copy, Debug, PartialEq, Eq, Error)]
pub enum RunFault {
    #[error("stuck at statement {1}")]
    Stuck(StuckReason, u64),
    #[error("output not written")]
    WriteFault,
    #[error("work spent")]
    WorkSpent,
    #[error("out of memory")]
    NoMem,
}

impl From<NoMem> for RunFault {
    ghost use Rattle.std.specs.Prelude.{◌≡◌};
    ghost use Rattle.csub_runner.specs.declared.run.RunFault.TheVariants.{NoMem};

    ghost from_gives = { λ _ fault. fault ≡ NoMem };

    fn from(_: NoMem) -> RunFault {
        RunFault::NoMem
    }
}

/// How the statements of a run ended.
#[derive(Drop)]
enum Stop {
    Ended(Outcome),
    Stuck(StuckReason),
    Spent,
}

// The output that is held and not put yet, and how many blocks were made and freed.
#[derive(Drop)]
struct Log {
    held: Vec<u8>,
    made: u64,
    gone: u64,
}

// Puts what is held.
fn flush<K: Sink>(held: &mut Vec<u8>, out: &mut K) -> Result<(), RunFault>
    ensures held { OnOk result (held.new.items ≡ []) }
    ensures taken { OnOk result (HasTaken (K.taken out.old) (K.taken out.new) held.old.items) }
    ensures some { OnErr result (HasTakenSome (K.taken out.old) (K.taken out.new) held.old.items) }
    ensures calm { OnOk result (K.faults out.new ≡ K.faults out.old) }
    ensures fault { IfErr result (λ fault. CauseOf fault (K.faults out.old) (K.faults out.new)) }
    ensures causes { IfErr result IsOwnFault }
{
    match out.put(held.as_slice()) {
        Ok(()) => {
            held.clear();
            Ok(())
        }
        Err(PutError::Failed) => Err(RunFault::WriteFault),
        Err(PutError::NoMem) => Err(RunFault::NoMem),
    }
}

fn hold(held: &mut Vec<u8>, byte: u8) -> Result<(), NoMem>
    ensures ok { OnOk result (held.new.items ≡ held.old.items ++ byte ∷ []) }
    ensures err { OnErr result (held.new.items ≡ held.old.items) }
{
    held.push(byte)?;
    Ok(())
}

// One byte more of the output. Much of it is put at once.
fn collect<K: Sink>(held: &mut Vec<u8>, out: &mut K, byte: u8) -> Result<(), RunFault>
    ensures sends { OnOk result (Sends (K.taken out.old) (K.taken out.new) held.old.items (byte ∷ []) held.new.items) }
    ensures some { OnErr result (HasTakenSome (K.taken out.old) (K.taken out.new) (held.old.items ++ byte ∷ [])) }
    ensures calm { OnOk result (K.faults out.new ≡ K.faults out.old) }
    ensures fault { IfErr result (λ fault. CauseOf fault (K.faults out.old) (K.faults out.new)) }
    ensures causes { IfErr result IsOwnFault }
{
    hold(held, byte)?;
    if held.len() >= MOST_HELD {
        return flush(held, out);
    }
    Ok(())
}

// One statement, with what it puts, and each watcher told.
fn advance<K: Sink>(
    alloc: Global,
    file: &CFile,
    shapes: &Vec<Shape>,
    args: &[Text],
    machine: &mut Machine,
    log: &mut Log,
    out: &mut K,
    watch: &mut Vec<Box<dyn HeapWatch>>,
) -> Result<Option<Stop>, RunFault>
    requires ok { MachineOk machine.old }
    requires shapes { shapes.now.items ≡ shapes_as file.now.structs }
    requires synced { All (Synced (core_of machine.old).blocks) (map (λ w. seen w) watch.old.items) }
    ensures ok { IfOk result (λ _. MachineOk machine.new) }
    ensures goes { IfOk result (λ stop. IfNone stop (Advances (steps_to file.now args.now (core_of machine.old)) (core_of machine.new) (K.taken out.old) (K.taken out.new) log.old.held.items log.new.held.items
        log.old.made log.new.made log.old.gone log.new.gone (map (λ w. seen w) watch.old.items) (map (λ w. seen w) watch.new.items))) }
    ensures stops { IfOk result (λ stop. IfSome stop (λ s. Stops (core_of machine.old) (steps_to file.now args.now (core_of machine.old)) s (core_of machine.new))) }
    ensures still { IfOk result (λ stop. IfSome stop (λ _. (log.new ≡ log.old) × (K.taken out.new ≡ K.taken out.old) × (map (λ w. seen w) watch.new.items ≡ map (λ w. seen w) watch.old.items))) }
    ensures calm { OnOk result (K.faults out.new ≡ K.faults out.old) }
    ensures fault { IfErr result (λ fault. CauseOf fault (K.faults out.old) (K.faults out.new)) }
    ensures some { OnErr result (HasTakenSome (K.taken out.old) (K.taken out.new) (log.old.held.items ++ put_by (steps_to file.now args.now (core_of machine.old)))) }
    ensures watchers { IfErr result (λ fault. WatchersAfter fault (map (λ w. seen w) watch.old.items) (map (λ w. seen w) watch.new.items)) }
    ensures causes { IfErr result IsOwnFault }
{
    let next = match machine.step(alloc, file, shapes, args) {
        Ok(next) => next,
        Err(NoMem) => return Err(RunFault::NoMem),
    };
    match next {
        Next::Goes => Ok(None),
        Next::Puts(byte) => match collect(&mut log.held, out, byte) {
            Ok(()) => Ok(None),
            Err(fault) => Err(fault),
        },
        Next::Made(number, kind, cells) => {
            if number >= MOST_BLOCKS {
                return Err(RunFault::NoMem);
            }
            match tell_made(alloc, watch, number, kind, cells) {
                Ok(()) => {
                    log.made = log.made.saturating_add(1);
                    Ok(None)
                }
                Err(NoMem) => Err(RunFault::NoMem),
            }
        }
        Next::Freed(number) => {
            tell_gone(watch, number);
            log.gone = log.gone.saturating_add(1);
            Ok(None)
        }
        Next::Ends(outcome) => Ok(Some(Stop::Ended(outcome))),
        Next::Stuck(reason) => Ok(Some(Stop::Stuck(reason))),
    }
}

// At most so many statements.
fn run_on<K: Sink>(
    alloc: Global,
    file: &CFile,
    shapes: &Vec<Shape>,
    args: &[Text],
    most: u64,
    machine: &mut Machine,
    log: &mut Log,
    out: &mut K,
    watch: &mut Vec<Box<dyn HeapWatch>>,
) -> Result<Stop, RunFault>
    requires most { most ≤ 2 ^ 63 }
    requires ok { MachineOk machine.old }
    requires shapes { shapes.now.items ≡ shapes_as file.now.structs }
    requires synced { All (Synced (core_of machine.old).blocks) (map (λ w. seen w) watch.old.items) }
    requires held { log.old.held.items ≡ [] }
    requires made { log.old.made ≡ 0 }
    requires gone { log.old.gone ≡ 0 }
    ensures finished { IfOk result (λ stop. Finished most file.now args.now (core_of machine.old) stop (core_of machine.new) (K.taken out.old) (K.taken out.new) log.new.held.items log.new.made log.new.gone
        (map (λ w. seen w) watch.old.items) (map (λ w. seen w) watch.new.items)) }
    ensures broken { IfErr result (λ fault. Broken most file.now args.now (core_of machine.old) fault (K.taken out.old) (K.taken out.new) (map (λ w. seen w) watch.old.items) (map (λ w. seen w) watch.new.items)) }
    ensures calm { OnOk result (K.faults out.new ≡ K.faults out.old) }
    ensures fault { IfErr result (λ fault. CauseOf fault (K.faults out.old) (K.faults out.new)) }
    ensures causes { IfErr result IsOwnFault }
{
    let mut done = 0;
    while done < most {
        done += machine.run_plain(file, shapes, args, most - done);
        if done >= most {
            return Ok(Stop::Spent);
        }
        match advance(alloc, file, shapes, args, machine, log, out, watch) {
            Ok(None) => {}
            Ok(Some(stop)) => return Ok(stop),
            Err(fault) => return Err(fault),
        }
        done += 1;
    }
    Ok(Stop::Spent)
}

// What a run that stopped so answers.
fn conclude(
    file: &CFile,
    steps: u64,
    machine: &Machine,
    log: &Log,
    stop: Stop,
) -> Result<CRan, RunFault>
    ensures { Concludes file.now steps (core_of machine.now) log.now.made log.now.gone stop result }
{
    match stop {
        Stop::Ended(outcome) => Ok(CRan {
            outcome,
            steps_used: steps.saturating_sub(machine.steps),
            blocks_made: log.made,
            blocks_gone: log.gone,
        }),
        Stop::Stuck(reason) => {
            match statement_number(file, machine.function, machine.block, machine.at) {
                Ok(number) => Err(RunFault::Stuck(reason, number)),
                Err(NoMem) => Err(RunFault::NoMem),
            }
        }
        Stop::Spent => Err(RunFault::WorkSpent),
    }
}

/// Runs a C file with at most so many steps paid. The output goes to the sink, and each watcher is
/// told of each block that is made, before it is used, and of each that is freed, in order.
///
/// # Errors
///
/// [`RunFault::Stuck`] where the machine is stuck; [`RunFault::WorkSpent`] where it comes to no
/// ending within 2^63 statements; [`RunFault::WriteFault`] where the sink failed. After an error the
/// sink holds a first part of the output.
pub fn run_c<K: Sink>(
    alloc: Global,
    file: &CFile,
    args: &[Text],
    steps: u64,
    out: &mut K,
    watch: &mut Vec<Box<dyn HeapWatch>>,
) -> Result<CRan, RunFault>
    requires { All IsFresh (map (λ w. seen w) watch.old.items) }
    ensures runs { Runs file.now args.now steps (K.taken out.old) (K.taken out.new) (map (λ w. seen w) watch.old.items) (map (λ w. seen w) watch.new.items) result }
    ensures calm { OnOk result (K.faults out.new ≡ K.faults out.old) }
    ensures fault { IfErr result (λ fault. CauseOf fault (K.faults out.old) (K.faults out.new)) }
{
    let shapes = match shapes_of(alloc, file.structs.as_slice()) {
        Ok(shapes) => shapes,
        Err(NoMem) => return Err(RunFault::NoMem),
    };
    let mut machine = match start(alloc, file, &shapes, steps) {
        Ok(machine) => machine,
        Err(NoMem) => return Err(RunFault::NoMem),
    };
    let mut log = Log {
        held: Vec::new(alloc),
        made: 0,
        gone: 0,
    };
    let ran = run_on(
        alloc,
        file,
        &shapes,
        args,
        MOST_STATEMENTS,
        &mut machine,
        &mut log,
        out,
        watch,
    );
    match ran {
        Ok(stop) => match flush(&mut log.held, out) {
            Ok(()) => conclude(file, steps, &machine, &log, stop),
            Err(fault) => Err(fault),
        },
        Err(fault) => Err(fault),
    }
}

const MOST_STATEMENTS: u64 = 1 << 63;

const MOST_HELD: usize = 4096;

const MOST_BLOCKS: u64 = 1 << 62;
