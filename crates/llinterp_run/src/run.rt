// A whole run.
ghost use Rattle.std.specs.Prelude.{◌≡◌, OnOk, IfErr};
ghost use Rattle.llinterp_run.specs.Faults.{CauseOf};

use crate::machine::{Code, Machine, Next};
use crate::shape::shapes_of;
use crate::start::start;
use ll_code::LlProgram;
use rpy_base::{NoMem, Outcome, PutError, Sink, Text};
use std::alloc::Global;
use thiserror::Error;

/// Why a run has no outcome: the sink failed; no ending was reached within 2^63 steps of the machine;
/// there was no memory.
#[derive(Clone, Copy, Debug, PartialEq, Eq, Error)]
pub enum LlFault {
    #[error("output not written")]
    WriteFault,
    #[error("work spent")]
    WorkSpent,
    #[error("out of memory")]
    NoMem,
}

impl From<NoMem> for LlFault {
    ghost use Rattle.std.specs.Prelude.{◌≡◌};
    ghost use Rattle.llinterp_run.specs.declared.run.LlFault.TheVariants.{NoMem};

    ghost from_gives = { λ _ fault. fault ≡ NoMem };

    fn from(_: NoMem) -> LlFault {
        LlFault::NoMem
    }
}

// Puts what is held.
fn flush<K: Sink>(held: &mut Vec<u8>, out: &mut K) -> Result<(), LlFault>
    ensures calm { OnOk result (K.faults out.new ≡ K.faults out.old) }
    ensures fault { IfErr result (λ fault. CauseOf fault (K.faults out.old) (K.faults out.new)) }
{
    match out.put(held.as_slice()) {
        Ok(()) => {
            held.clear();
            Ok(())
        }
        Err(PutError::Failed) => Err(LlFault::WriteFault),
        Err(PutError::NoMem) => Err(LlFault::NoMem),
    }
}

fn hold(held: &mut Vec<u8>, byte: u8) -> Result<(), NoMem> {
    held.push(byte)?;
    Ok(())
}

// One byte more of the output. Much of it is put at once.
fn collect<K: Sink>(held: &mut Vec<u8>, out: &mut K, byte: u8) -> Result<(), LlFault>
    ensures calm { OnOk result (K.faults out.new ≡ K.faults out.old) }
    ensures fault { IfErr result (λ fault. CauseOf fault (K.faults out.old) (K.faults out.new)) }
{
    if let Err(NoMem) = hold(held, byte) {
        return Err(LlFault::NoMem);
    }
    if held.len() >= MOST_HELD {
        return flush(held, out);
    }
    Ok(())
}

// One step of the machine, or one graph that an exception leaves.
fn next(alloc: Global, code: Code<'_>, machine: &mut Machine, before: Next) -> Result<Next, NoMem> {
    match before {
        Next::Throws(value) => machine.throw(code, value),
        Next::Goes | Next::Puts(_) | Next::Ends(_) | Next::Stuck(_) => machine.step(alloc, code),
    }
}

// At most so many steps of the machine. A program that is stuck comes to no ending.
fn run_on<K: Sink>(
    alloc: Global,
    code: Code<'_>,
    most: u64,
    machine: &mut Machine,
    held: &mut Vec<u8>,
    out: &mut K,
) -> Result<Outcome, LlFault>
    ensures calm { OnOk result (K.faults out.new ≡ K.faults out.old) }
    ensures fault { IfErr result (λ fault. CauseOf fault (K.faults out.old) (K.faults out.new)) }
{
    let mut last = Next::Goes;
    for _ in 0..most {
        last = match next(alloc, code, machine, last) {
            Ok(Next::Ends(outcome)) => return Ok(outcome),
            Ok(Next::Stuck(_)) => return Err(LlFault::WorkSpent),
            Ok(Next::Puts(byte)) => {
                collect(held, out, byte)?;
                Next::Goes
            }
            Ok(Next::Goes) => Next::Goes,
            Ok(Next::Throws(value)) => Next::Throws(value),
            Err(NoMem) => return Err(LlFault::NoMem),
        };
    }
    Err(LlFault::WorkSpent)
}

// The whole run, with the output that was held put at its end.
fn run_from<K: Sink>(
    alloc: Global,
    code: Code<'_>,
    steps: u64,
    out: &mut K,
) -> Result<Outcome, LlFault>
    ensures calm { OnOk result (K.faults out.new ≡ K.faults out.old) }
    ensures fault { IfErr result (λ fault. CauseOf fault (K.faults out.old) (K.faults out.new)) }
{
    let mut machine = match start(alloc, code.program, code.shapes, steps) {
        Ok(machine) => machine,
        Err(NoMem) => return Err(LlFault::NoMem),
    };
    let mut held = Vec::new(alloc);
    let outcome = run_on(alloc, code, MOST_STEPS, &mut machine, &mut held, out)?;
    flush(&mut held, out)?;
    Ok(outcome)
}

/// Runs a low-level program, of any stage, with at most so many steps paid. The output goes to the
/// sink. The program is well typed and never stuck.
///
/// # Errors
///
/// [`LlFault::WriteFault`] where the sink failed; [`LlFault::WorkSpent`] where the run comes to no
/// ending within 2^63 steps of the machine. After an error the sink holds a first part of the output.
pub fn run_ll<K: Sink>(
    alloc: Global,
    program: &LlProgram,
    args: &[Text],
    steps: u64,
    out: &mut K,
) -> Result<Outcome, LlFault>
    ensures calm { OnOk result (K.faults out.new ≡ K.faults out.old) }
    ensures fault { IfErr result (λ fault. CauseOf fault (K.faults out.old) (K.faults out.new)) }
{
    let shapes = match shapes_of(alloc, program.structs.as_slice()) {
        Ok(shapes) => shapes,
        Err(NoMem) => return Err(LlFault::NoMem),
    };
    let code = Code {
        program,
        shapes: &shapes,
        args,
    };
    run_from(alloc, code, steps, out)
}

const MOST_STEPS: u64 = 1 << 63;

const MOST_HELD: usize = 4096;
