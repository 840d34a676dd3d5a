// The graph at which a run begins.
ghost use Rattle.std.specs.Prelude.{◌≡◌, ◌∷◌, [], IfOk};
ghost use Rattle.rtyper_data.specs.Building.{link_to};
ghost use Rattle.rtyper_class.specs.Seen.{the_world};
ghost use Rattle.rtyper_program.specs.Entry as spec;

use crate::graph::result_of;
use csub_tree::{CConst, COperand};
use ll_code::{LlBlock, LlExit, LlGraph, LlLink, LlOp, LlType};
use rpy_base::{NoMem, Seq, Text};
use rpy_tree::FunId;
use rtyper_data::{Around, block, link, operands};
use rtyper_layout::Laid;
use std::alloc::Global;

const RESULT: u64 = 1;

const EXCEPTION: u64 = 2;

const VTABLE: u64 = 3;

// What the entry point gives, where it gives a word.
fn into_of(gives: LlType) -> Option<u64>
    ensures { result ≡ spec.into_of gives }
{
    match gives {
        LlType::Signed => Some(RESULT),
        LlType::Char | LlType::Bool | LlType::Void | LlType::Fn | LlType::Ptr(_) => None,
    }
}

// An entry point that gives no word never gives anything.
fn given_back(into: Option<u64>) -> COperand
    ensures { result ≡ spec.given_back into }
{
    match into {
        None => COperand::Const(CConst::Word(0)),
        Some(v) => COperand::Var(v),
    }
}

fn calls(alloc: Global, number: u64, into: Option<u64>, arguments: u64) -> Result<Seq<LlOp>, NoMem>
    ensures { IfOk result (λ ops. ops ≡ spec.calls number into arguments) }
{
    let mut ops = Seq::new(alloc);
    ops.push(LlOp::Call(Some(0), arguments, Seq::new(alloc)))?;
    let xs = operands(alloc, [COperand::Var(0)])?;
    ops.push(LlOp::Call(into, number, xs))?;
    Ok(ops)
}

fn types(alloc: Global, list: u64, laid: Option<Laid>) -> Result<Seq<LlType>, NoMem>
    ensures { IfOk result (λ types. types ≡ spec.types list laid) }
{
    let mut types = Seq::new(alloc);
    types.push(LlType::Ptr(list))?;
    types.push(LlType::Signed)?;
    if let Some(laid) = laid {
        types.push(LlType::Ptr(laid.root))?;
        types.push(LlType::Ptr(laid.vtable))?;
    }
    Ok(types)
}

fn ways(alloc: Global, into: Option<u64>) -> Result<LlExit, NoMem>
    ensures { IfOk result (λ exit. exit ≡ spec.ways into) }
{
    let by = link(alloc, 1, [COperand::Var(EXCEPTION)])?;
    let without = link(alloc, 2, [given_back(into)])?;
    Ok(LlExit::OnRaise(EXCEPTION, Some(by), without))
}

// The run ends as raised, with the name that the vtable of the exception has.
fn raised(alloc: Global, laid: Laid) -> Result<LlBlock, NoMem>
    ensures { IfOk result (λ made. made ≡ spec.raised laid) }
{
    let mut ops = Seq::new(alloc);
    ops.push(LlOp::GetField(VTABLE, laid.root, EXCEPTION, 0))?;
    block(alloc, [EXCEPTION], ops, LlExit::Raised(VTABLE))
}

fn returned(alloc: Global) -> Result<LlBlock, NoMem>
    ensures { IfOk result (λ made. made ≡ spec.returned) }
{
    let given = LlExit::Return(Some(COperand::Var(RESULT)));
    block(alloc, [RESULT], Seq::new(alloc), given)
}

fn blocks(
    alloc: Global,
    number: u64,
    into: Option<u64>,
    arguments: u64,
    laid: Option<Laid>,
) -> Result<Seq<LlBlock>, NoMem>
    ensures { IfOk result (λ blocks. blocks ≡ spec.blocks number into arguments laid) }
{
    let mut blocks = Seq::new(alloc);
    let ops = calls(alloc, number, into, arguments)?;
    match laid {
        None => {
            let given = LlExit::Return(Some(given_back(into)));
            blocks.push(block(alloc, [], ops, given)?)?;
        }
        Some(laid) => {
            blocks.push(block(alloc, [], ops, ways(alloc, into)?)?)?;
            blocks.push(raised(alloc, laid)?)?;
            blocks.push(returned(alloc)?)?;
        }
    }
    Ok(blocks)
}

fn number_of(around: Around<'_>, function: FunId) -> u64
    ensures { result ≡ spec.number_of (the_world around.entry) function }
{
    match around.numbers.get(function as usize) {
        None => 0,
        Some(number) => *number,
    }
}

/// It calls the entry point with the list of arguments, which the graph of that number makes. An
/// exception that leaves the entry point ends the run.
#[tactic(auto, unfolding(crate::specs::Entry::entry_graph))]
pub fn entry_graph(
    alloc: Global,
    around: Around<'_>,
    function: FunId,
    arguments: u64,
) -> Result<LlGraph, NoMem>
    ensures { IfOk result (λ graph. graph ≡ spec.entry_graph (the_world around.entry) function arguments) }
{
    let number = number_of(around, function);
    let into = into_of(result_of(around, function as usize));
    let laid = around.layout.laid(0);
    Ok(LlGraph {
        name: Text::from_bytes(alloc, b"entry")?,
        params: Seq::new(alloc),
        result: LlType::Signed,
        types: types(alloc, around.layout.first_list, laid)?,
        blocks: blocks(alloc, number, into, arguments, laid)?,
    })
}
