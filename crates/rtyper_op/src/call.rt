// Calls of functions by their names.
ghost use Rattle.std.specs.Prelude.{◌≡◌, ◌++◌, [], slice_get, IfOk, OnOk};
ghost use Rattle.std.specs.Option.{option_copied};
ghost use Rattle.rtyper_op.specs.Calls as spec;
ghost use Rattle.rtyper_data.specs.Seen.{the_around, the_operand, the_operands, the_place, writing, Leaves, Gives, Writes, Asks};

use crate::constant::constant_of;
use ann_element::Element;
use csub_tree::COperand;
use ll_code::{LlOp, LlType};
use rpy_base::{NoMem, Seq};
use rpy_resolved::Function;
use rpy_tree::FunId;
use rtyper_data::{
    Around, Body, Found, Operand, Place, default_operand, give_nothing, given, land, landing,
};
use rtyper_layout::{repr, repr_seen};
use std::alloc::Global;

// The constant that stands in for an argument.
#[tactic(auto, unfolding(crate::specs::Calls::stand_in))]
fn stand_in(
    alloc: Global,
    around: Around<'_>,
    function: Option<&Function>,
    i: usize,
    to: LlType,
    found: &mut Found,
) -> Result<COperand, NoMem>
    ensures { IfOk result (λ x. Asks (spec.stand_in (the_around around.entry) (option_copied function.entry) i to found.old) x found.new) }
{
    let Some(function) = function else {
        return Ok(default_operand(to));
    };
    match function.defaults.get(i) {
        Some(Some(constant)) => {
            let constant = constant_of(alloc, around, constant, to, found)?;
            Ok(COperand::Const(constant))
        }
        _ => Ok(default_operand(to)),
    }
}

// The argument as a value of the parameter's type.
#[tactic(auto, using(rtyper_data::proofs::Views::at_place), unfolding(crate::specs::Calls::argument_if))]
fn push_argument(
    alloc: Global,
    around: Around<'_>,
    function: Option<&Function>,
    i: usize,
    args: &[Operand<'_>],
    to: LlType,
    found: &mut Found,
    body: &mut Body,
    xs: &mut Seq<COperand>,
) -> Result<(), NoMem>
    ensures given { OnOk result (xs.new ≡ xs.old ++ (spec.argument_if (the_around around.entry) (option_copied function.entry) i (slice_get (the_operands args.now) i) to (writing found.old body.old)).0) }
    ensures written { OnOk result (Leaves (spec.argument_if (the_around around.entry) (option_copied function.entry) i (slice_get (the_operands args.now) i) to (writing found.old body.old)).1 found.new body.new) }
{
    match to {
        LlType::Void => Ok(()),
        _ => {
            let x = match args.get(i) {
                Some(operand) => given(alloc, around, *operand, to, found, body)?,
                None => stand_in(alloc, around, function, i, to, found)?,
            };
            xs.push(x)
        }
    }
}

fn arguments_of(
    alloc: Global,
    around: Around<'_>,
    function: Option<&Function>,
    params: &[Element],
    args: &[Operand<'_>],
    found: &mut Found,
    body: &mut Body,
) -> Result<Seq<COperand>, NoMem>
    ensures { IfOk result (λ xs. Gives (spec.arguments_from (the_around around.entry) (option_copied function.entry) (the_operands args.now) 0 params.now ([], writing found.old body.old)) xs found.new body.new) }
{
    let mut xs = Seq::new(alloc);
    let mut i: usize = 0;
    for param in params {
        let to = repr(around.layout, param);
        push_argument(alloc, around, function, i, args, to, found, body, &mut xs)?;
        i += 1;
    }
    Ok(xs)
}

/// The arguments as values of the parameters' types. A parameter that no value comes to has none.
#[tactic(auto, unfolding(crate::specs::Calls::arguments))]
pub fn arguments(
    alloc: Global,
    around: Around<'_>,
    number: usize,
    args: &[Operand<'_>],
    found: &mut Found,
    body: &mut Body,
) -> Result<Seq<COperand>, NoMem>
    ensures { IfOk result (λ xs. Gives (spec.arguments (the_around around.entry) number (the_operands args.now) (writing found.old body.old)) xs found.new body.new) }
{
    match around.params.get(number) {
        None => Ok(Seq::new(alloc)),
        Some(params) => {
            let function = around.functions.get(number);
            arguments_of(
                alloc,
                around,
                function,
                params.as_slice(),
                args,
                found,
                body,
            )
        }
    }
}

fn number_of(around: Around<'_>, function: FunId) -> u64
    ensures { result ≡ spec.number_of (the_around around.entry) function }
{
    match around.numbers.get(function as usize) {
        None => 0,
        Some(number) => *number,
    }
}

// A call of the graph of this number, which gives a value of this type.
#[tactic(auto, unfolding(crate::specs::Calls::call_giving))]
fn push_call_giving(
    alloc: Global,
    around: Around<'_>,
    place: Place<'_>,
    number: u64,
    gives: LlType,
    xs: Seq<COperand>,
    found: &mut Found,
    body: &mut Body,
) -> Result<(), NoMem>
    ensures { OnOk result (Leaves (spec.call_giving (the_around around.entry) (the_place place.entry) number gives (xs, writing found.old body.old)) found.new body.new) }
{
    match gives {
        LlType::Void => {
            body.ops.push(LlOp::Call(None, number, xs))?;
            give_nothing(around, place, body)
        }
        gives => {
            let into = landing(around, place, gives, body)?;
            body.ops.push(LlOp::Call(Some(into), number, xs))?;
            land(alloc, around, place, into, gives, found, body)
        }
    }
}

/// A call of a function.
pub fn push_call(
    alloc: Global,
    around: Around<'_>,
    place: Place<'_>,
    function: FunId,
    args: &[Operand<'_>],
    found: &mut Found,
    body: &mut Body,
) -> Result<(), NoMem>
    ensures { OnOk result (Leaves (spec.call (the_around around.entry) (the_place place.entry) function (the_operands args.now) (writing found.old body.old)) found.new body.new) }
{
    let at = function as usize;
    let xs = arguments(alloc, around, at, args, found, body)?;
    let gives = repr_seen(around.layout, around.results.get(at));
    let number = number_of(around, function);
    push_call_giving(alloc, around, place, number, gives, xs, found, body)
}
