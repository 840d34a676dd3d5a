// What links pass on, and the exits of a block that raise nothing.
ghost use Rattle.std.specs.Prelude.{◌≡◌, [], IfOk, OnOk, slice_get};
ghost use Rattle.std.specs.Option.{option_copied};
ghost use Rattle.rtyper_data.specs.Seen.{the_around, the_operand, the_place, writing, Gives, Writes};
ghost use Rattle.rtyper_program.specs.Links as spec;
ghost use Rattle.rtyper_program.specs.Seen as seen;
ghost use Rattle.rtyper_program.specs.Seen.{the_lowered};

use crate::known::{Known, element_at, is_block_reached};
use ann_element::Element;
use csub_tree::COperand;
use flow_graph::{Graph, Link, VarId};
use ll_code::{LlExit, LlLink, LlOp, LlType};
use rpy_base::{NoMem, Seq};
use rtyper_data::{Around, Body, Found, Operand, Place, default_operand, given, value_as};
use rtyper_op::{Test, truth_of};
use std::alloc::Global;

/// The graph that is lowered: its number, and the type of its result.
#[derive(Clone, Copy)]
pub struct Lowered<'a> {
    pub known: Known<'a>,
    pub around: Around<'a>,
    pub number: usize,
    pub graph: &'a Graph,
    pub result: LlType,
}

/// The variable of an exit by exceptions, and the one of the low-level graph in which the exception
/// stands, which is of this type.
#[derive(Clone, Copy)]
pub struct Caught {
    pub variable: VarId,
    pub exception: VarId,
    pub kind: LlType,
}

pub fn operand_of<'a>(lowered: Lowered<'a>, v: VarId) -> Operand<'a>
    ensures { the_operand result ≡ seen.operand_of (the_lowered lowered.entry) v }
{
    Operand {
        x: COperand::Var(v),
        element: element_at(lowered.known.annotation, lowered.number, v),
    }
}

pub fn place_of<'a>(lowered: Lowered<'a>, v: VarId) -> Place<'a>
    ensures { the_place result ≡ seen.place_of (the_lowered lowered.entry) v }
{
    Place {
        variable: v,
        element: element_at(lowered.known.annotation, lowered.number, v),
    }
}

pub fn type_at(lowered: Lowered<'_>, v: VarId) -> LlType
    ensures { result ≡ seen.type_at (the_lowered lowered.entry) v }
{
    lowered.around.type_at(place_of(lowered, v))
}

// ---- inputs

/// The variables that have a type.
pub fn typed(alloc: Global, lowered: Lowered<'_>, variables: &[VarId]) -> Result<Seq<VarId>, NoMem>
    ensures { IfOk result (λ kept. kept ≡ spec.typed (the_lowered lowered.entry) variables.now) }
{
    let mut kept = Seq::new(alloc);
    for v in variables {
        if type_at(lowered, *v) != LlType::Void {
            kept.push(*v)?;
        }
    }
    Ok(kept)
}

// The inputs of a block of the graph; a block that is not reached has none.
fn inputs_at<'a>(lowered: Lowered<'a>, to: u64) -> &'a [VarId]
    ensures { result.now ≡ spec.inputs_at (the_lowered lowered.entry) to }
{
    if !is_block_reached(lowered.known.annotation, lowered.number, to as usize) {
        return &[];
    }
    match lowered.graph.blocks.get(to as usize) {
        None => &[],
        Some(block) => block.inputs.as_slice(),
    }
}

// ---- arguments

// The variable itself, and its type; the exception that is caught stands in a variable of its own.
fn read_as(lowered: Lowered<'_>, caught: Option<Caught>, v: VarId) -> (COperand, LlType)
    ensures { result ≡ spec.read_as (the_lowered lowered.entry) caught v }
{
    match caught {
        None => (COperand::Var(v), type_at(lowered, v)),
        Some(caught) => {
            if caught.variable == v {
                (COperand::Var(caught.exception), caught.kind)
            } else {
                (COperand::Var(v), type_at(lowered, v))
            }
        }
    }
}

// What stands at a place of a link, as a value of this type.
fn passed(
    alloc: Global,
    lowered: Lowered<'_>,
    caught: Option<Caught>,
    args: &[VarId],
    i: usize,
    to: LlType,
    found: &mut Found,
    body: &mut Body,
) -> Result<COperand, NoMem>
    ensures { IfOk result (λ x. Gives (spec.passed (the_lowered lowered.entry) caught (slice_get args.now i) to (writing found.old body.old)) x found.new body.new) }
{
    match args.get(i) {
        None => Ok(default_operand(to)),
        Some(v) => {
            let (x, from) = read_as(lowered, caught, *v);
            value_as(alloc, lowered.around.layout, x, from, to, found, body)
        }
    }
}

// What has no type is not passed on.
fn push_argument(
    alloc: Global,
    lowered: Lowered<'_>,
    caught: Option<Caught>,
    args: &[VarId],
    i: usize,
    to: LlType,
    found: &mut Found,
    body: &mut Body,
    xs: &mut Seq<COperand>,
) -> Result<(), NoMem>
    ensures { OnOk result (Gives (spec.with_argument (the_lowered lowered.entry) caught (slice_get args.now i) to (xs.old, writing found.old body.old)) xs.new found.new body.new) }
{
    if to != LlType::Void {
        xs.push(passed(alloc, lowered, caught, args, i, to, found, body)?)?;
    }
    Ok(())
}

fn arguments(
    alloc: Global,
    lowered: Lowered<'_>,
    caught: Option<Caught>,
    args: &[VarId],
    inputs: &[VarId],
    found: &mut Found,
    body: &mut Body,
) -> Result<Seq<COperand>, NoMem>
    ensures { IfOk result (λ xs. Gives (spec.arguments (the_lowered lowered.entry) caught args.now 0 inputs.now ([], writing found.old body.old)) xs found.new body.new) }
{
    let mut xs = Seq::new(alloc);
    let mut i: usize = 0;
    for v in inputs {
        let to = type_at(lowered, *v);
        push_argument(alloc, lowered, caught, args, i, to, found, body, &mut xs)?;
        i += 1;
    }
    Ok(xs)
}

/// For each input of its block that has a type a link passes on what stands at its place.
#[tactic(auto, unfolding(crate::specs::Links::link_of))]
pub fn link_of(
    alloc: Global,
    lowered: Lowered<'_>,
    link: &Link,
    caught: Option<Caught>,
    found: &mut Found,
    body: &mut Body,
) -> Result<LlLink, NoMem>
    ensures { IfOk result (λ made. Gives (spec.link_of (the_lowered lowered.entry) caught link.now (writing found.old body.old)) made found.new body.new) }
{
    let inputs = inputs_at(lowered, link.to);
    let args = link.args.as_slice();
    Ok(LlLink {
        to: link.to,
        args: arguments(alloc, lowered, caught, args, inputs, found, body)?,
    })
}

// ---- exits

// A variable that holds the truth value.
fn flag_of(x: COperand, body: &mut Body) -> Result<VarId, NoMem>
    ensures { IfOk result (λ v. Writes (spec.flag_of x body.old) v body.new) }
{
    match x {
        COperand::Var(v) => Ok(v),
        COperand::Const(_) => {
            let v = body.fresh(LlType::Bool)?;
            body.ops.push(LlOp::Set(v, x))?;
            Ok(v)
        }
    }
}

fn by_test(
    alloc: Global,
    lowered: Lowered<'_>,
    there: &Link,
    elsewhere: &Link,
    test: Test,
    found: &mut Found,
    body: &mut Body,
) -> Result<LlExit, NoMem>
    ensures { IfOk result (λ exit. Gives (spec.by_test (the_lowered lowered.entry) there.now elsewhere.now test (writing found.old body.old)) exit found.new body.new) }
{
    match test {
        Test::Known(true) => Ok(LlExit::Goto(link_of(alloc, lowered, there, None, found, body)?)),
        Test::Known(false) => Ok(LlExit::Goto(link_of(
            alloc, lowered, elsewhere, None, found, body,
        )?)),
        Test::By(x) => {
            let flag = flag_of(x, body)?;
            let first = link_of(alloc, lowered, there, None, found, body)?;
            let second = link_of(alloc, lowered, elsewhere, None, found, body)?;
            Ok(LlExit::If(flag, first, second))
        }
    }
}

// A truth value that is known always.
fn known_truth(element: Option<&Element>) -> Option<bool>
    ensures { result ≡ spec.known_truth (option_copied element.entry) }
{
    match element {
        Some(Element::KnownTrue) => Some(true),
        Some(Element::KnownFalse) => Some(false),
        _ => None,
    }
}

// What is known always is not tested: the other way need not have what its block wants.
fn truth_test(
    alloc: Global,
    around: Around<'_>,
    a: Operand<'_>,
    found: &mut Found,
    body: &mut Body,
) -> Result<Test, NoMem>
    ensures { IfOk result (λ t. Gives (spec.truth_test (the_around around.entry) (the_operand a.entry) (writing found.old body.old)) t found.new body.new) }
{
    match known_truth(a.element) {
        Some(b) => Ok(Test::Known(b)),
        None => truth_of(alloc, around, a, found, body),
    }
}

/// By the truth of a variable.
#[tactic(auto, unfolding(crate::specs::Links::branch))]
pub fn branch(
    alloc: Global,
    lowered: Lowered<'_>,
    v: VarId,
    there: &Link,
    elsewhere: &Link,
    found: &mut Found,
    body: &mut Body,
) -> Result<LlExit, NoMem>
    ensures { IfOk result (λ exit. Gives (spec.branch (the_lowered lowered.entry) v there.now elsewhere.now (writing found.old body.old)) exit found.new body.new) }
{
    let operand = operand_of(lowered, v);
    let test = truth_test(alloc, lowered.around, operand, found, body)?;
    by_test(alloc, lowered, there, elsewhere, test, found, body)
}

/// What the graph gives.
#[tactic(auto, unfolding(crate::specs::Links::give_back))]
pub fn give_back(
    alloc: Global,
    lowered: Lowered<'_>,
    v: VarId,
    found: &mut Found,
    body: &mut Body,
) -> Result<LlExit, NoMem>
    ensures { IfOk result (λ exit. Gives (spec.give_back (the_lowered lowered.entry) v (writing found.old body.old)) exit found.new body.new) }
{
    match lowered.result {
        LlType::Void => Ok(LlExit::Return(None)),
        to => {
            let operand = operand_of(lowered, v);
            let x = given(alloc, lowered.around, operand, to, found, body)?;
            Ok(LlExit::Return(Some(x)))
        }
    }
}
