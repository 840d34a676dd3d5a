// The checks of a program: annotation and types.
ghost use Rattle.std.specs.Prelude.{◌≡◌, ◌<◌, ◌++◌, ◌-◌, ◌^◌, length, ltb, true, IfOk, OnOk};
ghost use Rattle.std.specs.List.{flat_map};
ghost use Rattle.rpy_tree.specs.Places.{node_count};
ghost use Rattle.flow_graph.specs.Whole.{Covers};
ghost use Rattle.ann_shown.specs.Told.{IsPlanOf};
ghost use Rattle.rpy_checked.specs.Settles as spec;
ghost use Rattle.rpy_checked.specs.Words as words;

use crate::fault::{CheckFault, TypeKind};
use ann_element::{Annotation, Element, Sites, SpotKind};
use ann_layout::{Planned, plan_of};
use ann_needs::Plan;
use ann_settled::{Unsettled, close};
use ann_shown::Told;
use ann_text::put_element;
use class_desc::Classes;
use flow_graph::Graphs;
use flow_space::flow;
use rpy_base::{NoMem, Text};
use rpy_kinds::{Kind, kind_at, word_of};
use rpy_resolved::{Labels, labels_of};
use rpy_tree::{Module, NodeId, Program};
use rtyper_core::{TypeFault, typing};
use std::alloc::Global;

/// What the checks of a program came to.
#[derive(Drop)]
pub struct Checked {
    pub graphs: Graphs,
    pub classes: Classes,
    pub annotation: Annotation,
}

// ---- places

// The place of the file of a node.
fn file_of(program: &Program, node: NodeId) -> u32
    ensures { spec.IsFile program.now node result }
{
    if program.modules.len() <= 4294967295 {
        program.node_file(node)
    } else {
        0
    }
}

// ---- conflicts

// The word for the place of a conflict: that of what stands at its node, or of its part.
fn spot_word(kind: &SpotKind, found: Option<Kind>) -> &'static [u8]
    ensures { result.now ≡ words.spot_word kind.now found }
{
    match kind {
        SpotKind::Param => b"param".as_slice(),
        SpotKind::Result => b"result".as_slice(),
        SpotKind::Attr(_) => b"attr".as_slice(),
        SpotKind::Keys => b"keys".as_slice(),
        SpotKind::Items => b"items".as_slice(),
        SpotKind::Node => node_word(found),
    }
}

fn node_word(found: Option<Kind>) -> &'static [u8]
    ensures { result.now ≡ words.node_word found }
{
    match found {
        None => b"expr".as_slice(),
        Some(kind) => word_of(kind),
    }
}

fn put_operand(
    alloc: Global,
    labels: &Labels,
    same: &Sites,
    operand: &Element,
    text: &mut Text,
) -> Result<(), NoMem>
    ensures { OnOk result (text.new ≡ text.old ++ words.operand_text labels.now same.now operand.now) }
{
    text.append(b" ")?;
    put_element(alloc, labels, same, operand, text)
}

fn put_operands(
    alloc: Global,
    labels: &Labels,
    same: &Sites,
    operands: &[Element],
    text: &mut Text,
) -> Result<(), NoMem>
    ensures { OnOk result (text.new ≡ text.old ++ flat_map (words.operand_text labels.now same.now) operands.now) }
{
    for operand in operands {
        put_operand(alloc, labels, same, operand, text)?;
    }
    Ok(())
}

// The names of a program's functions and classes.
fn names_of(alloc: Global, program: &Program) -> Result<Labels, NoMem>
    ensures { IfOk result (λ labels. labels ≡ words.labels program.now) }
{
    let labels = labels_of(alloc, program)?;
    Ok(labels)
}

// The word for a conflict, and the elements of its operands.
fn conflict_words(alloc: Global, program: &Program, told: &Told) -> Result<Text, NoMem>
    ensures { IfOk result (λ text. text ≡ words.conflict_words program.now told.now) }
{
    let found = kind_at(program, told.spot.node)?;
    let labels = names_of(alloc, program)?;
    let same = Sites::new(alloc, program)?;
    let mut text = Text::from_bytes(alloc, spot_word(&told.spot.kind, found))?;
    put_operands(alloc, &labels, &same, told.operands.as_slice(), &mut text)?;
    Ok(text)
}

fn conflicting(alloc: Global, program: &Program, told: &Told) -> CheckFault
    ensures { spec.IsShown program.now told.now result }
{
    match conflict_words(alloc, program, told) {
        Err(NoMem) => CheckFault::NoMem,
        Ok(words) => CheckFault::Conflict(
            file_of(program, told.spot.node),
            program.node_line(told.spot.node),
            words,
        ),
    }
}

// ---- types

fn typed_at(program: &Program, node: NodeId, kind: TypeKind) -> CheckFault
    ensures { spec.IsAt program.now node kind result }
{
    CheckFault::Typing(file_of(program, node), program.node_line(node), kind)
}

fn untyped(program: &Program, fault: TypeFault) -> CheckFault
    ensures { spec.IsTold program.now fault result }
{
    match fault {
        TypeFault::ConstantModified(node) => typed_at(program, node, TypeKind::ConstantModified),
        TypeFault::MaybeUnbound(node) => typed_at(program, node, TypeKind::MaybeUnbound),
        TypeFault::Family(node) => typed_at(program, node, TypeKind::Family),
        TypeFault::EntryResult(node) => typed_at(program, node, TypeKind::EntryResult),
        TypeFault::NoMem => CheckFault::NoMem,
    }
}

// ---- sizes

// Whether a number of 32 bits counts the nodes.
fn has_few_nodes(modules: &[Module]) -> bool
    ensures { result ≡ ltb (node_count modules.now) (2 ^ 32) }
{
    let mut count = 0u32;
    for module in modules {
        match count.checked_add(module.nodes) {
            None => return false,
            Some(sum) => count = sum,
        }
    }
    true
}

// Whether nodes and classes have numbers of 32 bits.
fn is_small(program: &Program) -> bool
    ensures nodes { result ≡ true → node_count program.now.modules < 2 ^ 32 }
    ensures classes { result ≡ true → length program.now.classes < 2 ^ 32 - 1 }
{
    program.classes.len() < 4294967295 && has_few_nodes(program.modules.as_slice())
}

// ---- the whole

fn annotated(alloc: Global, program: &Program, planned: &Planned) -> Result<Annotation, CheckFault>
    requires { IsPlanOf program.now planned.now.plan }
    ensures { spec.Annotates program.now planned.now result }
{
    match close(alloc, program, planned) {
        Ok(annotation) => Ok(annotation),
        Err(Unsettled::NoMem) => Err(CheckFault::NoMem),
        Err(Unsettled::Conflict(told)) => Err(conflicting(alloc, program, &told)),
    }
}

fn typed(
    alloc: Global,
    program: &Program,
    plan: &Plan,
    annotation: &Annotation,
) -> Result<(), CheckFault>
    ensures { spec.Types program.now plan.now.graphs annotation.now plan.now.classes result }
{
    match typing(alloc, program, &plan.graphs, annotation, &plan.classes) {
        Ok(()) => Ok(()),
        Err(fault) => Err(untyped(program, fault)),
    }
}

fn checked_of(planned: Planned, annotation: Annotation) -> Checked
    ensures { result ≡ spec.checked planned annotation }
{
    let Planned {
        plan,
        cells: _,
        marks: _,
    } = planned;
    let Plan {
        classes,
        callees: _,
        sites: _,
        graphs,
        entry: _,
        literals: _,
        places: _,
    } = plan;
    Checked {
        graphs,
        classes,
        annotation,
    }
}

fn check_small(alloc: Global, program: &Program) -> Result<Checked, CheckFault>
    requires nodes { node_count program.now.modules < 2 ^ 32 }
    requires classes { length program.now.classes < 2 ^ 32 - 1 }
    ensures covers { IfOk result (λ checked. Covers program.now checked.graphs) }
    ensures checks { spec.Checks program.now result }
{
    let graphs = flow(alloc, program)?;
    let classes = Classes::new(alloc, program)?;
    let planned = plan_of(alloc, program, graphs, classes)?;
    match annotated(alloc, program, &planned) {
        Err(fault) => Err(fault),
        Ok(annotation) => match typed(alloc, program, &planned.plan, &annotation) {
            Err(fault) => Err(fault),
            Ok(()) => Ok(checked_of(planned, annotation)),
        },
    }
}

/// The graphs, the classes and the least annotation of a program that has types; else the first cause of
/// its refusal: a conflict, or the least fault of types. Nodes and classes have numbers of 32 bits: for a
/// program of more the answer is want of memory.
pub fn check(alloc: Global, program: &Program) -> Result<Checked, CheckFault>
    ensures covers { IfOk result (λ checked. Covers program.now checked.graphs) }
    ensures checks { spec.Checks program.now result }
{
    if is_small(program) {
        check_small(alloc, program)
    } else {
        Err(CheckFault::NoMem)
    }
}
