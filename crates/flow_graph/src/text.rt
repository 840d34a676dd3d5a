// The text of graphs.
ghost use Rattle.std.specs.Prelude.{◌≡◌, ◌++◌, OnOk, IfOk, codes};
ghost use Rattle.std.specs.Fmt.{decimal};
ghost use Rattle.std.specs.List.{flat_map};
ghost use Rattle.rpy_resolved.specs.Label.{class_labels, function_labels};
ghost use Rattle.flow_graph.specs.GraphText as spec;

use crate::graph::{Block, Exit, Graph, Graphs, Link, Op, VarId};
use crate::word::put_word;
use rpy_base::{NoMem, Text, udecimal};
use rpy_resolved::labels_of;
use rpy_tree::{ClassId, Program};
use std::alloc::Global;

fn put_number(alloc: Global, text: &mut Text, number: u64) -> Result<(), NoMem>
    ensures { OnOk result (text.new ≡ text.old ++ decimal number) }
{
    let digits = udecimal(alloc, number)?;
    text.append(digits.bytes())
}

fn put_variable(alloc: Global, text: &mut Text, variable: VarId) -> Result<(), NoMem>
    ensures { OnOk result (text.new ≡ text.old ++ spec.variable variable) }
{
    text.append(b"v")?;
    put_number(alloc, text, variable)
}

fn put_further(alloc: Global, text: &mut Text, variable: VarId) -> Result<(), NoMem>
    ensures { OnOk result (text.new ≡ text.old ++ spec.further variable) }
{
    text.append(b" ")?;
    put_variable(alloc, text, variable)
}

fn put_all_further(alloc: Global, text: &mut Text, variables: &[VarId]) -> Result<(), NoMem>
    ensures { OnOk result (text.new ≡ text.old ++ flat_map spec.further variables.now) }
{
    for variable in variables {
        put_further(alloc, text, *variable)?;
    }
    Ok(())
}

// Variables with a space between.
fn put_variables(alloc: Global, text: &mut Text, variables: &[VarId]) -> Result<(), NoMem>
    ensures { OnOk result (text.new ≡ text.old ++ spec.variables variables.now) }
{
    match variables {
        [] => Ok(()),
        [first, rest @ ..] => {
            put_variable(alloc, text, *first)?;
            put_all_further(alloc, text, rest)
        }
    }
}

fn put_place(alloc: Global, text: &mut Text, block: u64, variables: &[VarId]) -> Result<(), NoMem>
    ensures { OnOk result (text.new ≡ text.old ++ spec.place block variables.now) }
{
    put_number(alloc, text, block)?;
    text.append(b"(")?;
    put_variables(alloc, text, variables)?;
    text.append(b")")
}

fn put_link(alloc: Global, text: &mut Text, link: &Link) -> Result<(), NoMem>
    ensures { OnOk result (text.new ≡ text.old ++ spec.link link.now) }
{
    put_place(alloc, text, link.to, link.args.as_slice())
}

fn put_op(alloc: Global, text: &mut Text, op: &Op) -> Result<(), NoMem>
    ensures { OnOk result (text.new ≡ text.old ++ spec.operation op.now) }
{
    text.append(b"  ")?;
    put_variable(alloc, text, op.result)?;
    text.append(b" = ")?;
    put_word(text, &op.op)?;
    put_all_further(alloc, text, op.args.as_slice())?;
    text.append(b"\n")
}

fn put_ops(alloc: Global, text: &mut Text, ops: &[Op]) -> Result<(), NoMem>
    ensures { OnOk result (text.new ≡ text.old ++ flat_map spec.operation ops.now) }
{
    for op in ops {
        put_op(alloc, text, op)?;
    }
    Ok(())
}

// The name with this number.
fn put_name(text: &mut Text, names: &[Text], number: u32) -> Result<(), NoMem>
    ensures { OnOk result (text.new ≡ text.old ++ spec.name_at names.now number) }
{
    match names.get(number as usize) {
        None => Ok(()),
        Some(name) => text.append(name.bytes()),
    }
}

fn put_caught(
    alloc: Global,
    text: &mut Text,
    classes: &[Text],
    caught: &(ClassId, Link),
) -> Result<(), NoMem>
    ensures { OnOk result (text.new ≡ text.old ++ spec.caught classes.now caught.now) }
{
    text.append(b"  on ")?;
    put_name(text, classes, caught.0)?;
    text.append(b" ")?;
    put_link(alloc, text, &caught.1)?;
    text.append(b"\n")
}

fn put_all_caught(
    alloc: Global,
    text: &mut Text,
    classes: &[Text],
    all: &[(ClassId, Link)],
) -> Result<(), NoMem>
    ensures { OnOk result (text.new ≡ text.old ++ flat_map (spec.caught classes.now) all.now) }
{
    for caught in all {
        put_caught(alloc, text, classes, caught)?;
    }
    Ok(())
}

fn put_any(alloc: Global, text: &mut Text, any: &Option<Link>) -> Result<(), NoMem>
    ensures { OnOk result (text.new ≡ text.old ++ spec.any any.now) }
{
    match any {
        None => Ok(()),
        Some(link) => {
            text.append(b"  on any ")?;
            put_link(alloc, text, link)?;
            text.append(b"\n")
        }
    }
}

fn put_if(
    alloc: Global,
    text: &mut Text,
    variable: VarId,
    yes: &Link,
    no: &Link,
) -> Result<(), NoMem>
    ensures { OnOk result (text.new ≡ text.old ++ (codes "  if " ++ spec.variable variable ++ codes " " ++ spec.link yes.now ++ codes " else " ++ spec.link no.now ++ codes "\n")) }
{
    text.append(b"  if ")?;
    put_variable(alloc, text, variable)?;
    text.append(b" ")?;
    put_link(alloc, text, yes)?;
    text.append(b" else ")?;
    put_link(alloc, text, no)?;
    text.append(b"\n")
}

// A word, and the variable with which a function is left.
fn put_left(alloc: Global, text: &mut Text, word: &[u8], variable: VarId) -> Result<(), NoMem>
    ensures { OnOk result (text.new ≡ text.old ++ (word.now ++ spec.variable variable ++ codes "\n")) }
{
    text.append(word)?;
    put_variable(alloc, text, variable)?;
    text.append(b"\n")
}

fn put_to(alloc: Global, text: &mut Text, word: &[u8], link: &Link) -> Result<(), NoMem>
    ensures { OnOk result (text.new ≡ text.old ++ (word.now ++ spec.link link.now ++ codes "\n")) }
{
    text.append(word)?;
    put_link(alloc, text, link)?;
    text.append(b"\n")
}

fn put_exit(alloc: Global, text: &mut Text, classes: &[Text], exit: &Exit) -> Result<(), NoMem>
    ensures { OnOk result (text.new ≡ text.old ++ spec.exit_text classes.now exit.now) }
{
    match exit {
        Exit::Goto(link) => put_to(alloc, text, b"  goto ", link),
        Exit::If(variable, yes, no) => put_if(alloc, text, *variable, yes, no),
        Exit::OnRaise(variable, all, any, other) => {
            put_left(alloc, text, b"  caught ", *variable)?;
            put_all_caught(alloc, text, classes, all.as_slice())?;
            put_any(alloc, text, any)?;
            put_to(alloc, text, b"  else ", other)
        }
        Exit::Return(variable) => put_left(alloc, text, b"  return ", *variable),
        Exit::Raise(variable) => put_left(alloc, text, b"  raise ", *variable),
    }
}

fn put_block(
    alloc: Global,
    text: &mut Text,
    classes: &[Text],
    number: u64,
    block: &Block,
) -> Result<(), NoMem>
    ensures { OnOk result (text.new ≡ text.old ++ spec.block_text classes.now number block.now) }
{
    text.append(b"block ")?;
    put_place(alloc, text, number, block.inputs.as_slice())?;
    text.append(b"\n")?;
    put_ops(alloc, text, block.ops.as_slice())?;
    put_exit(alloc, text, classes, &block.exit)
}

fn put_blocks(
    alloc: Global,
    text: &mut Text,
    classes: &[Text],
    blocks: &[Block],
) -> Result<(), NoMem>
    ensures { OnOk result (text.new ≡ text.old ++ spec.numbered (spec.block_text classes.now) 0 blocks.now) }
{
    for i in 0..blocks.len() {
        put_block(alloc, text, classes, i as u64, &blocks[i])?;
    }
    Ok(())
}

fn put_graph(
    alloc: Global,
    text: &mut Text,
    functions: &[Text],
    classes: &[Text],
    graph: &Graph,
) -> Result<(), NoMem>
    ensures { OnOk result (text.new ≡ text.old ++ spec.graph_text functions.now classes.now graph.now) }
{
    text.append(b"graph ")?;
    put_name(text, functions, graph.function)?;
    text.append(b"\n")?;
    put_blocks(alloc, text, classes, graph.blocks.as_slice())
}

fn put_graphs(
    alloc: Global,
    text: &mut Text,
    functions: &[Text],
    classes: &[Text],
    graphs: &[Graph],
) -> Result<(), NoMem>
    ensures { OnOk result (text.new ≡ text.old ++ flat_map (spec.graph_text functions.now classes.now) graphs.now) }
{
    for graph in graphs {
        put_graph(alloc, text, functions, classes, graph)?;
    }
    Ok(())
}

/// The text of the graphs of a program: for each function its name and its blocks, and for each
/// block its operations and its exit, a line each.
pub fn graphs_text(alloc: Global, program: &Program, graphs: &Graphs) -> Result<Text, NoMem>
    ensures { IfOk result (λ text. text ≡ spec.graphs_text (function_labels program.now) (class_labels program.now) graphs.now) }
{
    let labels = labels_of(alloc, program)?;
    let mut text = Text::new(alloc);
    put_graphs(
        alloc,
        &mut text,
        labels.functions.as_slice(),
        labels.classes.as_slice(),
        graphs.graphs.as_slice(),
    )?;
    Ok(text)
}
