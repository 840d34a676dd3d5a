// The nodes of functions and of their parameters.
ghost use Rattle.std.specs.Prelude.{◌≡◌, ◌+◌, map, option_map, slice_get, IfOk, OnOk};
ghost use Rattle.rpy_tree.specs.declared.syntax.Member.{out-Member};
ghost use Rattle.ann_shown.specs.Functions as spec;

use rpy_base::{NoMem, Seq};
use rpy_tree::{Function, Member, Module, Param, Program};
use std::alloc::Global;

/// The node of a function, and those of its parameters.
#[derive(Drop)]
pub struct Nodes {
    pub function: u64,
    pub params: Seq<u64>,
}

fn plus(a: u64, b: u64) -> Result<u64, NoMem>
    ensures { IfOk result (λ sum. sum ≡ a + b) }
{
    match a.checked_add(b) {
        None => Err(NoMem),
        Some(sum) => Ok(sum),
    }
}

fn node_in(first: u64, param: &Param) -> Result<u64, NoMem>
    ensures { IfOk result (λ node. node ≡ spec.node_in first param.now) }
{
    plus(first, u64::from(param.node))
}

fn params_in(alloc: Global, first: u64, params: &[Param]) -> Result<Seq<u64>, NoMem>
    ensures { IfOk result (λ nodes. nodes ≡ map (spec.node_in first) params.now) }
{
    let mut nodes = Seq::new(alloc);
    for param in params {
        nodes.push(node_in(first, param)?)?;
    }
    Ok(nodes)
}

fn nodes_in(alloc: Global, first: u64, f: &Function) -> Result<Nodes, NoMem>
    ensures { IfOk result (λ nodes. nodes ≡ spec.nodes_in first f.now) }
{
    Ok(Nodes {
        function: plus(first, u64::from(f.node))?,
        params: params_in(alloc, first, f.params.as_slice())?,
    })
}

fn add_method(alloc: Global, first: u64, member: &Member, all: &mut Seq<Nodes>) -> Result<(), NoMem>
    ensures { OnOk result (all.new ≡ spec.with_method first (out-Member member.now) all.old) }
{
    match member {
        Member::Def(f) => all.push(nodes_in(alloc, first, f)?),
        _ => Ok(()),
    }
}

fn add_methods(
    alloc: Global,
    first: u64,
    members: &[Member],
    all: &mut Seq<Nodes>,
) -> Result<(), NoMem>
    ensures { OnOk result (all.new ≡ spec.with_methods first members.now all.old) }
{
    for member in members {
        add_method(alloc, first, member, all)?;
    }
    Ok(())
}

fn add_member(alloc: Global, first: u64, member: &Member, all: &mut Seq<Nodes>) -> Result<(), NoMem>
    ensures { OnOk result (all.new ≡ spec.with_member first (out-Member member.now) all.old) }
{
    match member {
        Member::Class(class) => add_methods(alloc, first, class.members.as_slice(), all),
        _ => add_method(alloc, first, member, all),
    }
}

fn add_members(
    alloc: Global,
    first: u64,
    members: &[Member],
    all: &mut Seq<Nodes>,
) -> Result<(), NoMem>
    ensures { OnOk result (all.new ≡ spec.with_members first members.now all.old) }
{
    for member in members {
        add_member(alloc, first, member, all)?;
    }
    Ok(())
}

fn add_modules(alloc: Global, modules: &[Module], all: &mut Seq<Nodes>) -> Result<(), NoMem>
    ensures { OnOk result (all.new ≡ spec.with_modules 0 modules.now all.old) }
{
    let mut first: u64 = 0;
    for module in modules {
        add_members(alloc, first, module.members.as_slice(), all)?;
        first = plus(first, u64::from(module.nodes))?;
    }
    Ok(())
}

fn function_nodes(alloc: Global, program: &Program) -> Result<Seq<Nodes>, NoMem>
    ensures { IfOk result (λ all. all ≡ spec.function_nodes program.now) }
{
    let mut all = Seq::new(alloc);
    add_modules(alloc, program.modules.as_slice(), &mut all)?;
    Ok(all)
}

fn function_at(all: &[Nodes], f: usize) -> Option<u64>
    ensures { result ≡ option_map (λ nodes. nodes.function) (slice_get all.now f) }
{
    match all.get(f) {
        None => None,
        Some(nodes) => Some(nodes.function),
    }
}

fn param_at(all: &[Nodes], f: usize, at: usize) -> Option<u64>
    ensures { result ≡ spec.param_in (slice_get all.now f) at }
{
    match all.get(f) {
        None => None,
        Some(nodes) => match nodes.params.get(at) {
            None => None,
            Some(node) => Some(*node),
        },
    }
}

/// The node of a function.
pub fn function_node(alloc: Global, program: &Program, f: usize) -> Result<Option<u64>, NoMem>
    ensures { IfOk result (λ node. node ≡ spec.function_node program.now f) }
{
    let all = function_nodes(alloc, program)?;
    Ok(function_at(all.as_slice(), f))
}

/// The node of a parameter of a function.
pub fn param_node(
    alloc: Global,
    program: &Program,
    f: usize,
    at: usize,
) -> Result<Option<u64>, NoMem>
    ensures { IfOk result (λ node. node ≡ spec.param_node program.now f at) }
{
    let all = function_nodes(alloc, program)?;
    Ok(param_at(all.as_slice(), f, at))
}
