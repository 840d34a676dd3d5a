// What the names of a program's nodes stand for.
ghost use Rattle.std.specs.Prelude.{◌≡◌, ◌<◌, ◌^◌, IfOk, OnOk};
ghost use Rattle.rpy_names.specs.Uses as spec;

use names_bound::Stand;
use names_found::unit::Default;
use names_found::{Found, Step};
use names_value::machine::narrow;
use names_value::{Root, copy_const};
use rpy_base::{NoMem, Seq};
use rpy_nodes::Act;
use rpy_tree::{Const, NodeId, Use};
use std::alloc::Global;

// The use of a constant.
fn constant_use(alloc: Global, values: &[Option<Const>], number: usize) -> Result<Use, NoMem>
    ensures { IfOk result (λ of. of ≡ spec.constant_use values.now number) }
{
    match values.get(number) {
        Some(Some(value)) => Ok(Use::Value(copy_const(alloc, value)?)),
        _ => Ok(Use::Nothing),
    }
}

// What a name stands for in a program. `os` and `sys` have the numbers after those of the modules.
fn use_of(
    alloc: Global,
    values: &[Option<Const>],
    modules: usize,
    stand: Stand,
) -> Result<Use, NoMem>
    requires { modules < 2 ^ 63 }
    ensures { IfOk result (λ of. of ≡ spec.use_of values.now modules stand) }
{
    match stand {
        Stand::Local(local) => Ok(Use::Local(narrow(local))),
        Stand::Function(function) => Ok(Use::Function(narrow(function))),
        Stand::Method(function) => Ok(Use::Function(narrow(function))),
        Stand::Class(class) => Ok(Use::Class(narrow(class))),
        Stand::Constant(constant) => constant_use(alloc, values, constant),
        Stand::Module(file) => Ok(Use::Module(narrow(file))),
        Stand::Os => Ok(Use::Module(narrow(modules))),
        Stand::Sys => Ok(Use::Module(narrow(modules + 1))),
        Stand::MaxInt => Ok(Use::Value(Const::Word(i64::MAX))),
        Stand::NoneValue => Ok(Use::Value(Const::None)),
        Stand::TrueValue => Ok(Use::Value(Const::Bool(true))),
        Stand::FalseValue => Ok(Use::Value(Const::Bool(false))),
        Stand::Builtin(builtin) => Ok(Use::Builtin(builtin)),
        _ => Ok(Use::Nothing),
    }
}

fn no_uses(alloc: Global, nodes: u32) -> Result<Seq<Use>, NoMem>
    ensures { IfOk result (λ uses. uses ≡ spec.no_uses nodes) }
{
    let mut uses = Seq::new(alloc);
    for _node in 0..nodes {
        uses.push(Use::Nothing)?;
    }
    Ok(uses)
}

fn put(uses: &mut Seq<Use>, node: NodeId, of: Use)
    ensures { uses.new ≡ spec.put node of uses.old }
{
    let at = node as usize;
    if at < uses.len() {
        uses.set(at, of);
    }
}

fn put_stand(
    alloc: Global,
    uses: &mut Seq<Use>,
    values: &[Option<Const>],
    modules: usize,
    node: NodeId,
    stand: Stand,
) -> Result<(), NoMem>
    requires { modules < 2 ^ 63 }
    ensures { OnOk result (uses.new ≡ spec.put_stand values.now modules node stand uses.old) }
{
    match stand {
        Stand::Nothing => Ok(()),
        stand => {
            let of = use_of(alloc, values, modules, stand)?;
            put(uses, node, of);
            Ok(())
        }
    }
}

// What the head of a clause names has no use.
fn put_step(
    alloc: Global,
    uses: &mut Seq<Use>,
    values: &[Option<Const>],
    modules: usize,
    step: &Step,
) -> Result<(), NoMem>
    requires { modules < 2 ^ 63 }
    ensures { OnOk result (uses.new ≡ spec.put_step values.now modules step.now uses.old) }
{
    match step.act {
        Act::CaughtEnd => Ok(()),
        Act::Catch(_) => Ok(()),
        _ => put_stand(alloc, uses, values, modules, step.node, step.stand),
    }
}

fn put_steps(
    alloc: Global,
    uses: &mut Seq<Use>,
    values: &[Option<Const>],
    modules: usize,
    steps: &[Step],
) -> Result<(), NoMem>
    requires { modules < 2 ^ 63 }
    ensures { OnOk result (uses.new ≡ spec.put_steps values.now modules steps.now uses.old) }
{
    for step in steps {
        put_step(alloc, uses, values, modules, step)?;
    }
    Ok(())
}

fn put_option(
    alloc: Global,
    uses: &mut Seq<Use>,
    values: &[Option<Const>],
    modules: usize,
    steps: &Option<Seq<Step>>,
) -> Result<(), NoMem>
    requires { modules < 2 ^ 63 }
    ensures { OnOk result (uses.new ≡ spec.put_option values.now modules steps.now uses.old) }
{
    match steps {
        None => Ok(()),
        Some(steps) => put_steps(alloc, uses, values, modules, steps.as_slice()),
    }
}

fn put_defaults(
    alloc: Global,
    uses: &mut Seq<Use>,
    values: &[Option<Const>],
    modules: usize,
    defaults: &[Default],
) -> Result<(), NoMem>
    requires { modules < 2 ^ 63 }
    ensures { OnOk result (uses.new ≡ spec.put_defaults values.now modules defaults.now uses.old) }
{
    for default in defaults {
        put_option(alloc, uses, values, modules, &default.steps)?;
    }
    Ok(())
}

fn put_unit(
    alloc: Global,
    uses: &mut Seq<Use>,
    values: &[Option<Const>],
    modules: usize,
    found: &Found,
) -> Result<(), NoMem>
    requires { modules < 2 ^ 63 }
    ensures { OnOk result (uses.new ≡ spec.put_unit values.now modules found.now uses.old) }
{
    put_steps(alloc, uses, values, modules, found.value.as_slice())?;
    put_defaults(alloc, uses, values, modules, found.defaults.as_slice())?;
    put_steps(alloc, uses, values, modules, found.body.as_slice())
}

fn put_units(
    alloc: Global,
    uses: &mut Seq<Use>,
    values: &[Option<Const>],
    modules: usize,
    found: &[Found],
) -> Result<(), NoMem>
    requires { modules < 2 ^ 63 }
    ensures { OnOk result (uses.new ≡ spec.put_units values.now modules found.now uses.old) }
{
    for unit in found {
        put_unit(alloc, uses, values, modules, unit)?;
    }
    Ok(())
}

fn put_roots(alloc: Global, uses: &mut Seq<Use>, roots: &[Root]) -> Result<(), NoMem>
    ensures { OnOk result (uses.new ≡ spec.put_roots roots.now uses.old) }
{
    for root in roots {
        let value = copy_const(alloc, &root.value)?;
        put(uses, root.node, Use::Value(value));
    }
    Ok(())
}

/// The use of each node. The node of a constant expression, and of the third argument of a range, has
/// its value.
pub fn program_uses(
    alloc: Global,
    nodes: u32,
    values: &[Option<Const>],
    modules: usize,
    found: &[Found],
    roots: &[Root],
) -> Result<Seq<Use>, NoMem>
    requires { modules < 2 ^ 63 }
    ensures { IfOk result (λ uses. uses ≡ spec.uses nodes values.now modules found.now roots.now) }
{
    let mut uses = no_uses(alloc, nodes)?;
    put_units(alloc, &mut uses, values, modules, found)?;
    put_roots(alloc, &mut uses, roots)?;
    Ok(uses)
}
