// The members of modules, in node order.
ghost use Rattle.std.specs.Prelude.{◌≡◌, ◌++◌, ◌∷◌, [], OnOk, IfOk};
ghost use Rattle.rpy_nodes.specs.Listing as spec;
ghost use Rattle.rpy_tree.specs.declared.syntax.Member.{out-Member};
ghost use Rattle.rpy_tree.specs.declared.syntax.ClassDef.{out-ClassDef};

use crate::event::Event;
use crate::expression::walk_expr;
use crate::names::NameId;
use crate::statement::walk_block;
use crate::unit::{Parameter, Unit, What};
use crate::walk::Walk;
use rpy_base::{NoMem, Seq, Text};
use rpy_tree::{ClassDef, Expr, Function, Member, NodeId, Param};
use std::alloc::Global;

// The numbers of names.
fn numbers(alloc: Global, walk: &mut Walk, names: &[Text]) -> Result<Seq<NameId>, NoMem>
    ensures value { IfOk result (λ v. v ≡ (spec.numbers names.now walk.old).0) }
    ensures walk { OnOk result (walk.new ≡ (spec.numbers names.now walk.old).1) }
{
    let mut numbers = Seq::new(alloc);
    for name in names {
        numbers.push(walk.number(alloc, name)?)?;
    }
    Ok(numbers)
}

fn default_of(alloc: Global, walk: &mut Walk, e: &Option<Expr>) -> Result<Option<Seq<Event>>, NoMem>
    ensures value { IfOk result (λ v. v ≡ (spec.default_of e.now walk.old).0) }
    ensures walk { OnOk result (walk.new ≡ (spec.default_of e.now walk.old).1) }
{
    match e {
        None => Ok(None),
        Some(e) => {
            walk_expr(alloc, walk, e)?;
            Ok(Some(walk.cut(alloc)))
        }
    }
}

fn parameter(alloc: Global, walk: &mut Walk, param: &Param) -> Result<Parameter, NoMem>
    ensures value { IfOk result (λ v. v ≡ (spec.parameter param.now walk.old).0) }
    ensures walk { OnOk result (walk.new ≡ (spec.parameter param.now walk.old).1) }
{
    let node = walk.skip()?;
    let name = walk.number(alloc, &param.name)?;
    let default = default_of(alloc, walk, &param.default)?;
    Ok(Parameter {
        node,
        name,
        default,
    })
}

fn parameters(alloc: Global, walk: &mut Walk, params: &[Param]) -> Result<Seq<Parameter>, NoMem>
    ensures value { IfOk result (λ v. v ≡ (spec.parameters params.now walk.old).0) }
    ensures walk { OnOk result (walk.new ≡ (spec.parameters params.now walk.old).1) }
{
    let mut parameters = Seq::new(alloc);
    for param in params {
        parameters.push(parameter(alloc, walk, param)?)?;
    }
    Ok(parameters)
}

// A member that is no class, and its node.
fn function(alloc: Global, walk: &mut Walk, of: &Function) -> Result<(NodeId, What), NoMem>
    ensures value { IfOk result (λ v. v ≡ (spec.function of.now walk.old).0) }
    ensures walk { OnOk result (walk.new ≡ (spec.function of.now walk.old).1) }
{
    let node = walk.skip()?;
    let name = walk.number(alloc, &of.name)?;
    let parameters = parameters(alloc, walk, of.params.as_slice())?;
    walk_block(alloc, walk, of.body.as_slice())?;
    let body = walk.cut(alloc);
    Ok((node, What::Def(name, parameters, of.star, body)))
}

fn constant(alloc: Global, walk: &mut Walk, name: &Text, e: &Expr) -> Result<(NodeId, What), NoMem>
    ensures value { IfOk result (λ v. v ≡ (spec.constant name.now e.now walk.old).0) }
    ensures walk { OnOk result (walk.new ≡ (spec.constant name.now e.now walk.old).1) }
{
    walk_expr(alloc, walk, e)?;
    let value = walk.cut(alloc);
    let node = walk.skip()?;
    let name = walk.number(alloc, name)?;
    Ok((node, What::Constant(name, value)))
}

fn import(alloc: Global, walk: &mut Walk, names: &[Text]) -> Result<(NodeId, What), NoMem>
    ensures value { IfOk result (λ v. v ≡ (spec.import names.now walk.old).0) }
    ensures walk { OnOk result (walk.new ≡ (spec.import names.now walk.old).1) }
{
    let node = walk.skip()?;
    let names = numbers(alloc, walk, names)?;
    Ok((node, What::Import(names)))
}

fn from(
    alloc: Global,
    walk: &mut Walk,
    path: &[Text],
    names: &[Text],
) -> Result<(NodeId, What), NoMem>
    ensures value { IfOk result (λ v. v ≡ (spec.from path.now names.now walk.old).0) }
    ensures walk { OnOk result (walk.new ≡ (spec.from path.now names.now walk.old).1) }
{
    let node = walk.skip()?;
    let path = numbers(alloc, walk, path)?;
    let names = numbers(alloc, walk, names)?;
    Ok((node, What::From(path, names)))
}

fn class(alloc: Global, walk: &mut Walk, of: &ClassDef) -> Result<(NodeId, What), NoMem>
    ensures value { IfOk result (λ v. v ≡ (spec.class of.now walk.old).0) }
    ensures walk { OnOk result (walk.new ≡ (spec.class of.now walk.old).1) }
{
    let node = walk.skip()?;
    let name = walk.number(alloc, &of.name)?;
    let base = numbers(alloc, walk, of.base.as_slice())?;
    Ok((node, What::Class(name, base)))
}

fn member(alloc: Global, walk: &mut Walk, of: &Member) -> Result<(NodeId, What), NoMem>
    ensures value { IfOk result (λ v. v ≡ (spec.member of.now walk.old).0) }
    ensures walk { OnOk result (walk.new ≡ (spec.member of.now walk.old).1) }
{
    match of {
        Member::Import(_, names) => import(alloc, walk, names.as_slice()),
        Member::From(_, path, names) => from(alloc, walk, path.as_slice(), names.as_slice()),
        Member::Const(_, name, e) => constant(alloc, walk, name, e),
        Member::Def(of) => function(alloc, walk, of),
        Member::Class(of) => class(alloc, walk, of),
    }
}

// A member is listed.
fn list_member(
    alloc: Global,
    walk: &mut Walk,
    units: &mut Seq<Unit>,
    file: usize,
    place: usize,
    inside: bool,
    of: &Member,
) -> Result<(), NoMem>
    ensures units { OnOk result (units.new ≡ (spec.list_said file place inside units.old (spec.member of.now walk.old)).0) }
    ensures walk { OnOk result (walk.new ≡ (spec.list_said file place inside units.old (spec.member of.now walk.old)).1) }
{
    let (node, what) = member(alloc, walk, of)?;
    units.push(Unit {
        file,
        place,
        inside,
        node,
        what,
    })
}

fn list_inside(
    alloc: Global,
    walk: &mut Walk,
    units: &mut Seq<Unit>,
    file: usize,
    place: usize,
    members: &[Member],
) -> Result<(), NoMem>
    ensures units { OnOk result (units.new ≡ (spec.list_inside file place members.now (units.old, walk.old)).0) }
    ensures walk { OnOk result (walk.new ≡ (spec.list_inside file place members.now (units.old, walk.old)).1) }
{
    for of in members {
        list_member(alloc, walk, units, file, place, true, of)?;
    }
    Ok(())
}

// The members in the body of a class.
fn body_of(of: &Member) -> &[Member]
    ensures { result.now ≡ spec.body_of of.now }
{
    match of {
        Member::Class(class) => class.members.as_slice(),
        _ => &[],
    }
}

/// The members of a module are listed.
pub fn list_members(
    alloc: Global,
    walk: &mut Walk,
    units: &mut Seq<Unit>,
    file: usize,
    members: &[Member],
) -> Result<(), NoMem>
    ensures units { OnOk result (units.new ≡ (spec.list_members file 0 members.now (units.old, walk.old)).0) }
    ensures walk { OnOk result (walk.new ≡ (spec.list_members file 0 members.now (units.old, walk.old)).1) }
{
    for (place, of) in members.iter().enumerate() {
        list_member(alloc, walk, units, file, place, false, of)?;
        list_inside(alloc, walk, units, file, place, body_of(of))?;
    }
    Ok(())
}
