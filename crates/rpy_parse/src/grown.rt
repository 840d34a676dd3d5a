// Members are numbered and put together.
ghost use Rattle.std.specs.Prelude.{◌≡◌, [], MatchResult};
ghost use Rattle.rpy_tree.specs.declared.syntax.Member.TheVariants as m;
ghost use Rattle.rpy_parse.specs.Build as spec;

use crate::fault::Stop;
use crate::found::{Body, Got, Grown, Members, Numbered, Params};
use crate::node::numbered;
use rpy_base::{Seq, Text};
use rpy_tree::{ClassDef, Function, Member, Module, NodeId, Param};
use std::alloc::Global;

pub fn no_members(alloc: Global, lines: Seq<u32>) -> Members
    ensures { result ≡ spec.no_members lines }
{
    Members {
        members: Seq::new(alloc),
        lines,
    }
}

pub fn member_pushed(members: Seq<Member>, grown: Grown) -> Result<Members, Stop>
    ensures { MatchResult result (λ new. new ≡ spec.member_pushed members grown) (λ e. e ≡ Stop.NoMem) }
{
    let mut members = members;
    members.push(grown.member)?;
    Ok(Members {
        members,
        lines: grown.lines,
    })
}

pub fn constant_of(line: u32, name: Text, value: Got) -> Result<Grown, Stop>
    ensures { MatchResult result (λ new. new ≡ spec.constant_of line name value) (λ e. e ≡ Stop.NoMem) }
{
    let new = numbered(value.lines, line)?;
    Ok(Grown {
        member: Member::Const(new.node, name, value.tree),
        lines: new.lines,
    })
}

pub fn import_of(lines: Seq<u32>, line: u32, names: Seq<Text>) -> Result<Grown, Stop>
    ensures { MatchResult result (λ new. new ≡ spec.import_of lines line names) (λ e. e ≡ Stop.NoMem) }
{
    let new = numbered(lines, line)?;
    Ok(Grown {
        member: Member::Import(new.node, names),
        lines: new.lines,
    })
}

pub fn from_of(lines: Seq<u32>, line: u32, path: Seq<Text>, names: Seq<Text>) -> Result<Grown, Stop>
    ensures { MatchResult result (λ new. new ≡ spec.from_of lines line path names) (λ e. e ≡ Stop.NoMem) }
{
    let new = numbered(lines, line)?;
    Ok(Grown {
        member: Member::From(new.node, path, names),
        lines: new.lines,
    })
}

pub fn function_of(node: NodeId, name: Text, params: Seq<Param>, star: bool, body: Body) -> Grown
    ensures { result ≡ spec.grown (m.Def (record { node = node; name = name; params = params; star = star; body = body.stmts })) body.lines }
{
    Grown {
        member: Member::Def(Function {
            node,
            name,
            params,
            star,
            body: body.stmts,
        }),
        lines: body.lines,
    }
}

pub fn class_of(node: NodeId, name: Text, base: Seq<Text>, own: Members) -> Grown
    ensures { result ≡ spec.class_of node name base own }
{
    Grown {
        member: Member::Class(ClassDef {
            node,
            name,
            base,
            members: own.members,
        }),
        lines: own.lines,
    }
}

pub fn no_params(alloc: Global, lines: Seq<u32>) -> Params
    ensures { result ≡ spec.no_params lines }
{
    Params {
        params: Seq::new(alloc),
        defaults: false,
        star: false,
        lines,
    }
}

pub fn default_param(
    params: Seq<Param>,
    star: bool,
    node: NodeId,
    name: Text,
    value: Got,
) -> Result<Params, Stop>
    ensures { MatchResult result (λ new. new ≡ spec.default_param params star node name value) (λ e. e ≡ Stop.NoMem) }
{
    let mut params = params;
    params.push(Param {
        node,
        name,
        default: Some(value.tree),
    })?;
    Ok(Params {
        params,
        defaults: true,
        star,
        lines: value.lines,
    })
}

pub fn plain_param(
    params: Seq<Param>,
    star: bool,
    new: Numbered,
    name: Text,
) -> Result<Params, Stop>
    ensures { MatchResult result (λ new_params. new_params ≡ spec.plain_param params star new name) (λ e. e ≡ Stop.NoMem) }
{
    let mut params = params;
    params.push(Param {
        node: new.node,
        name,
        default: None,
    })?;
    Ok(Params {
        params,
        defaults: false,
        star,
        lines: new.lines,
    })
}

/// The parameter behind a star.
pub fn star_param(x: Params, line: u32, name: Text) -> Result<Params, Stop>
    ensures { MatchResult result (λ new. new ≡ spec.star_param x line name) (λ e. e ≡ Stop.NoMem) }
{
    let Params {
        params,
        defaults,
        lines,
        ..
    } = x;
    let new = numbered(lines, line)?;
    let mut params = params;
    params.push(Param {
        node: new.node,
        name,
        default: None,
    })?;
    Ok(Params {
        params,
        defaults,
        star: true,
        lines: new.lines,
    })
}

pub fn module_of(x: Members) -> Result<Module, Stop>
    ensures { MatchResult result (λ new. new ≡ spec.module_of x) (λ e. e ≡ Stop.NoMem) }
{
    let Ok(nodes) = u32::try_from(x.lines.len()) else {
        return Err(Stop::NoMem);
    };
    Ok(Module {
        members: x.members,
        nodes,
        lines: x.lines,
    })
}
