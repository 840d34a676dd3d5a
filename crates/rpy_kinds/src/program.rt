// What stands at a node of a program.
ghost use Rattle.std.specs.Prelude.{◌≡◌, ◌+◌, IfOk};
ghost use Rattle.rpy_tree.specs.declared.syntax.Member.{out-Member};
ghost use Rattle.rpy_kinds.specs.Places as spec;

use crate::kind::Kind;
use crate::search::{Search, read_block};
use rpy_base::NoMem;
use rpy_tree::{Member, Module, NodeId, Program};

fn in_method(node: u64, member: &Member, search: &mut Search)
    ensures { search.new ≡ spec.in_method node (out-Member member.now) search.old }
{
    match member {
        Member::Def(f) => read_block(node, f.body.as_slice(), search),
        _ => {}
    }
}

fn in_methods(node: u64, members: &[Member], search: &mut Search)
    ensures { search.new ≡ spec.in_methods node members.now search.old }
{
    for member in members {
        in_method(node, member, search);
    }
}

fn in_member(node: u64, member: &Member, search: &mut Search)
    ensures { search.new ≡ spec.in_member node (out-Member member.now) search.old }
{
    match member {
        Member::Class(class) => in_methods(node, class.members.as_slice(), search),
        _ => in_method(node, member, search),
    }
}

fn in_members(node: u64, members: &[Member], search: &mut Search)
    ensures { search.new ≡ spec.in_members node members.now search.old }
{
    for member in members {
        in_member(node, member, search);
    }
}

fn start() -> Search
    ensures { result ≡ spec.start }
{
    Search {
        last: 0,
        named: false,
        found: None,
    }
}

fn in_module(of: &Module, node: u64) -> Option<Kind>
    ensures { result ≡ spec.in_module «of».now node }
{
    let mut search = start();
    in_members(node, of.members.as_slice(), &mut search);
    search.found
}

// ---- numbers of the program

fn plus(a: u64, b: u64) -> Result<u64, NoMem>
    ensures { IfOk result (λ sum. sum ≡ a + b) }
{
    match a.checked_add(b) {
        None => Err(NoMem),
        Some(sum) => Ok(sum),
    }
}

fn numbered(first: u64, kind: Kind) -> Result<Kind, NoMem>
    ensures { IfOk result (λ k. k ≡ spec.numbered first kind) }
{
    match kind {
        Kind::Logic(a, b) => Ok(Kind::Logic(plus(first, a)?, plus(first, b)?)),
        other => Ok(other),
    }
}

fn placed(first: u64, found: Option<Kind>) -> Result<Option<Kind>, NoMem>
    ensures { IfOk result (λ k. k ≡ spec.placed first found) }
{
    match found {
        None => Ok(None),
        Some(kind) => Ok(Some(numbered(first, kind)?)),
    }
}

fn kind_from(modules: &[Module], node: u64) -> Result<Option<Kind>, NoMem>
    ensures { IfOk result (λ k. k ≡ spec.kind_from 0 modules.now node) }
{
    let mut first: u64 = 0;
    let mut node = node;
    for module in modules {
        let nodes = u64::from(module.nodes);
        if node < nodes {
            return placed(first, in_module(module, node));
        }
        first = plus(first, nodes)?;
        node -= nodes;
    }
    Ok(None)
}

/// The kind of what stands at a node of a program, in the body of a function.
pub fn kind_at(program: &Program, node: NodeId) -> Result<Option<Kind>, NoMem>
    ensures { IfOk result (λ k. k ≡ spec.kind_at program.now.modules node) }
{
    kind_from(program.modules.as_slice(), u64::from(node))
}
