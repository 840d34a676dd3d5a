// The functions of a program by their parameters with their defaults.
ghost use Rattle.std.specs.Prelude.{◌≡◌, ◌+◌, IfOk, OnOk};
ghost use Rattle.std.specs.Option.{option_copied};
ghost use Rattle.rpy_tree.specs.declared.syntax.Member.{out-Member};
ghost use Rattle.rpy_meaning.specs.Resolved.{node_of};
ghost use Rattle.ann_layout.specs.Callees as spec;

use ann_needs::Callee;
use rpy_base::{NoMem, Seq};
use rpy_copies::copy_const;
use rpy_tree::{Const, Expr, Function, Member, Module, NodeId, Param, Program, Use};
use std::alloc::Global;

// The node of an expression.
fn node_number(e: &Expr) -> NodeId
    ensures { result ≡ node_of e.now }
{
    match e {
        Expr::Int(node, _) => *node,
        Expr::Str(node, _) => *node,
        Expr::Name(node, _) => *node,
        Expr::Unary(node, _, _) => *node,
        Expr::Binary(node, _, _, _) => *node,
        Expr::Compare(node, _, _, _) => *node,
        Expr::Logic(node, _, _, _) => *node,
        Expr::Not(node, _) => *node,
        Expr::Call(node, _, _) => *node,
        Expr::Attr(node, _, _) => *node,
        Expr::Index(node, _, _) => *node,
        Expr::Slice(node, _, _, _) => *node,
        Expr::Tuple(node, _) => *node,
        Expr::List(node, _) => *node,
        Expr::Dict(node, _) => *node,
        Expr::Comp(node, _, _, _, _) => *node,
    }
}

/// The sum. What is more than a u64 counts does not fit in memory.
pub fn plus(a: usize, b: usize) -> Result<usize, NoMem>
    ensures { IfOk result (λ sum. sum ≡ a + b) }
{
    match a.checked_add(b) {
        None => Err(NoMem),
        Some(sum) => Ok(sum),
    }
}

fn constant_of(alloc: Global, meant: Option<&Use>) -> Result<Const, NoMem>
    ensures { IfOk result (λ value. value ≡ spec.constant_of (option_copied meant.entry)) }
{
    match meant {
        Some(Use::Value(value)) => copy_const(alloc, value),
        Some(Use::Function(f)) => Ok(Const::Function(*f)),
        _ => Ok(Const::None),
    }
}

fn default_of(
    alloc: Global,
    uses: &[Use],
    first: usize,
    param: &Param,
) -> Result<Option<Const>, NoMem>
    ensures { IfOk result (λ default. default ≡ spec.default uses.now first param.now) }
{
    match &param.default {
        None => Ok(None),
        Some(e) => {
            let node = plus(first, node_number(e) as usize)?;
            Ok(Some(constant_of(alloc, uses.get(node))?))
        }
    }
}

fn callee_of(alloc: Global, uses: &[Use], first: usize, f: &Function) -> Result<Callee, NoMem>
    ensures { IfOk result (λ callee. callee ≡ spec.callee uses.now first f.now) }
{
    let mut defaults = Seq::new(alloc);
    for param in f.params.as_slice() {
        defaults.push(default_of(alloc, uses, first, param)?)?;
    }
    Ok(Callee {
        defaults,
        star: f.star,
    })
}

fn add_method(
    alloc: Global,
    uses: &[Use],
    first: usize,
    member: &Member,
    callees: &mut Seq<Callee>,
) -> Result<(), NoMem>
    ensures { OnOk result (callees.new ≡ spec.with_method uses.now first (out-Member member.now) callees.old) }
{
    match member {
        Member::Def(f) => callees.push(callee_of(alloc, uses, first, f)?),
        _ => Ok(()),
    }
}

fn add_methods(
    alloc: Global,
    uses: &[Use],
    first: usize,
    members: &[Member],
    callees: &mut Seq<Callee>,
) -> Result<(), NoMem>
    ensures { OnOk result (callees.new ≡ spec.with_methods uses.now first members.now callees.old) }
{
    for member in members {
        add_method(alloc, uses, first, member, callees)?;
    }
    Ok(())
}

fn add_member(
    alloc: Global,
    uses: &[Use],
    first: usize,
    member: &Member,
    callees: &mut Seq<Callee>,
) -> Result<(), NoMem>
    ensures { OnOk result (callees.new ≡ spec.with_member uses.now first (out-Member member.now) callees.old) }
{
    match member {
        Member::Class(class) => add_methods(alloc, uses, first, class.members.as_slice(), callees),
        _ => add_method(alloc, uses, first, member, callees),
    }
}

fn add_members(
    alloc: Global,
    uses: &[Use],
    first: usize,
    members: &[Member],
    callees: &mut Seq<Callee>,
) -> Result<(), NoMem>
    ensures { OnOk result (callees.new ≡ spec.with_members uses.now first members.now callees.old) }
{
    for member in members {
        add_member(alloc, uses, first, member, callees)?;
    }
    Ok(())
}

fn add_modules(
    alloc: Global,
    uses: &[Use],
    modules: &[Module],
    callees: &mut Seq<Callee>,
) -> Result<(), NoMem>
    ensures { OnOk result (callees.new ≡ spec.with_modules uses.now 0 modules.now callees.old) }
{
    let mut first: usize = 0;
    for module in modules {
        add_members(alloc, uses, first, module.members.as_slice(), callees)?;
        first = plus(first, module.nodes as usize)?;
    }
    Ok(())
}

/// The functions of all modules, in node order.
pub fn callees_of(alloc: Global, program: &Program) -> Result<Seq<Callee>, NoMem>
    ensures { IfOk result (λ callees. callees ≡ spec.callees program.now) }
{
    let mut callees = Seq::new(alloc);
    let uses = program.uses.as_slice();
    add_modules(alloc, uses, program.modules.as_slice(), &mut callees)?;
    Ok(callees)
}
