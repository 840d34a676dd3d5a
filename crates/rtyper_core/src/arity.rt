// What functions take.
ghost use Rattle.std.specs.Prelude.{◌≡◌, IfOk, OnOk, is_none};
ghost use Rattle.rpy_tree.specs.declared.syntax.Member.{out-Member};
ghost use Rattle.rtyper_core.specs.Arity as spec;

use rpy_base::{NoMem, Seq};
use rpy_tree::{FunId, Function, Member, Module, Param};
use std::alloc::Global;

/// How many parameters a function has, how many of them have no default, and whether the last is
/// starred.
#[derive(Clone, Copy, Debug, PartialEq, Eq)]
pub struct Arity {
    pub params: usize,
    pub required: usize,
    pub star: bool,
}

fn is_required(param: &Param) -> bool
    ensures { result ≡ is_none param.now.default }
{
    param.default.is_none()
}

fn required(params: &[Param]) -> usize
    ensures { result ≡ spec.required params.now }
{
    let mut count = 0;
    for param in params {
        if is_required(param) {
            count += 1;
        }
    }
    count
}

fn arity_of(f: &Function) -> Arity
    ensures { result ≡ spec.arity f.now }
{
    Arity {
        params: f.params.len(),
        required: required(f.params.as_slice()),
        star: f.star,
    }
}

fn add_method(member: &Member, arities: &mut Seq<Arity>) -> Result<(), NoMem>
    ensures { OnOk result (arities.new ≡ spec.with_method (out-Member member.now) arities.old) }
{
    match member {
        Member::Def(f) => arities.push(arity_of(f)),
        _ => Ok(()),
    }
}

fn add_methods(members: &[Member], arities: &mut Seq<Arity>) -> Result<(), NoMem>
    ensures { OnOk result (arities.new ≡ spec.with_methods members.now arities.old) }
{
    for member in members {
        add_method(member, arities)?;
    }
    Ok(())
}

fn add_member(member: &Member, arities: &mut Seq<Arity>) -> Result<(), NoMem>
    ensures { OnOk result (arities.new ≡ spec.with_member (out-Member member.now) arities.old) }
{
    match member {
        Member::Class(class) => add_methods(class.members.as_slice(), arities),
        _ => add_method(member, arities),
    }
}

fn add_members(members: &[Member], arities: &mut Seq<Arity>) -> Result<(), NoMem>
    ensures { OnOk result (arities.new ≡ spec.with_members members.now arities.old) }
{
    for member in members {
        add_member(member, arities)?;
    }
    Ok(())
}

/// What each function takes, in node order.
pub fn arities_of(alloc: Global, modules: &[Module]) -> Result<Seq<Arity>, NoMem>
    ensures { IfOk result (λ arities. arities ≡ spec.arities modules.now) }
{
    let mut arities = Seq::new(alloc);
    for module in modules {
        add_members(module.members.as_slice(), &mut arities)?;
    }
    Ok(arities)
}

/// What a function takes.
pub fn arity_at(arities: &[Arity], function: FunId) -> Arity
    ensures { result ≡ spec.arity_at arities.now function }
{
    match arities.get(function as usize) {
        None => Arity {
            params: 0,
            required: 0,
            star: false,
        },
        Some(arity) => *arity,
    }
}
