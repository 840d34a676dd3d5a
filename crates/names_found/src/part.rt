// The parts of an expression that wait for what takes them.
ghost use Rattle.std.specs.Prelude.{◌≡◌, OnOk};
ghost use Rattle.names_found.specs.Part as spec;

use names_bound::Stand;
use rpy_base::Seq;
use rpy_nodes::Act;
use rpy_tree::BinOp;

/// What a part stands for, whether that is bound only after it, and whether it is a method that makes
/// a list.
#[derive(Clone, Copy, Debug, PartialEq, Eq)]
pub struct Part {
    pub stand: Stand,
    pub late: bool,
    pub makes: bool,
}

fn no_part() -> Part
    ensures { result ≡ spec.no_part }
{
    Part {
        stand: Stand::Nothing,
        late: false,
        makes: false,
    }
}

/// The part with so many after it.
pub fn part_under(parts: &[Part], after: usize) -> Part
    ensures { result ≡ spec.part_under parts.now after }
{
    let at = parts.len().saturating_sub(after).saturating_sub(1);
    match parts.get(at) {
        None => no_part(),
        Some(part) => *part,
    }
}

#[tactic(auto, using(crate::proofs::Parts::last_taken))]
fn take_one(parts: &mut Seq<Part>)
    ensures { parts.new ≡ spec.without_last parts.old }
{
    let _part = parts.pop();
}

/// So many parts are taken.
#[tactic(auto, using(crate::proofs::Parts::without_turn))]
pub fn take_parts(parts: &mut Seq<Part>, count: usize)
    ensures { parts.new ≡ spec.without count parts.old }
{
    for _turn in 0..count {
        take_one(parts);
    }
}

/// How many parts an act takes, the first part of a call and the values of a dict display aside.
pub fn taken(act: Act) -> usize
    ensures { result ≡ spec.taken act }
{
    match act {
        Act::Attr(_) | Act::Unary(_) | Act::BindAttr(_) | Act::Elif => 1,
        Act::Binary(_) | Act::For | Act::Multiply => 2,
        Act::Call(count)
        | Act::Tuple(count)
        | Act::List(count)
        | Act::Dict(count)
        | Act::Slice(count)
        | Act::Comp(count)
        | Act::Other(count)
        | Act::Done(count) => count,
        _ => 0,
    }
}

/// How many more it takes.
pub fn taken_besides(act: Act) -> usize
    ensures { result ≡ spec.taken_besides act }
{
    match act {
        Act::Call(_) => 1,
        Act::Dict(count) => count,
        _ => 0,
    }
}

/// Whether an act is a part of what follows: an expression or a target.
pub fn is_part(act: Act) -> bool
    ensures { result ≡ spec.is_part act }
{
    match act {
        Act::Done(_) | Act::For | Act::Multiply | Act::Elif => false,
        Act::Caught(_) | Act::CaughtOf(_) | Act::CaughtEnd | Act::Catch(_) | Act::Clause => false,
        _ => true,
    }
}

/// How many sites an act has, where it is no call.
pub fn sites_of(act: Act) -> usize
    ensures { result ≡ spec.sites_of act }
{
    match act {
        Act::List(_) | Act::Dict(_) | Act::Slice(_) | Act::For | Act::Multiply => 1,
        Act::Comp(_) => 2,
        Act::Binary(op) => operator_sites(op),
        _ => 0,
    }
}

fn operator_sites(op: BinOp) -> usize
    ensures { result ≡ spec.operator_sites op }
{
    match op {
        BinOp::Add | BinOp::Mul => 1,
        _ => 0,
    }
}

/// Whether an act makes dicts.
pub fn is_dict(act: Act) -> bool
    ensures { result ≡ spec.is_dict act }
{
    match act {
        Act::Dict(_) => true,
        _ => false,
    }
}
