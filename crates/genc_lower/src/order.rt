// The numbers of functions.
ghost use Rattle.std.specs.Prelude.{◌≡◌, map, IfOk};
ghost use Rattle.genc_lower.specs.Lower as spec;

use csub_tree::{CConst, COperand};
use rpy_base::{NoMem, Seq};
use std::alloc::Global;

/// The entry of a program, which comes last, and the number of the last graph.
#[derive(Clone, Copy)]
pub struct Order {
    pub entry: u64,
    pub last: u64,
}

pub fn function_of(order: Order, g: u64) -> u64
    ensures { result ≡ spec.function_of order g }
{
    if g == order.entry {
        order.last
    } else if order.entry < g {
        g - 1
    } else {
        g
    }
}

pub fn constant(order: Order, what: CConst) -> CConst
    ensures { result ≡ spec.constant order what }
{
    match what {
        CConst::Fun(g) => CConst::Fun(function_of(order, g)),
        CConst::Word(_) | CConst::Char(_) | CConst::Bool(_) | CConst::Null | CConst::Static(_, _) =>
            what,
    }
}

pub fn operand(order: Order, x: COperand) -> COperand
    ensures { result ≡ spec.operand order x }
{
    match x {
        COperand::Const(what) => COperand::Const(constant(order, what)),
        COperand::Var(_) => x,
    }
}

pub fn operands(alloc: Global, order: Order, xs: &[COperand]) -> Result<Seq<COperand>, NoMem>
    ensures { IfOk result (λ ys. ys ≡ map (spec.operand order) xs.now) }
{
    let mut made = Seq::new(alloc);
    for x in xs {
        made.push(operand(order, *x))?;
    }
    Ok(made)
}
