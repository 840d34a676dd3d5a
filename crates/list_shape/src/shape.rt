// The structs of a list, and what the graphs of lists are made of.
ghost use Rattle.std.specs.Prelude.{◌≡◌, IfOk};
ghost use Rattle.rtyper_data.specs.Seen.{Asks};
ghost use Rattle.list_shape.specs.Shapes as spec;

use csub_tree::{CConst, COperand};
use ll_build::build::none;
use ll_code::{LlBlock, LlExit, LlOp, LlType, VarId};
use rpy_base::NoMem;
use rtyper_data::{Found, Listed, Small, small_number};
use rtyper_layout::Layout;
use std::alloc::Global;

pub const ZERO: COperand = COperand::Const(CConst::Word(0));

pub const ONE: COperand = COperand::Const(CConst::Word(1));

/// The struct of a list, that of its array, which follows it, and the type of its items.
#[derive(Clone, Copy)]
pub struct Shape {
    pub list: u64,
    pub array: u64,
    pub item: LlType,
}

pub fn shape_of(layout: &Layout, list: u64) -> Shape
    ensures { result ≡ spec.shape_of layout.now list }
{
    let array = list.saturating_add(1);
    Shape {
        list,
        array,
        item: item_of(layout, array),
    }
}

/// The type of the items of a struct.
pub fn item_of(layout: &Layout, array: u64) -> LlType
    ensures { result ≡ spec.item_of layout.now array }
{
    match layout.structs.get(array as usize) {
        None => LlType::Bool,
        Some(each) => match each.items {
            None => LlType::Bool,
            Some(kind) => kind,
        },
    }
}

// ---- operations

pub fn length(into: VarId, shape: Shape, list: VarId) -> LlOp
    ensures { result ≡ spec.length_read into shape list }
{
    LlOp::GetField(into, shape.list, list, 0)
}

pub fn array(into: VarId, shape: Shape, list: VarId) -> LlOp
    ensures { result ≡ spec.array_read into shape list }
{
    LlOp::GetField(into, shape.list, list, 1)
}

pub fn set_length(shape: Shape, list: VarId, x: COperand) -> LlOp
    ensures { result ≡ spec.length_set shape list x }
{
    LlOp::SetField(shape.list, list, 0, x)
}

/// The number of a graph of lists.
pub fn number_of(listed: Listed, found: &mut Found) -> Result<u64, NoMem>
    ensures { IfOk result (λ number. Asks (spec.number_of listed found.old) number found.new) }
{
    small_number(Small::Listed(listed), found)
}

/// A block that gives its one variable.
#[tactic(auto, unfolding(crate::specs::Shapes::gives))]
pub fn gives(alloc: Global, v: VarId) -> Result<LlBlock, NoMem>
    ensures { IfOk result (λ made. made ≡ spec.gives v) }
{
    none(alloc, [v], LlExit::Return(Some(COperand::Var(v))))
}
