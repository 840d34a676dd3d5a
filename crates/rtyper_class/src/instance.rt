// Instances: how they are made, and of which class they are.
ghost use Rattle.std.specs.Prelude.{◌≡◌, ◌∷◌, [], IfOk, OnOk};
ghost use Rattle.std.specs.Option.{option_copied};
ghost use Rattle.ll_code.specs.declared.program.LlType.TheVariants as LlType;
ghost use Rattle.ll_code.specs.declared.program.LlOp.TheVariants as LlOp;
ghost use Rattle.rtyper_data.specs.Seen.{writing, Leaves, Asks};
ghost use Rattle.rtyper_class.specs.Instances as spec;
ghost use Rattle.rtyper_class.specs.Seen.{the_world};
ghost use Rattle.rtyper_class.specs.Smalls as smalls;

use ann_element::Element;
use class_desc::Initial;
use csub_tree::{CBinary, CConst, COperand, CUnary};
use list_helpers::list_graph;
use ll_code::{LlExit, LlGraph, LlOp, LlType, VarId};
use rpy_base::{NoMem, Seq, Text};
use rpy_tree::ClassId;
use rtyper_data::{
    ATTRIBUTE, ATTRIBUTE_ERROR, Around, Body, Found, Small, asks_null, block, default_operand,
    failing, flag, link, small_graph, variables, word,
};
use rtyper_layout::{Laid, attribute_place, field_type, repr};
use rtyper_op::constant_of;
use std::alloc::Global;

// ---- new instances

// What an attribute starts with, where the class has a constant for it.
fn initial_of<'a>(initials: &'a [Initial], home: ClassId, name: &[u8]) -> Option<&'a Initial>
    ensures { option_copied result ≡ spec.initial_of initials.now home name.now }
{
    for initial in initials {
        if initial.home == home && initial.name.bytes() == name {
            return Some(initial);
        }
    }
    None
}

// The value of an attribute, and whether it is set.
#[tactic(auto, unfolding(crate::specs::Instances::start))]
fn push_attribute(
    alloc: Global,
    around: Around<'_>,
    own: u64,
    place: u64,
    element: &Element,
    initial: Option<&Initial>,
    found: &mut Found,
    body: &mut Body,
) -> Result<(), NoMem>
    ensures { OnOk result (Leaves (spec.start (the_world around.entry) own place element.now (option_copied initial.entry) (writing found.old body.old)) found.new body.new) }
{
    let kind = field_type(repr(around.layout, element));
    let (value, is_set) = match initial {
        None => (default_operand(kind), false),
        Some(initial) => {
            let constant = constant_of(alloc, around, &initial.value, kind, found)?;
            (COperand::Const(constant), true)
        }
    };
    let (first, second) = fields_of(place);
    body.ops.push(LlOp::SetField(own, 0, first, value))?;
    body.ops.push(LlOp::SetField(own, 0, second, flag(is_set)))
}

// The attributes that a class itself declares, of the instance that is variable 0.
#[tactic(auto, unfolding(crate::specs::Instances::starts))]
fn push_declared(
    alloc: Global,
    around: Around<'_>,
    home: ClassId,
    own: u64,
    initials: &[Initial],
    found: &mut Found,
    body: &mut Body,
) -> Result<(), NoMem>
    ensures { OnOk result (Leaves (spec.starts (the_world around.entry) home own initials.now (writing found.old body.old)) found.new body.new) }
{
    let mut place: u64 = 0;
    for attribute in around.attributes {
        if attribute.0 == home {
            let initial = initial_of(initials, home, attribute.1.bytes());
            let element = &attribute.2;
            push_attribute(alloc, around, own, place, element, initial, found, body)?;
            place = place.saturating_add(1);
        }
    }
    Ok(())
}

// Those of a class and of all its bases.
#[tactic(auto, using(crate::proofs::Turns::next_starts), unfolding(crate::specs::Instances::all_starts))]
fn push_all_declared(
    alloc: Global,
    around: Around<'_>,
    class: ClassId,
    initials: &[Initial],
    found: &mut Found,
    body: &mut Body,
) -> Result<(), NoMem>
    ensures { OnOk result (Leaves (spec.all_starts (the_world around.entry) initials.now class (writing found.old body.old)) found.new body.new) }
{
    let mut at = class;
    for _turn in 0..around.classes.len() {
        let own = match around.layout.laid(at) {
            None => return Ok(()),
            Some(laid) => laid.own,
        };
        push_declared(alloc, around, at, own, initials, found, body)?;
        match around.classes.base(at) {
            None => return Ok(()),
            Some(base) => at = base,
        }
    }
    Ok(())
}

// It is paid, made, and all that it has is set at once.
#[tactic(auto, unfolding(crate::specs::Instances::instance_body))]
fn new_body(
    alloc: Global,
    around: Around<'_>,
    class: ClassId,
    laid: Laid,
    found: &mut Found,
) -> Result<Body, NoMem>
    ensures { IfOk result (λ body. Leaves (spec.instance_body (the_world around.entry) class laid found.old) found.new body) }
{
    let mut body = Body::new(alloc);
    body.types.push(LlType::Ptr(laid.root))?;
    body.ops.push(LlOp::Step(word(1)))?;
    body.ops.push(LlOp::New(0, laid.root, laid.own))?;
    let vtable = CConst::Static(laid.vtable, around.first_vtable.saturating_add(laid.place));
    body.ops
        .push(LlOp::SetField(laid.root, 0, 0, COperand::Const(vtable)))?;
    let initials = around.classes.initial(alloc, class)?;
    push_all_declared(alloc, around, class, initials.as_slice(), found, &mut body)?;
    Ok(body)
}

fn new_instance(
    alloc: Global,
    around: Around<'_>,
    class: ClassId,
    laid: Laid,
    found: &mut Found,
) -> Result<LlGraph, NoMem>
    ensures { IfOk result (λ graph. Asks (spec.new_instance (the_world around.entry) class laid found.old) graph found.new) }
{
    let Body { types, ops } = new_body(alloc, around, class, laid, found)?;
    let mut blocks = Seq::new(alloc);
    let given = LlExit::Return(Some(COperand::Var(0)));
    blocks.push(block(alloc, [], ops, given)?)?;
    Ok(LlGraph {
        name: Text::from_bytes(alloc, b"new")?,
        params: Seq::new(alloc),
        result: LlType::Ptr(laid.root),
        types,
        blocks,
    })
}

// ---- attributes that may not be set

fn attribute_types(alloc: Global, root: u64, kind: LlType) -> Result<Seq<LlType>, NoMem>
    ensures { IfOk result (λ types. types ≡ LlType.Ptr root ∷ LlType.Bool ∷ kind ∷ []) }
{
    let mut types = Seq::new(alloc);
    types.push(LlType::Ptr(root))?;
    types.push(LlType::Bool)?;
    types.push(kind)?;
    Ok(types)
}

// The struct of the topmost class above the struct of a class.
#[tactic(auto, using(crate::proofs::Turns::next_root), unfolding(crate::specs::Instances::root_of))]
fn root_of(around: Around<'_>, own: u64) -> u64
    ensures { result ≡ spec.root_of (the_world around.entry) own }
{
    let mut at = own;
    for _turn in 0..around.layout.structs.len() {
        match around.layout.structs.get(at as usize) {
            None => return at,
            Some(each) => match each.base {
                None => return at,
                Some(base) => at = base,
            },
        }
    }
    at
}

/// The numbers of the fields of an attribute: its value, and whether it is set. In a struct with a
/// base, and in one with a vtable, one field stands before those of attributes.
pub fn fields_of(place: u64) -> (u64, u64)
    ensures { result ≡ (spec.value_field place, spec.set_field place) }
{
    let first = place.saturating_mul(2).saturating_add(1);
    (first, first.saturating_add(1))
}

// The type of a field, by its number: the field of a base has none.
#[tactic(auto, unfolding(crate::specs::Instances::type_of_field))]
fn type_of_field(around: Around<'_>, own: u64, number: u64) -> LlType
    ensures { result ≡ spec.type_of_field (the_world around.entry) own number }
{
    let at = match around.layout.structs.get(own as usize) {
        None => number,
        Some(each) => match each.base {
            None => number,
            Some(_) => number.saturating_sub(1),
        },
    };
    match around.layout.fields(own).get(at as usize) {
        None => LlType::Bool,
        Some(kind) => *kind,
    }
}

fn get_field(alloc: Global, into: VarId, own: u64, number: u64) -> Result<Seq<LlOp>, NoMem>
    ensures { IfOk result (λ ops. ops ≡ LlOp.GetField into own 0 number ∷ []) }
{
    let mut ops = Seq::new(alloc);
    ops.push(LlOp::GetField(into, own, 0, number))?;
    Ok(ops)
}

#[tactic(auto, unfolding(crate::specs::Instances::attribute))]
fn attribute(
    alloc: Global,
    around: Around<'_>,
    own: u64,
    place: u64,
    raises: bool,
    found: &mut Found,
) -> Result<LlGraph, NoMem>
    ensures { IfOk result (λ graph. Asks (spec.attribute (the_world around.entry) own place raises found.old) graph found.new) }
{
    let (value, is_set) = fields_of(place);
    let kind = type_of_field(around, own, value);
    let there = link(alloc, 1, [COperand::Var(0)])?;
    let elsewhere = link(alloc, 2, [])?;
    let mut blocks = Seq::new(alloc);
    let asked = get_field(alloc, 1, own, is_set)?;
    blocks.push(block(alloc, [0], asked, LlExit::If(1, there, elsewhere))?)?;
    let read = get_field(alloc, 2, own, value)?;
    let given = LlExit::Return(Some(COperand::Var(2)));
    blocks.push(block(alloc, [0], read, given)?)?;
    blocks.push(failing(alloc, ATTRIBUTE, ATTRIBUTE_ERROR, raises, found)?)?;
    Ok(LlGraph {
        name: Text::from_bytes(alloc, b"attribute")?,
        params: variables(alloc, [0])?,
        result: kind,
        types: attribute_types(alloc, root_of(around, own), kind)?,
        blocks,
    })
}

// ---- classes of instances

// Whether the number in the vtable lies in the range: variables 2 to 7.
fn asks_range(
    alloc: Global,
    root: u64,
    vtable: u64,
    low: u32,
    high: u32,
) -> Result<Seq<LlOp>, NoMem>
    ensures { IfOk result (λ ops. ops ≡ spec.asks_range root vtable low high) }
{
    let number = COperand::Var(3);
    let mut ops = Seq::new(alloc);
    ops.push(LlOp::GetField(2, root, 0, 0))?;
    ops.push(LlOp::GetField(3, vtable, 2, 0))?;
    ops.push(LlOp::Binary(4, CBinary::Ge, number, word(i64::from(low))))?;
    ops.push(LlOp::Unary(5, CUnary::B2S, COperand::Var(4)))?;
    ops.push(LlOp::Binary(4, CBinary::Lt, number, word(i64::from(high))))?;
    ops.push(LlOp::Unary(6, CUnary::B2S, COperand::Var(4)))?;
    ops.push(LlOp::Binary(7, CBinary::And, COperand::Var(5), COperand::Var(6)))?;
    ops.push(LlOp::Binary(4, CBinary::Ne, COperand::Var(7), word(0)))?;
    Ok(ops)
}

fn range_types(alloc: Global, root: u64, vtable: u64) -> Result<Seq<LlType>, NoMem>
    ensures { IfOk result (λ types. types ≡ spec.range_types root vtable) }
{
    let mut types = Seq::new(alloc);
    types.push(LlType::Ptr(root))?;
    types.push(LlType::Bool)?;
    types.push(LlType::Ptr(vtable))?;
    types.push(LlType::Signed)?;
    types.push(LlType::Bool)?;
    types.push(LlType::Signed)?;
    types.push(LlType::Signed)?;
    types.push(LlType::Signed)?;
    Ok(types)
}

#[tactic(auto, unfolding(crate::specs::Instances::is_instance))]
fn is_instance(alloc: Global, root: u64, vtable: u64, low: u32, high: u32) -> Result<LlGraph, NoMem>
    ensures { IfOk result (λ graph. graph ≡ spec.is_instance root vtable low high) }
{
    let there = link(alloc, 1, [])?;
    let elsewhere = link(alloc, 2, [COperand::Var(0)])?;
    let mut blocks = Seq::new(alloc);
    let asked = asks_null(alloc, LlType::Ptr(root))?;
    blocks.push(block(alloc, [0], asked, LlExit::If(1, there, elsewhere))?)?;
    let none = LlExit::Return(Some(flag(false)));
    blocks.push(block(alloc, [], Seq::new(alloc), none)?)?;
    let ops = asks_range(alloc, root, vtable, low, high)?;
    let given = LlExit::Return(Some(COperand::Var(4)));
    blocks.push(block(alloc, [0], ops, given)?)?;
    Ok(LlGraph {
        name: Text::from_bytes(alloc, b"is_instance")?,
        params: variables(alloc, [0])?,
        result: LlType::Bool,
        types: range_types(alloc, root, vtable)?,
        blocks,
    })
}

// ---- exceptions

/// The one instance of a builtin exception class.
#[tactic(auto, unfolding(crate::specs::Instances::builtin_instance))]
pub fn builtin_instance(around: Around<'_>, class: ClassId) -> COperand
    ensures { result ≡ spec.builtin_instance (the_world around.entry) class }
{
    let root = match around.layout.laid(0) {
        None => 0,
        Some(laid) => laid.root,
    };
    let number = around.first_exception.saturating_add(u64::from(class));
    COperand::Const(CConst::Static(root, number))
}

#[tactic(auto, unfolding(crate::specs::Instances::raise))]
fn raise(alloc: Global, around: Around<'_>, class: ClassId) -> Result<LlGraph, NoMem>
    ensures { IfOk result (λ graph. graph ≡ spec.raise (the_world around.entry) class) }
{
    let root = match around.layout.laid(0) {
        None => 0,
        Some(laid) => laid.root,
    };
    let mut types = Seq::new(alloc);
    types.push(LlType::Ptr(root))?;
    let mut ops = Seq::new(alloc);
    ops.push(LlOp::Set(0, builtin_instance(around, class)))?;
    let mut blocks = Seq::new(alloc);
    blocks.push(block(alloc, [], ops, LlExit::Raise(0))?)?;
    Ok(LlGraph {
        name: Text::from_bytes(alloc, b"raise")?,
        params: Seq::new(alloc),
        result: LlType::Void,
        types,
        blocks,
    })
}

/// The graph of a small graph.
pub fn class_graph(
    alloc: Global,
    around: Around<'_>,
    small: Small,
    found: &mut Found,
) -> Result<LlGraph, NoMem>
    ensures { IfOk result (λ graph. Asks (smalls.class_graph (the_world around.entry) small found.old) graph found.new) }
{
    match small {
        Small::New(class) => match around.layout.laid(class) {
            None => small_graph(alloc, around.layout, Small::Fail(false), found),
            Some(laid) => new_instance(alloc, around, class, laid, found),
        },
        Small::Attribute(own, place, raises) => {
            attribute(alloc, around, own, place, raises, found)
        }
        Small::Raise(class) => raise(alloc, around, class),
        Small::IsInstance(root, vtable, low, high) => {
            is_instance(alloc, root, vtable, low, high)
        }
        Small::Listed(listed) => list_graph(alloc, around.layout, listed, found),
        _ => small_graph(alloc, around.layout, small, found),
    }
}
