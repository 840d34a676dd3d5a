// Constants as operands. Strings and tuples are statics.
ghost use Rattle.std.specs.Prelude.{◌≡◌, IfOk, OnOk};
ghost use Rattle.std.specs.Prelude.{map};
ghost use Rattle.rtyper_op.specs.Constants as spec;
ghost use Rattle.rtyper_data.specs.Converting as converting;
ghost use Rattle.rtyper_data.specs.Seen.{the_around, the_operand, the_operands, the_place, writing, Leaves, Gives, Writes, Asks};

use csub_tree::{CCell, CConst, COperand};
use ll_code::LlType;
use rpy_base::{NoMem, Seq};
use rpy_tree::{Const, FunId, SiteId};
use rtyper_data::{Around, Found, default_operand, static_of, static_of_site};
use std::alloc::Global;

fn default_constant(kind: LlType) -> CConst
    ensures { result ≡ converting.default_constant kind }
{
    match default_operand(kind) {
        COperand::Const(constant) => constant,
        COperand::Var(_) => CConst::Word(0),
    }
}

// The length, and the bytes.
fn text_cells(alloc: Global, bytes: &[u8]) -> Result<Seq<CCell>, NoMem>
    ensures { IfOk result (λ cells. cells ≡ spec.text_cells bytes.now) }
{
    let mut items = Seq::new(alloc);
    for byte in bytes {
        items.push(CCell::Const(CConst::Char(*byte)))?;
    }
    let length = match i64::try_from(bytes.len()) {
        Ok(length) => length,
        Err(_) => return Err(NoMem),
    };
    let mut cells = Seq::new(alloc);
    cells.push(CCell::Const(CConst::Word(length)))?;
    cells.push(CCell::Braces(items))?;
    Ok(cells)
}

fn text(alloc: Global, bytes: &[u8], to: LlType, found: &mut Found) -> Result<CConst, NoMem>
    ensures { IfOk result (λ made. Asks (spec.text bytes.now to found.old) made found.new) }
{
    match (to, bytes) {
        (LlType::Char, [byte]) => Ok(CConst::Char(*byte)),
        (LlType::Ptr(0), _) => {
            let cells = text_cells(alloc, bytes)?;
            static_of(0, cells, found)
        }
        _ => Ok(default_constant(to)),
    }
}

// A function that is never called has no graph, and any stands in for it.
fn function_of(around: Around<'_>, function: FunId, to: LlType) -> CConst
    ensures { result ≡ spec.function_of (the_around around.entry) function to }
{
    match (to, around.numbers.get(function as usize)) {
        (LlType::Fn, Some(number)) => CConst::Fun(*number),
        (LlType::Fn, None) => CConst::Fun(0),
        _ => default_constant(to),
    }
}

#[cycle(constant)]
fn tuple_cells(
    alloc: Global,
    around: Around<'_>,
    parts: &[Const],
    fields: &[LlType],
    found: &mut Found,
) -> Result<Seq<CCell>, NoMem>
    ensures { IfOk result (λ cells. Asks (spec.parts_of (map (spec.constant_of (the_around around.entry)) parts.now) fields.now found.old) cells found.new) }
{
    let mut cells = Seq::new(alloc);
    let mut rest = fields;
    for part in parts {
        match rest {
            [] => return Ok(cells),
            [field, others @ ..] => {
                let cell = constant_of(alloc, around, part, *field, found)?;
                cells.push(CCell::Const(cell))?;
                rest = others;
            }
        }
    }
    Ok(cells)
}

// The static of a list or dict, which was made before.
fn prebuilt(site: SiteId, to: LlType, found: &Found) -> CConst
    ensures { result ≡ spec.prebuilt site to found.now }
{
    match (to, static_of_site(found, site)) {
        (LlType::Ptr(kind), Some(number)) => CConst::Static(kind, number),
        _ => default_constant(to),
    }
}

/// The constant as a value of this type.
#[cycle(constant)]
#[tactic(auto, using(crate::proofs::Parts::tuple_is))]
pub fn constant_of(
    alloc: Global,
    around: Around<'_>,
    constant: &Const,
    to: LlType,
    found: &mut Found,
) -> Result<CConst, NoMem>
    ensures { IfOk result (λ made. Asks (spec.constant_of (the_around around.entry) constant.now to found.old) made found.new) }
{
    match constant {
        Const::Word(n) => Ok(CConst::Word(*n)),
        Const::Bool(b) => Ok(CConst::Bool(*b)),
        Const::Str(bytes) => text(alloc, bytes.bytes(), to, found),
        Const::None => Ok(default_constant(to)),
        Const::Tuple(parts) => match to {
            LlType::Ptr(n) => {
                if !around.layout.is_tuple(n) {
                    return Ok(CConst::Null);
                }
                let fields = around.layout.fields(n);
                let cells = tuple_cells(alloc, around, parts.as_slice(), fields, found)?;
                static_of(n, cells, found)
            }
            _ => Ok(default_constant(to)),
        },
        Const::Function(function) => Ok(function_of(around, *function, to)),
        Const::List(site) | Const::Dict(site) => Ok(prebuilt(*site, to, found)),
    }
}

/// A text as a value of this type.
pub fn text_of(
    alloc: Global,
    bytes: &[u8],
    to: LlType,
    found: &mut Found,
) -> Result<COperand, NoMem>
    ensures { IfOk result (λ made. Asks (spec.operand_of (spec.text bytes.now to found.old)) made found.new) }
{
    Ok(COperand::Const(text(alloc, bytes, to, found)?))
}
