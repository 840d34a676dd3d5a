// The vtables of classes: the number of the class, a function for each method of its family, and its name.
ghost use Rattle.std.specs.Prelude.{◌≡◌, ◌++◌, ◌∷◌, [], length, IfOk, OnOk};
ghost use Rattle.csub_tree.specs.declared.tree.CCell.TheVariants as CCell;
ghost use Rattle.rtyper_class.specs.Seen.{the_world};
ghost use Rattle.rtyper_class.specs.Vtables as spec;

use crate::call::BUILTIN_CLASSES;
use csub_tree::{CCell, CConst, CStatic};
use ll_code::LlStatic;
use rpy_base::{NoMem, Seq, Text};
use rpy_resolved::Resolved;
use rpy_tree::ClassId;
use rtyper_data::Around;
use std::alloc::Global;

// The nearest method of a name, where that is reached.
fn method_cell(around: Around<'_>, reached: &[bool], class: ClassId, name: &Text) -> CCell
    ensures { result ≡ spec.method_cell (the_world around.entry) reached.now class name.now }
{
    match around.classes.method(class, name) {
        None => CCell::Const(CConst::Null),
        Some(function) => match (
            reached.get(function as usize),
            around.numbers.get(function as usize),
        ) {
            (Some(true), Some(number)) => CCell::Const(CConst::Fun(*number)),
            _ => CCell::Const(CConst::Null),
        },
    }
}

fn push_methods(
    around: Around<'_>,
    reached: &[bool],
    class: ClassId,
    names: &[Text],
    cells: &mut Seq<CCell>,
) -> Result<(), NoMem>
    ensures { OnOk result (cells.new ≡ cells.old ++ spec.method_cells (the_world around.entry) reached.now class names.now) }
{
    for name in names {
        cells.push(method_cell(around, reached, class, name))?;
    }
    Ok(())
}

fn name_cells(alloc: Global, program: &Resolved, class: ClassId) -> Result<Seq<CCell>, NoMem>
    ensures { IfOk result (λ cells. cells ≡ spec.name_cells program.now class) }
{
    let mut cells = Seq::new(alloc);
    if let Some(of) = program.classes.get(class as usize) {
        for byte in of.name.bytes() {
            cells.push(CCell::Const(CConst::Char(*byte)))?;
        }
    }
    Ok(cells)
}

/// The names of the methods of a family, by the struct of its vtables: the first is struct 1.
pub fn names_of(around: Around<'_>, vtable: u64) -> &[Text]
    ensures { result.now ≡ spec.names_of (the_world around.entry) vtable }
{
    match around.layout.methods.get(vtable.saturating_sub(1) as usize) {
        None => &[],
        Some(names) => names.as_slice(),
    }
}

fn vtable_of(
    alloc: Global,
    around: Around<'_>,
    program: &Resolved,
    reached: &[bool],
    class: ClassId,
) -> Result<LlStatic, NoMem>
    ensures { IfOk result (λ made. made ≡ spec.vtable (the_world around.entry) program.now reached.now class) }
{
    let kind = match around.layout.laid(class) {
        None => 0,
        Some(laid) => laid.vtable,
    };
    let mut cells = Seq::new(alloc);
    let number = around.classes.range(class).0;
    cells.push(CCell::Const(CConst::Word(i64::from(number))))?;
    push_methods(around, reached, class, names_of(around, kind), &mut cells)?;
    cells.push(CCell::Braces(name_cells(alloc, program, class)?))?;
    Ok(CStatic { kind, cells })
}

/// The vtables of the classes that have structs, in their order.
pub fn push_vtables(
    alloc: Global,
    around: Around<'_>,
    program: &Resolved,
    reached: &[bool],
    statics: &mut Seq<LlStatic>,
) -> Result<(), NoMem>
    ensures { OnOk result (statics.new ≡ statics.old ++ spec.vtables (the_world around.entry) program.now reached.now) }
{
    for class in around.layout.order.as_slice() {
        statics.push(vtable_of(alloc, around, program, reached, *class)?)?;
    }
    Ok(())
}

// ---- builtin exceptions

// The cells of an instance of a class without attributes: those of its base stand within the first.
#[tactic(auto, using(crate::proofs::Turns::next_wrapped))]
fn instance_cells(
    alloc: Global,
    around: Around<'_>,
    vtable: CConst,
    class: ClassId,
) -> Result<Seq<CCell>, NoMem>
    ensures { IfOk result (λ cells. cells ≡ spec.wrapped (the_world around.entry).classes.classes (length (the_world around.entry).classes.classes) class (CCell.Const vtable ∷ [])) }
{
    let mut cells = Seq::new(alloc);
    cells.push(CCell::Const(vtable))?;
    let mut at = class;
    for _turn in 0..around.classes.len() {
        match around.classes.base(at) {
            None => return Ok(cells),
            Some(base) => {
                let mut outer = Seq::new(alloc);
                outer.push(CCell::Braces(cells))?;
                cells = outer;
                at = base;
            }
        }
    }
    Ok(cells)
}

fn exception_of(alloc: Global, around: Around<'_>, class: ClassId) -> Result<LlStatic, NoMem>
    ensures { IfOk result (λ made. made ≡ spec.exception (the_world around.entry) class) }
{
    let (kind, vtable) = match around.layout.laid(class) {
        None => (0, CConst::Null),
        Some(laid) => {
            let number = around.first_vtable.saturating_add(laid.place);
            (laid.own, CConst::Static(laid.vtable, number))
        }
    };
    Ok(CStatic {
        kind,
        cells: instance_cells(alloc, around, vtable, class)?,
    })
}

/// The one instance of each builtin exception class, where these have structs.
pub fn push_exceptions(
    alloc: Global,
    around: Around<'_>,
    statics: &mut Seq<LlStatic>,
) -> Result<(), NoMem>
    ensures { OnOk result (statics.new ≡ statics.old ++ spec.exceptions (the_world around.entry)) }
{
    if around.layout.laid(0).is_none() {
        return Ok(());
    }
    for class in 0..BUILTIN_CLASSES {
        statics.push(exception_of(alloc, around, class)?)?;
    }
    Ok(())
}
