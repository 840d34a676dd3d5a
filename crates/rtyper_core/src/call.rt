// Calls, and whether the functions that they reach take their arguments.
ghost use Rattle.std.specs.Prelude.{◌≡◌, IfOk, OnOk};
ghost use Rattle.rtyper_core.specs.Call as spec;
ghost use Rattle.rtyper_core.specs.Modify.{operand};

use crate::arity::{Arity, arity_at};
use crate::modify::{narrow, operand};
use ann_element::Element;
use class_desc::Classes;
use flow_graph::{Op, VarId};
use rpy_base::{NoMem, Seq, Text};
use rpy_meaning::RowOp;
use rpy_tree::{ClassId, FunId};
use std::alloc::Global;

/// The functions that a call reaches, each once, and how many arguments it gives, a receiver
/// counted.
#[derive(Drop)]
pub struct Reach {
    pub functions: Seq<FunId>,
    pub given: usize,
}

fn is_among(functions: &[FunId], function: FunId) -> bool
    ensures { result ≡ spec.is_among functions.now function }
{
    for other in functions {
        if *other == function {
            return true;
        }
    }
    false
}

fn add_function(functions: &mut Seq<FunId>, function: Option<FunId>) -> Result<(), NoMem>
    ensures { OnOk result (functions.new ≡ spec.with_function function functions.old) }
{
    match function {
        None => Ok(()),
        Some(function) => {
            if is_among(functions.as_slice(), function) {
                Ok(())
            } else {
                functions.push(function)
            }
        }
    }
}

// The nearest method of a class that has instances and is the receiver's class or below it.
fn add_made(
    functions: &mut Seq<FunId>,
    classes: &Classes,
    receiver: ClassId,
    name: &Text,
    class: ClassId,
    made: bool,
) -> Result<(), NoMem>
    ensures { OnOk result (functions.new ≡ spec.with_made classes.now receiver name.now class made functions.old) }
{
    if made && classes.below(class, receiver) {
        add_function(functions, classes.method(class, name))
    } else {
        Ok(())
    }
}

fn methods_of(
    alloc: Global,
    classes: &Classes,
    made: &[bool],
    receiver: ClassId,
    name: &Text,
) -> Result<Seq<FunId>, NoMem>
    ensures { IfOk result (λ functions. functions ≡ spec.methods classes.now made.now receiver name.now) }
{
    let mut functions = Seq::new(alloc);
    for (class, mark) in made.iter().enumerate() {
        add_made(
            &mut functions,
            classes,
            receiver,
            name,
            narrow(class)?,
            *mark,
        )?;
    }
    Ok(functions)
}

fn copied(alloc: Global, functions: &[FunId]) -> Result<Seq<FunId>, NoMem>
    ensures { IfOk result (λ copies. copies ≡ functions.now) }
{
    let mut copies = Seq::new(alloc);
    for function in functions {
        copies.push(*function)?;
    }
    Ok(copies)
}

// The functions that a value may be.
fn functions_in(alloc: Global, e: &Element) -> Result<Seq<FunId>, NoMem>
    ensures { IfOk result (λ functions. functions ≡ spec.functions_in e.now) }
{
    match e {
        Element::Func(functions, _) => copied(alloc, functions.as_slice()),
        _ => Ok(Seq::new(alloc)),
    }
}

fn methods_on(
    alloc: Global,
    classes: &Classes,
    made: &[bool],
    receiver: &Element,
    name: &Text,
) -> Result<Seq<FunId>, NoMem>
    ensures { IfOk result (λ functions. functions ≡ spec.methods_on classes.now made.now receiver.now name.now) }
{
    match receiver {
        Element::Instance(class, _) => methods_of(alloc, classes, made, *class, name),
        _ => Ok(Seq::new(alloc)),
    }
}

// The methods that a call on the first operand reaches.
fn methods_at(
    alloc: Global,
    classes: &Classes,
    made: &[bool],
    elements: &[Element],
    args: &[VarId],
    name: &Text,
) -> Result<Seq<FunId>, NoMem>
    ensures { IfOk result (λ functions. functions ≡ spec.methods_at classes.now made.now name.now (operand elements.now args.now 0)) }
{
    match operand(elements, args, 0) {
        None => Ok(Seq::new(alloc)),
        Some(receiver) => methods_on(alloc, classes, made, receiver, name),
    }
}

// The functions that the first operand may be.
fn functions_at(alloc: Global, elements: &[Element], args: &[VarId]) -> Result<Seq<FunId>, NoMem>
    ensures { IfOk result (λ functions. functions ≡ spec.functions_at (operand elements.now args.now 0)) }
{
    match operand(elements, args, 0) {
        None => Ok(Seq::new(alloc)),
        Some(e) => functions_in(alloc, e),
    }
}

// One function, or none.
fn single(alloc: Global, function: Option<FunId>) -> Result<Seq<FunId>, NoMem>
    ensures { IfOk result (λ functions. functions ≡ spec.single function) }
{
    let mut functions = Seq::new(alloc);
    add_function(&mut functions, function)?;
    Ok(functions)
}

/// The functions that an operation calls. A new instance, and the value that is called, are no
/// operands of the call.
pub fn reach_of(
    alloc: Global,
    classes: &Classes,
    made: &[bool],
    elements: &[Element],
    op: &Op,
) -> Result<Reach, NoMem>
    ensures { IfOk result (λ reach. reach ≡ spec.reach classes.now made.now elements.now op.now) }
{
    let args = op.args.as_slice();
    let given = args.len();
    match &op.op {
        RowOp::Call(function) => Ok(Reach {
            functions: single(alloc, Some(*function))?,
            given,
        }),
        RowOp::CallOf(_, function) => Ok(Reach {
            functions: single(alloc, Some(*function))?,
            given,
        }),
        RowOp::CallValue => Ok(Reach {
            functions: functions_at(alloc, elements, args)?,
            given: given.saturating_sub(1),
        }),
        RowOp::New(class) => Ok(Reach {
            functions: single(alloc, classes.init(*class))?,
            given: given.saturating_add(1),
        }),
        RowOp::Method(name, _) => Ok(Reach {
            functions: methods_at(alloc, classes, made, elements, args, name)?,
            given,
        }),
        _ => Ok(Reach {
            functions: Seq::new(alloc),
            given: 0,
        }),
    }
}

// A single function takes as many arguments as it has parameters, those with a default aside.
fn takes(arity: Arity, given: usize) -> bool
    ensures { result ≡ spec.takes arity given }
{
    !arity.star && arity.required <= given && given <= arity.params
}

// Of several functions each has as many parameters as there are arguments.
fn take_alike(arities: &[Arity], functions: &[FunId], given: usize) -> bool
    ensures { result ≡ spec.take_alike arities.now functions.now given }
{
    for function in functions {
        let arity = arity_at(arities, *function);
        if arity.star || arity.params != given {
            return false;
        }
    }
    true
}

/// Whether the functions of a call take its arguments.
pub fn fits(arities: &[Arity], reach: &Reach) -> bool
    ensures { result ≡ spec.fits arities.now reach.now }
{
    match reach.functions.as_slice() {
        [] => true,
        [single] => takes(arity_at(arities, *single), reach.given),
        several => take_alike(arities, several, reach.given),
    }
}
