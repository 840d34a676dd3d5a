// Which cells a block reads.
use crate::reader::Place;
use crate::wake::{Work, number_of};
use ann_element::Element;
use ann_needs::{Plan, State};
use flow_graph::{Op, VarId};
use rpy_base::{NoMem, Text};
use rpy_meaning::RowOp;
use rpy_tree::{ClassId, FunId, SiteId};

// What the lists or dicts of a site's class hold, and the keys.
fn read_site(
    work: &mut Work,
    p: &Plan,
    s: &State,
    place: Place,
    site: SiteId,
) -> Result<(), NoMem> {
    let leader = s.same.leader(site);
    work.readers.add(p.item(leader), place)?;
    work.readers.add(p.key(leader), place)
}

fn read_operand(work: &mut Work, p: &Plan, s: &State, place: Place, v: VarId) -> Result<(), NoMem> {
    match s.cells.get(p.variable(place.graph, v)) {
        Some(Element::List(site, _)) => read_site(work, p, s, place, *site),
        Some(Element::Dict(site, _)) => read_site(work, p, s, place, *site),
        _ => Ok(()),
    }
}

fn read_operands(
    work: &mut Work,
    p: &Plan,
    s: &State,
    place: Place,
    args: &[VarId],
) -> Result<(), NoMem> {
    for v in args {
        read_operand(work, p, s, place, *v)?;
    }
    Ok(())
}

// ---- calls

// The parameters of a function, which it shares with the others that one call reaches.
fn read_params(work: &mut Work, p: &Plan, place: Place, function: FunId) -> Result<(), NoMem> {
    match p.places.params.get(function as usize) {
        None => Ok(()),
        Some(row) => {
            for cell in row.as_slice() {
                work.readers.add(*cell, place)?;
            }
            Ok(())
        }
    }
}

fn read_function(work: &mut Work, p: &Plan, place: Place, function: FunId) -> Result<(), NoMem> {
    work.readers.add(p.result(function), place)?;
    read_params(work, p, place, function)
}

fn read_functions(
    work: &mut Work,
    p: &Plan,
    place: Place,
    functions: &[FunId],
) -> Result<(), NoMem> {
    for function in functions {
        read_function(work, p, place, *function)?;
    }
    Ok(())
}

fn read_method(
    work: &mut Work,
    p: &Plan,
    place: Place,
    class: ClassId,
    name: &Text,
) -> Result<(), NoMem> {
    match p.classes.method(class, name) {
        None => Ok(()),
        Some(function) => read_function(work, p, place, function),
    }
}

fn read_methods(
    work: &mut Work,
    p: &Plan,
    s: &State,
    place: Place,
    of: ClassId,
    name: &Text,
) -> Result<(), NoMem> {
    work.callers.push(place)?;
    for class in 0..p.classes.len() {
        let number = number_of(class);
        if s.is_marked(p.made(number)) && p.classes.below(number, of) {
            read_method(work, p, place, number, name)?;
        }
    }
    Ok(())
}

// ---- by the first operand

fn first_of<'a>(p: &'a Plan, s: &'a State, place: Place, args: &[VarId]) -> Option<&'a Element> {
    match args {
        [] => None,
        [v, _others @ ..] => s.cells.get(p.variable(place.graph, *v)),
    }
}

fn read_receiver(
    work: &mut Work,
    p: &Plan,
    s: &State,
    place: Place,
    name: &Text,
    args: &[VarId],
) -> Result<(), NoMem> {
    match first_of(p, s, place, args) {
        Some(Element::Instance(class, _)) => read_methods(work, p, s, place, *class, name),
        _ => Ok(()),
    }
}

fn read_callee(
    work: &mut Work,
    p: &Plan,
    s: &State,
    place: Place,
    args: &[VarId],
) -> Result<(), NoMem> {
    match first_of(p, s, place, args) {
        Some(Element::Func(functions, _)) => {
            read_functions(work, p, place, functions.as_slice())
        }
        _ => Ok(()),
    }
}

fn read_attribute(
    work: &mut Work,
    p: &Plan,
    s: &State,
    place: Place,
    name: &Text,
    args: &[VarId],
) -> Result<(), NoMem> {
    match first_of(p, s, place, args) {
        Some(Element::Instance(class, _)) => match p.classes.home(*class, name) {
            None => Ok(()),
            Some(home) => work.readers.add(p.attribute(home, name), place),
        },
        _ => Ok(()),
    }
}

// ---- operations

/// What an operation reads.
pub fn read_op(work: &mut Work, p: &Plan, s: &State, place: Place, op: &Op) -> Result<(), NoMem> {
    let args = op.args.as_slice();
    match &op.op {
        RowOp::Copy => Ok(()),
        RowOp::New(_) => Ok(()),
        RowOp::Call(function) => work.readers.add(p.result(*function), place),
        RowOp::CallOf(_, function) => work.readers.add(p.result(*function), place),
        RowOp::CallValue => read_callee(work, p, s, place, args),
        RowOp::Attr(name) => read_attribute(work, p, s, place, name, args),
        RowOp::Method(name, _) => {
            read_receiver(work, p, s, place, name, args)?;
            read_operands(work, p, s, place, args)
        }
        _ => read_operands(work, p, s, place, args),
    }
}
