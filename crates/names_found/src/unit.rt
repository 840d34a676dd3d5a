// The members of a program, with what their names stand for.
ghost use Rattle.std.specs.Prelude.{◌≡◌, [], IfOk, OnOk};
ghost use Rattle.names_found.specs.Units as spec;

use crate::finder::{Finder, Place};
use crate::locals::Locals;
use crate::step::Step;
use names_bound::fault::fault_if;
use names_bound::known::is_fixed;
use names_bound::{Fault, FaultKind, Scopes};
use rpy_base::{NoMem, Seq};
use rpy_nodes::{Event, Parameter, Unit, What};
use rpy_tree::NodeId;
use std::alloc::Global;

/// The default of a parameter, if it has one, and the parameter's node.
#[derive(Drop)]
pub struct Default {
    pub node: NodeId,
    pub steps: Option<Seq<Step>>,
}

/// The steps of a member: of a constant's value, of a function's defaults and of its body; and how
/// many locals it has.
#[derive(Drop)]
pub struct Found {
    pub value: Seq<Step>,
    pub defaults: Seq<Default>,
    pub body: Seq<Step>,
    pub locals: usize,
}

fn is_known(known: &Locals, parameter: &Parameter) -> bool
    ensures { result ≡ spec.is_known known.now parameter.now }
{
    match known.number(parameter.name) {
        None => is_fixed(parameter.name),
        Some(_) => true,
    }
}

fn parameter_fault(known: &Locals, parameter: &Parameter) -> Option<Fault>
    ensures { result ≡ spec.parameter_fault known.now parameter.now }
{
    fault_if(is_known(known, parameter), parameter.node, FaultKind::Twice)
}

fn default_steps(
    alloc: Global,
    finder: &mut Finder,
    scopes: &Scopes,
    known: &Locals,
    at: Place,
    events: &Option<Seq<Event>>,
) -> Result<Option<Seq<Step>>, NoMem>
    ensures steps { IfOk result (λ steps. steps ≡ (spec.default_steps scopes.now known.now at events.now finder.old).0) }
    ensures finder { OnOk result (finder.new ≡ (spec.default_steps scopes.now known.now at events.now finder.old).1) }
{
    match events {
        None => Ok(None),
        Some(events) => {
            let steps = finder.steps_of(alloc, scopes, known, at, events.as_slice())?;
            Ok(Some(steps))
        }
    }
}

fn find_parameter(
    alloc: Global,
    finder: &mut Finder,
    scopes: &Scopes,
    known: &Locals,
    at: Place,
    parameter: &Parameter,
) -> Result<Default, NoMem>
    ensures found { IfOk result (λ found. found ≡ (spec.find_parameter scopes.now known.now at parameter.now finder.old).0) }
    ensures finder { OnOk result (finder.new ≡ (spec.find_parameter scopes.now known.now at parameter.now finder.old).1) }
{
    finder.add_fault(parameter_fault(known, parameter));
    let steps = default_steps(alloc, finder, scopes, known, at, &parameter.default)?;
    Ok(Default {
        node: parameter.node,
        steps,
    })
}

fn find_parameters(
    alloc: Global,
    finder: &mut Finder,
    scopes: &Scopes,
    at: Place,
    parameters: &[Parameter],
) -> Result<Seq<Default>, NoMem>
    ensures found { IfOk result (λ found. found ≡ (spec.find_parameters scopes.now at parameters.now finder.old).0) }
    ensures finder { OnOk result (finder.new ≡ (spec.find_parameters scopes.now at parameters.now finder.old).1) }
{
    let mut known = Locals::new(alloc);
    let mut found = Seq::new(alloc);
    for parameter in parameters {
        found.push(find_parameter(alloc, finder, scopes, &known, at, parameter)?)?;
        known.add(parameter.name)?;
    }
    Ok(found)
}

fn no_steps(alloc: Global) -> Found
    ensures { result ≡ spec.no_steps }
{
    Found {
        value: Seq::new(alloc),
        defaults: Seq::new(alloc),
        body: Seq::new(alloc),
        locals: 0,
    }
}

fn find_constant(
    alloc: Global,
    finder: &mut Finder,
    scopes: &Scopes,
    at: Place,
    value: &[Event],
) -> Result<Found, NoMem>
    ensures found { IfOk result (λ found. found ≡ (spec.find_constant scopes.now at value.now finder.old).0) }
    ensures finder { OnOk result (finder.new ≡ (spec.find_constant scopes.now at value.now finder.old).1) }
{
    let none = Locals::new(alloc);
    let value = finder.steps_of(alloc, scopes, &none, at, value)?;
    Ok(Found {
        value,
        defaults: Seq::new(alloc),
        body: Seq::new(alloc),
        locals: 0,
    })
}

fn find_function(
    alloc: Global,
    finder: &mut Finder,
    scopes: &Scopes,
    at: Place,
    parameters: &[Parameter],
    body: &[Event],
) -> Result<Found, NoMem>
    ensures found { IfOk result (λ found. found ≡ (spec.find_function scopes.now at parameters.now body.now finder.old).0) }
    ensures finder { OnOk result (finder.new ≡ (spec.find_function scopes.now at parameters.now body.now finder.old).1) }
{
    let defaults = find_parameters(alloc, finder, scopes, at, parameters)?;
    let locals = Locals::of(alloc, parameters, body)?;
    let inside = Place {
        file: at.file,
        place: at.place,
        body: true,
    };
    let body = finder.steps_of(alloc, scopes, &locals, inside, body)?;
    Ok(Found {
        value: Seq::new(alloc),
        defaults,
        body,
        locals: locals.len(),
    })
}

fn find_what(
    alloc: Global,
    finder: &mut Finder,
    scopes: &Scopes,
    at: Place,
    what: &What,
) -> Result<Found, NoMem>
    ensures found { IfOk result (λ found. found ≡ (spec.find_what scopes.now at what.now finder.old).0) }
    ensures finder { OnOk result (finder.new ≡ (spec.find_what scopes.now at what.now finder.old).1) }
{
    match what {
        What::Constant(_, value) => find_constant(alloc, finder, scopes, at, value.as_slice()),
        What::Def(_, parameters, _, body) => find_function(
            alloc,
            finder,
            scopes,
            at,
            parameters.as_slice(),
            body.as_slice(),
        ),
        _ => Ok(no_steps(alloc)),
    }
}

fn place_of(unit: &Unit) -> Place
    ensures { result ≡ spec.place_of unit.now }
{
    Place {
        file: unit.file,
        place: unit.place,
        body: false,
    }
}

/// The members with what their names stand for.
pub fn find_units(
    alloc: Global,
    finder: &mut Finder,
    scopes: &Scopes,
    units: &[Unit],
) -> Result<Seq<Found>, NoMem>
    ensures found { IfOk result (λ found. found ≡ (spec.find_units scopes.now units.now finder.old).0) }
    ensures finder { OnOk result (finder.new ≡ (spec.find_units scopes.now units.now finder.old).1) }
{
    let mut found = Seq::new(alloc);
    for unit in units {
        found.push(find_what(alloc, finder, scopes, place_of(unit), &unit.what)?)?;
    }
    Ok(found)
}
