// The values of all constants, and the faults of those that have none.
ghost use Rattle.std.specs.Prelude.{◌≡◌, [], IfOk, OnOk, length};
ghost use Rattle.names_value.specs.Constants as spec;

use crate::copy::copy_const;
use crate::machine::{Machine, Prebuilt, Root};
use crate::slots::take_slot;
use names_bound::fault::fault_if;
use names_bound::{ConstantAt, Fault, FaultKind, lesser};
use names_found::unit::Default;
use names_found::{Found, Step};
use rpy_base::{NoMem, Seq};
use rpy_nodes::Names;
use rpy_tree::{Const, NodeId};
use std::alloc::Global;
use std::mem;

/// The value of each constant, by number, where it has one; the lists and dicts that they are; and
/// whether a value was found last.
#[derive(Drop)]
pub struct Values {
    pub constants: Seq<Option<Const>>,
    pub prebuilt: Seq<Prebuilt>,
    pub changed: bool,
}

// The steps of a constant's value.
fn steps_of(found: &[Found], unit: usize) -> &[Step]
    ensures { result.now ≡ spec.steps_of found.now unit }
{
    match found.get(unit) {
        None => &[],
        Some(found) => found.value.as_slice(),
    }
}

fn is_open(values: &[Option<Const>], number: usize) -> bool
    ensures { result ≡ spec.is_open values.now number }
{
    match values.get(number) {
        Some(None) => true,
        _ => false,
    }
}

// The end of a run of these steps: the value, and the machine.
fn value_after(
    alloc: Global,
    names: &Names,
    values: &[Option<Const>],
    steps: &[Step],
    machine: &mut Machine,
) -> Result<Option<Const>, NoMem>
    ensures value { IfOk result (λ value. value ≡ (spec.value_after names.now values.now steps.now machine.old).0) }
    ensures machine { OnOk result (machine.new ≡ (spec.value_after names.now values.now steps.now machine.old).1) }
{
    machine.run(alloc, names, values, steps)?;
    let slot = take_slot(&mut machine.slots);
    Ok(slot.value)
}

impl Values {
    fn put(&mut self, number: usize, value: Option<Const>)
        ensures { self.new ≡ spec.put number value self.old }
    {
        match value {
            None => {}
            Some(value) => {
                if number < self.constants.len() {
                    self.constants.set(number, Some(value));
                    self.changed = true;
                }
            }
        }
    }

    // A constant is tried.
    fn settle(
        &mut self,
        alloc: Global,
        names: &Names,
        number: usize,
        steps: &[Step],
    ) -> Result<(), NoMem>
        ensures { OnOk result (self.new ≡ spec.settle names.now number steps.now self.old) }
    {
        let prebuilt = mem::replace(&mut self.prebuilt, Seq::new(alloc));
        let mut machine = Machine::new(alloc, prebuilt, Seq::new(alloc));
        let value = value_after(alloc, names, self.constants.as_slice(), steps, &mut machine)?;
        let Machine {
            slots: _,
            prebuilt,
            roots: _,
            fault: _,
        } = machine;
        self.prebuilt = prebuilt;
        self.put(number, value);
        Ok(())
    }

    fn settle_open(
        &mut self,
        alloc: Global,
        names: &Names,
        number: usize,
        steps: &[Step],
    ) -> Result<(), NoMem>
        ensures { OnOk result (self.new ≡ spec.settle_open names.now number steps.now self.old) }
    {
        if is_open(self.constants.as_slice(), number) {
            self.settle(alloc, names, number, steps)
        } else {
            Ok(())
        }
    }

    // Each constant that has no value yet is tried.
    fn pass(
        &mut self,
        alloc: Global,
        names: &Names,
        found: &[Found],
        constants: &[ConstantAt],
    ) -> Result<(), NoMem>
        ensures { OnOk result (self.new ≡ spec.pass names.now found.now constants.now self.old) }
    {
        self.changed = false;
        for (number, constant) in constants.iter().enumerate() {
            self.settle_open(alloc, names, number, steps_of(found, constant.unit))?;
        }
        Ok(())
    }
}

fn none_yet(alloc: Global, count: usize) -> Result<Seq<Option<Const>>, NoMem>
    ensures { IfOk result (λ values. values ≡ spec.none_yet count) }
{
    let mut values = Seq::new(alloc);
    for _turn in 0..count {
        values.push(None)?;
    }
    Ok(values)
}

/// The values of the constants. A constant whose value leads back to itself has none.
#[tactic(auto, using(crate::proofs::Rounds::rounds_turn))]
pub fn constant_values(
    alloc: Global,
    names: &Names,
    found: &[Found],
    constants: &[ConstantAt],
) -> Result<Values, NoMem>
    ensures { IfOk result (λ values. values ≡ spec.constant_values names.now found.now constants.now) }
{
    let mut values = Values {
        constants: none_yet(alloc, constants.len())?,
        prebuilt: Seq::new(alloc),
        changed: true,
    };
    for _round in 0..constants.len() {
        if !values.changed {
            return Ok(values);
        }
        values.pass(alloc, names, found, constants)?;
    }
    Ok(values)
}

/// The values at the ends of constant expressions, the lists and dicts of defaults, and the least
/// fault.
#[derive(Drop)]
pub struct Checked {
    pub roots: Seq<Root>,
    pub prebuilt: Seq<Prebuilt>,
    pub fault: Option<Fault>,
}

fn last_node(steps: &[Step]) -> NodeId
    ensures { result ≡ spec.last_node steps.now }
{
    match steps.get(steps.len().saturating_sub(1)) {
        None => 0,
        Some(last) => last.node,
    }
}

fn is_function(value: &Const) -> bool
    ensures { result ≡ spec.is_function value.now }
{
    match value {
        Const::Function(_) => true,
        _ => false,
    }
}

// A function may not be a class-level constant.
fn class_fault(class: Option<usize>, value: &Const, node: NodeId) -> Option<Fault>
    ensures { result ≡ spec.class_fault class value.now node }
{
    match class {
        None => None,
        Some(_) => fault_if(is_function(value), node, FaultKind::BadConstant),
    }
}

impl Checked {
    fn add_fault(&mut self, fault: Option<Fault>)
        ensures { self.new ≡ spec.add_fault fault self.old }
    {
        self.fault = lesser(self.fault, fault);
    }

    fn add_root(&mut self, node: NodeId, value: Option<Const>) -> Result<(), NoMem>
        ensures { OnOk result (self.new ≡ spec.add_root node value self.old) }
    {
        match value {
            None => {
                self.add_fault(Some(Fault {
                    node,
                    kind: FaultKind::BadConstant,
                }));
                Ok(())
            }
            Some(value) => self.roots.push(Root { node, value }),
        }
    }

    // An expression that has to be constant.
    fn add_expression(
        &mut self,
        alloc: Global,
        names: &Names,
        values: &[Option<Const>],
        steps: &[Step],
    ) -> Result<(), NoMem>
        ensures { OnOk result (self.new ≡ spec.add_expression names.now values.now steps.now self.old) }
    {
        let prebuilt = mem::replace(&mut self.prebuilt, Seq::new(alloc));
        let mut machine = Machine::new(alloc, prebuilt, Seq::new(alloc));
        let value = value_after(alloc, names, values, steps, &mut machine)?;
        let Machine {
            slots: _,
            prebuilt,
            roots: _,
            fault,
        } = machine;
        self.prebuilt = prebuilt;
        self.add_fault(fault);
        self.add_root(last_node(steps), value)
    }

    fn add_default(
        &mut self,
        alloc: Global,
        names: &Names,
        values: &[Option<Const>],
        default: &Default,
    ) -> Result<(), NoMem>
        ensures { OnOk result (self.new ≡ spec.add_default names.now values.now default.now self.old) }
    {
        match &default.steps {
            None => Ok(()),
            Some(steps) => self.add_expression(alloc, names, values, steps.as_slice()),
        }
    }

    fn add_defaults(
        &mut self,
        alloc: Global,
        names: &Names,
        values: &[Option<Const>],
        defaults: &[Default],
    ) -> Result<(), NoMem>
        ensures { OnOk result (self.new ≡ spec.add_defaults names.now values.now defaults.now self.old) }
    {
        for default in defaults {
            self.add_default(alloc, names, values, default)?;
        }
        Ok(())
    }

    fn add_body(
        &mut self,
        alloc: Global,
        values: &[Option<Const>],
        steps: &[Step],
    ) -> Result<(), NoMem>
        ensures { OnOk result (self.new ≡ spec.add_body values.now steps.now self.old) }
    {
        let roots = mem::replace(&mut self.roots, Seq::new(alloc));
        let mut machine = Machine::new(alloc, Seq::new(alloc), roots);
        machine.run_words(alloc, values, steps)?;
        let Machine {
            slots: _,
            prebuilt: _,
            roots,
            fault,
        } = machine;
        self.roots = roots;
        self.add_fault(fault);
        Ok(())
    }

    fn add_value(
        &mut self,
        alloc: Global,
        class: Option<usize>,
        node: NodeId,
        value: &Const,
    ) -> Result<(), NoMem>
        ensures { OnOk result (self.new ≡ spec.add_value class node value.now self.old) }
    {
        self.add_fault(class_fault(class, value, node));
        let value = copy_const(alloc, value)?;
        self.roots.push(Root { node, value })
    }

    // A constant, by its number and its steps.
    fn add_constant(
        &mut self,
        alloc: Global,
        names: &Names,
        values: &[Option<Const>],
        class: Option<usize>,
        number: usize,
        steps: &[Step],
    ) -> Result<(), NoMem>
        ensures { OnOk result (self.new ≡ spec.add_constant names.now values.now class number steps.now self.old) }
    {
        match values.get(number) {
            Some(Some(value)) => self.add_value(alloc, class, last_node(steps), value),
            _ => self.add_expression(alloc, names, values, steps),
        }
    }

    fn add_constants(
        &mut self,
        alloc: Global,
        names: &Names,
        values: &[Option<Const>],
        found: &[Found],
        constants: &[ConstantAt],
    ) -> Result<(), NoMem>
        ensures { OnOk result (self.new ≡ spec.add_constants 0 names.now values.now found.now constants.now self.old) }
    {
        for (number, at) in constants.iter().enumerate() {
            let steps = steps_of(found, at.unit);
            self.add_constant(alloc, names, values, at.class, number, steps)?;
        }
        Ok(())
    }

    fn add_unit(
        &mut self,
        alloc: Global,
        names: &Names,
        values: &[Option<Const>],
        unit: &Found,
    ) -> Result<(), NoMem>
        ensures { OnOk result (self.new ≡ spec.add_unit names.now values.now unit.now self.old) }
    {
        self.add_defaults(alloc, names, values, unit.defaults.as_slice())?;
        self.add_body(alloc, values, unit.body.as_slice())
    }

    fn add_units(
        &mut self,
        alloc: Global,
        names: &Names,
        values: &[Option<Const>],
        found: &[Found],
    ) -> Result<(), NoMem>
        ensures { OnOk result (self.new ≡ spec.add_units names.now values.now found.now self.old) }
    {
        for unit in found {
            self.add_unit(alloc, names, values, unit)?;
        }
        Ok(())
    }
}

/// The constant expressions of all members, checked with the values of the constants.
pub fn bad_constants(
    alloc: Global,
    names: &Names,
    values: &[Option<Const>],
    found: &[Found],
    constants: &[ConstantAt],
) -> Result<Checked, NoMem>
    ensures { IfOk result (λ checked. checked ≡ spec.bad_constants names.now values.now found.now constants.now) }
{
    let mut checked = Checked {
        roots: Seq::new(alloc),
        prebuilt: Seq::new(alloc),
        fault: None,
    };
    checked.add_constants(alloc, names, values, found, constants)?;
    checked.add_units(alloc, names, values, found)?;
    Ok(checked)
}
