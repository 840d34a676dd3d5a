// Classes that have one name as a method and as an attribute, their bases counted.
ghost use Rattle.std.specs.Prelude.{◌≡◌, IfOk, OnOk};
ghost use Rattle.names_bound.specs.Clash as spec;

use crate::base::node_of;
use crate::declare::{BUILTIN_CLASSES, ClassAt};
use crate::fault::{Fault, FaultKind, fault_if, lesser};
use crate::scopes::base_in;
use crate::table::{Key, Table};
use rpy_base::{NoMem, Seq};
use rpy_nodes::{NameId, Unit};
use std::alloc::Global;

// Whether a class or a base of it declares a name.
#[tactic(auto, using(crate::proofs::Turns::declares_turn))]
fn declares(table: &Table, bases: &[Option<usize>], class: usize, name: NameId) -> bool
    ensures { result ≡ spec.declares table.now bases.now class name }
{
    let mut class = class;
    for _turn in 0..bases.len() {
        if !table.is_fresh(class, name) {
            return true;
        }
        match base_in(bases, class) {
            None => return false,
            Some(base) => class = base,
        }
    }
    false
}

fn add_clash(classes: &mut Seq<usize>, clashes: bool, class: usize) -> Result<(), NoMem>
    ensures { OnOk result (classes.new ≡ spec.add_clash clashes class classes.old) }
{
    if clashes {
        classes.push(class)?;
    }
    Ok(())
}

// The classes of the keys that a table has too.
fn add_clashes(
    classes: &mut Seq<usize>,
    keys: &[Key],
    table: &Table,
    bases: &[Option<usize>],
) -> Result<(), NoMem>
    ensures { OnOk result (classes.new ≡ spec.add_clashes keys.now table.now bases.now classes.old) }
{
    for key in keys {
        add_clash(
            classes,
            declares(table, bases, key.scope, key.name),
            key.scope,
        )?;
    }
    Ok(())
}

/// The classes of which a name of their own clashes.
pub fn clashing(
    alloc: Global,
    attributes: &Table,
    methods: &Table,
    bases: &[Option<usize>],
) -> Result<Seq<usize>, NoMem>
    ensures { IfOk result (λ classes. classes ≡ spec.clashing attributes.now methods.now bases.now) }
{
    let mut classes = Seq::new(alloc);
    let attribute_keys = attributes.keys(alloc)?;
    let method_keys = methods.keys(alloc)?;
    add_clashes(&mut classes, attribute_keys.as_slice(), methods, bases)?;
    add_clashes(&mut classes, method_keys.as_slice(), attributes, bases)?;
    Ok(classes)
}

fn is_among(classes: &[usize], class: usize) -> bool
    ensures { result ≡ spec.is_among classes.now class }
{
    for other in classes {
        if *other == class {
            return true;
        }
    }
    false
}

// Whether a class or a base of it is among these.
#[tactic(auto, using(crate::proofs::Turns::inherits_turn))]
fn inherits(bases: &[Option<usize>], classes: &[usize], class: usize) -> bool
    ensures { result ≡ spec.inherits bases.now classes.now class }
{
    let mut class = class;
    for _turn in 0..bases.len() {
        if is_among(classes, class) {
            return true;
        }
        match base_in(bases, class) {
            None => return false,
            Some(base) => class = base,
        }
    }
    false
}

/// The least fault of a class with a clash, where a name of these classes' own clashes.
pub fn clash_faults(
    bases: &[Option<usize>],
    clashing: &[usize],
    classes: &[ClassAt],
    units: &[Unit],
) -> Option<Fault>
    ensures { result ≡ spec.clash_faults bases.now clashing.now classes.now units.now }
{
    let mut least = None;
    for (place, at) in classes.iter().enumerate() {
        let clashes = inherits(bases, clashing, BUILTIN_CLASSES + place);
        least = lesser(
            least,
            fault_if(clashes, node_of(units, at.unit), FaultKind::Twice),
        );
    }
    least
}
