// The bases of the classes.
ghost use Rattle.std.specs.Prelude.{◌≡◌, IfOk, OnOk};
ghost use Rattle.names_bound.specs.Base as spec;

use crate::declare::{BUILTIN_CLASSES, ClassAt};
use crate::fault::{Fault, FaultKind, fault_if, lesser};
use crate::scopes::{Scopes, base_in};
use crate::stand::Stand;
use rpy_base::{NoMem, Seq};
use rpy_nodes::{NameId, Unit, What};
use rpy_tree::NodeId;
use std::alloc::Global;

/// What the path of a base comes to.
#[derive(Clone, Copy, Debug, PartialEq, Eq)]
pub enum Base {
    /// No base, `object`, or one that an import at fault was to bind.
    Free,
    Class(usize),
    Wrong(FaultKind),
}

// What the first name of a path stands for. It is bound before the class.
fn first_stand(scopes: &Scopes, at: &ClassAt, name: NameId) -> Stand
    ensures { result ≡ spec.first_stand scopes.now at.now name }
{
    let found = scopes.global(at.file, name);
    if found == Stand::Unknown {
        Stand::Unknown
    } else if scopes.is_late(at.file, at.place, name) {
        Stand::Nothing
    } else {
        found
    }
}

/// What a further name of a path stands for.
pub fn further_stand(scopes: &Scopes, of: Stand, name: NameId) -> Stand
    ensures { result ≡ spec.further_stand scopes.now of name }
{
    match of {
        Stand::Unknown => Stand::Unknown,
        _ => scopes.member(of, name),
    }
}

// What a path stands for.
fn path_stand(scopes: &Scopes, at: &ClassAt, path: &[NameId]) -> Stand
    ensures { result ≡ spec.path_stand scopes.now at.now path.now }
{
    match path {
        [] => Stand::Object,
        [first, further @ ..] => {
            let mut stand = first_stand(scopes, at, *first);
            for name in further {
                stand = further_stand(scopes, stand, *name);
            }
            stand
        }
    }
}

// Whether a class is bound in this file, and not before this place.
fn comes_later(classes: &[ClassAt], at: &ClassAt, class: usize) -> bool
    ensures { result ≡ spec.comes_later classes.now at.now class }
{
    if class < BUILTIN_CLASSES {
        return false;
    }
    match classes.get(class - BUILTIN_CLASSES) {
        None => false,
        Some(other) => other.file == at.file && at.place <= other.place,
    }
}

fn judged(classes: &[ClassAt], at: &ClassAt, stand: Stand) -> Base
    ensures { result ≡ spec.judged classes.now at.now stand }
{
    match stand {
        Stand::Object => Base::Free,
        Stand::Missing => Base::Free,
        Stand::Unknown => Base::Wrong(FaultKind::Unknown),
        Stand::Class(class) => {
            if comes_later(classes, at, class) {
                Base::Wrong(FaultKind::BadBase)
            } else {
                Base::Class(class)
            }
        }
        _ => Base::Wrong(FaultKind::BadBase),
    }
}

// The path of the base of a class.
fn path_of(units: &[Unit], unit: usize) -> &[NameId]
    ensures { result.now ≡ spec.path_of units.now unit }
{
    match units.get(unit) {
        None => &[],
        Some(of) => path_in(&of.what),
    }
}

fn path_in(what: &What) -> &[NameId]
    ensures { result.now ≡ spec.path_in what.now }
{
    match what {
        What::Class(_, path) => path.as_slice(),
        _ => &[],
    }
}

/// The node of a unit.
pub fn node_of(units: &[Unit], unit: usize) -> NodeId
    ensures { result ≡ spec.node_of units.now unit }
{
    match units.get(unit) {
        None => 0,
        Some(of) => of.node,
    }
}

fn base_of(scopes: &Scopes, classes: &[ClassAt], units: &[Unit], at: &ClassAt) -> Base
    ensures { result ≡ spec.base_of scopes.now classes.now units.now at.now }
{
    judged(classes, at, path_stand(scopes, at, path_of(units, at.unit)))
}

fn class_in(base: Base) -> Option<usize>
    ensures { result ≡ spec.class_in base }
{
    match base {
        Base::Class(class) => Some(class),
        _ => None,
    }
}

/// The bases of the builtin exception classes.
const BUILTIN_BASES: [Option<usize>; 13] = [
    None,
    Some(0),
    Some(1),
    Some(2),
    Some(2),
    Some(1),
    Some(5),
    Some(5),
    Some(1),
    Some(1),
    Some(1),
    Some(1),
    Some(11),
];

/// The base that each class names, by number.
pub fn class_bases(
    alloc: Global,
    scopes: &Scopes,
    classes: &[ClassAt],
    units: &[Unit],
) -> Result<Seq<Option<usize>>, NoMem>
    ensures { IfOk result (λ bases. bases ≡ spec.class_bases scopes.now classes.now units.now) }
{
    let mut bases = Seq::from_vec(Vec::from_slice(alloc, &BUILTIN_BASES)?);
    for at in classes {
        bases.push(class_in(base_of(scopes, classes, units, at)))?;
    }
    Ok(bases)
}

/// Whether the bases of a class lead back to it.
#[tactic(auto, using(crate::proofs::Turns::back_turn))]
pub fn leads_back(bases: &[Option<usize>], class: usize) -> bool
    ensures { result ≡ spec.leads_back bases.now class }
{
    let mut at = base_in(bases, class);
    for _turn in 0..bases.len() {
        match at {
            None => return false,
            Some(base) => {
                if base == class {
                    return true;
                }
                at = base_in(bases, base);
            }
        }
    }
    false
}

fn kept(bases: &[Option<usize>], class: usize) -> Option<usize>
    ensures { result ≡ spec.kept bases.now class }
{
    if leads_back(bases, class) {
        None
    } else {
        base_in(bases, class)
    }
}

/// The bases without those that lead back to their class.
pub fn without_rings(alloc: Global, bases: &[Option<usize>]) -> Result<Seq<Option<usize>>, NoMem>
    ensures { IfOk result (λ kept. kept ≡ spec.without_rings bases.now) }
{
    let mut without = Seq::new(alloc);
    for class in 0..bases.len() {
        without.push(kept(bases, class))?;
    }
    Ok(without)
}

fn base_fault(base: Base, ring: bool, node: NodeId) -> Option<Fault>
    ensures { result ≡ spec.base_fault base ring node }
{
    match base {
        Base::Wrong(kind) => Some(Fault { node, kind }),
        _ => fault_if(ring, node, FaultKind::BadBase),
    }
}

/// The least fault of a base, with the bases before and after those in rings are taken out.
pub fn base_faults(
    scopes: &Scopes,
    named: &[Option<usize>],
    classes: &[ClassAt],
    units: &[Unit],
) -> Option<Fault>
    ensures { result ≡ spec.base_faults scopes.now named.now classes.now units.now }
{
    let mut least = None;
    for (place, at) in classes.iter().enumerate() {
        let base = base_of(scopes, classes, units, at);
        let ring = leads_back(named, BUILTIN_CLASSES + place);
        least = lesser(least, base_fault(base, ring, node_of(units, at.unit)));
    }
    least
}
