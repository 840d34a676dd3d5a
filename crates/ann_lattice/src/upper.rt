// The least element above two others.
ghost use Rattle.std.specs.Prelude.{◌≡◌, ◌++◌, ◌∷◌, [], ◌&&◌, nat_le, map, Some, None, true, false, IfOk, OnOk};
ghost use Rattle.ann_lattice.specs.Shape.{Width, One, Any, OrNone, NoneOnly, Truth, Num, Str, Tup, Lst, Dct, Inst, Fun, Clash, items, shape, shapes};
ghost use Rattle.ann_lattice.specs.Order.{kept, lists, all_lists, dicts, all_dicts};
ghost use Rattle.ann_lattice.specs.Join as spec;

use ann_element::{Element, Sites, copy_element, copy_functions};
use class_desc::Classes;
use rpy_base::{NoMem, Seq};
use rpy_tree::{ClassId, FunId, SiteId};
use std::alloc::Global;

/// How many tuples may stand inside one another.
pub const TUPLE_LIMIT: u64 = 8;

/// Two sites that become one class.
pub type Tie = (SiteId, SiteId);

// ---- conflicts

fn push_kept(site: Option<SiteId>, sites: &mut Seq<SiteId>) -> Result<(), NoMem>
    ensures { OnOk result (sites.new ≡ sites.old ++ kept site) }
{
    match site {
        None => Ok(()),
        Some(site) => sites.push(site),
    }
}

// The lists in an element, at any depth.
#[cycle(lists)]
fn list_sites(e: &Element, sites: &mut Seq<SiteId>) -> Result<(), NoMem>
    ensures { OnOk result (sites.new ≡ sites.old ++ lists (shape e.now)) }
{
    match e {
        Element::List(site, _) => sites.push(*site),
        Element::Tuple(parts) => all_list_sites(parts.as_slice(), sites),
        Element::Conflict(site, _) => push_kept(*site, sites),
        _ => Ok(()),
    }
}

#[cycle(lists)]
fn all_list_sites(parts: &[Element], sites: &mut Seq<SiteId>) -> Result<(), NoMem>
    ensures { OnOk result (sites.new ≡ sites.old ++ all_lists (shapes parts.now)) }
{
    match parts {
        [] => Ok(()),
        [part, parts @ ..] => {
            list_sites(part, sites)?;
            all_list_sites(parts, sites)
        }
    }
}

// The dicts in an element, at any depth.
#[cycle(dicts)]
fn dict_sites(e: &Element, sites: &mut Seq<SiteId>) -> Result<(), NoMem>
    ensures { OnOk result (sites.new ≡ sites.old ++ dicts (shape e.now)) }
{
    match e {
        Element::Dict(site, _) => sites.push(*site),
        Element::Tuple(parts) => all_dict_sites(parts.as_slice(), sites),
        Element::Conflict(_, site) => push_kept(*site, sites),
        _ => Ok(()),
    }
}

#[cycle(dicts)]
fn all_dict_sites(parts: &[Element], sites: &mut Seq<SiteId>) -> Result<(), NoMem>
    ensures { OnOk result (sites.new ≡ sites.old ++ all_dicts (shapes parts.now)) }
{
    match parts {
        [] => Ok(()),
        [part, parts @ ..] => {
            dict_sites(part, sites)?;
            all_dict_sites(parts, sites)
        }
    }
}

fn both_lists(alloc: Global, a: &Element, b: &Element) -> Result<Seq<SiteId>, NoMem>
    ensures { IfOk result (λ sites. sites ≡ lists (shape a.now) ++ lists (shape b.now)) }
{
    let mut sites = Seq::new(alloc);
    list_sites(a, &mut sites)?;
    list_sites(b, &mut sites)?;
    Ok(sites)
}

fn both_dicts(alloc: Global, a: &Element, b: &Element) -> Result<Seq<SiteId>, NoMem>
    ensures { IfOk result (λ sites. sites ≡ dicts (shape a.now) ++ dicts (shape b.now)) }
{
    let mut sites = Seq::new(alloc);
    dict_sites(a, &mut sites)?;
    dict_sites(b, &mut sites)?;
    Ok(sites)
}

fn tie_with(site: SiteId, others: &[SiteId], ties: &mut Seq<Tie>) -> Result<(), NoMem>
    ensures { OnOk result (ties.new ≡ ties.old ++ map (λ other. (site, other)) others.now) }
{
    match others {
        [] => Ok(()),
        [other, others @ ..] => {
            ties.push((site, *other))?;
            tie_with(site, others, ties)
        }
    }
}

// All of them become one class.
fn tie_all(sites: &[SiteId], ties: &mut Seq<Tie>) -> Result<(), NoMem>
    ensures { OnOk result (ties.new ≡ ties.old ++ spec.chain sites.now) }
{
    match sites {
        [] => Ok(()),
        [site, others @ ..] => tie_with(*site, others, ties),
    }
}

fn first_site(sites: &[SiteId]) -> Option<SiteId>
    ensures { result ≡ spec.first sites.now }
{
    match sites {
        [] => None,
        [site, _others @ ..] => Some(*site),
    }
}

// The conflict of two elements: all their lists are of one class then, and all their dicts.
fn clash(alloc: Global, a: &Element, b: &Element, ties: &mut Seq<Tie>) -> Result<Element, NoMem>
    ensures joined { IfOk result (λ e. shape e ≡ spec.conflict (shape a.now) (shape b.now)) }
    ensures tied { OnOk result (ties.new ≡ ties.old ++ spec.all_tied (shape a.now) (shape b.now)) }
{
    let lists = both_lists(alloc, a, b)?;
    let dicts = both_dicts(alloc, a, b)?;
    tie_all(lists.as_slice(), ties)?;
    tie_all(dicts.as_slice(), ties)?;
    Ok(Element::Conflict(first_site(lists.as_slice()), first_site(dicts.as_slice())))
}

// ---- `None`, words, truth values and strings

fn join_none(
    alloc: Global,
    classes: &Classes,
    b: &Element,
    ties: &mut Seq<Tie>,
) -> Result<Element, NoMem>
    ensures joined { IfOk result (λ e. shape e ≡ spec.join classes.now.classes NoneOnly (shape b.now)) }
    ensures tied { OnOk result (ties.new ≡ ties.old ++ spec.tied classes.now.classes NoneOnly (shape b.now)) }
{
    match b {
        Element::Unreached => Ok(Element::NoneOnly),
        Element::NoneOnly => Ok(Element::NoneOnly),
        Element::Char => Ok(Element::StrOrNone),
        Element::Str => Ok(Element::StrOrNone),
        Element::StrOrNone => Ok(Element::StrOrNone),
        Element::List(site, _) => Ok(Element::List(*site, true)),
        Element::Dict(site, _) => Ok(Element::Dict(*site, true)),
        Element::Instance(class, _) => Ok(Element::Instance(*class, true)),
        Element::Func(functions, _) => {
            Ok(Element::Func(copy_functions(alloc, functions.as_slice())?, true))
        }
        _ => clash(alloc, &Element::NoneOnly, b, ties),
    }
}

// A truth value that is known in both is known.
fn join_true(
    alloc: Global,
    classes: &Classes,
    b: &Element,
    ties: &mut Seq<Tie>,
) -> Result<Element, NoMem>
    ensures joined { IfOk result (λ e. shape e ≡ spec.join classes.now.classes (Truth (Some true)) (shape b.now)) }
    ensures tied { OnOk result (ties.new ≡ ties.old ++ spec.tied classes.now.classes (Truth (Some true)) (shape b.now)) }
{
    match b {
        Element::Unreached => Ok(Element::KnownTrue),
        Element::KnownTrue => Ok(Element::KnownTrue),
        Element::KnownFalse => Ok(Element::Bool),
        Element::Bool => Ok(Element::Bool),
        _ => clash(alloc, &Element::KnownTrue, b, ties),
    }
}

fn join_false(
    alloc: Global,
    classes: &Classes,
    b: &Element,
    ties: &mut Seq<Tie>,
) -> Result<Element, NoMem>
    ensures joined { IfOk result (λ e. shape e ≡ spec.join classes.now.classes (Truth (Some false)) (shape b.now)) }
    ensures tied { OnOk result (ties.new ≡ ties.old ++ spec.tied classes.now.classes (Truth (Some false)) (shape b.now)) }
{
    match b {
        Element::Unreached => Ok(Element::KnownFalse),
        Element::KnownTrue => Ok(Element::Bool),
        Element::KnownFalse => Ok(Element::KnownFalse),
        Element::Bool => Ok(Element::Bool),
        _ => clash(alloc, &Element::KnownFalse, b, ties),
    }
}

fn join_bool(
    alloc: Global,
    classes: &Classes,
    b: &Element,
    ties: &mut Seq<Tie>,
) -> Result<Element, NoMem>
    ensures joined { IfOk result (λ e. shape e ≡ spec.join classes.now.classes (Truth None) (shape b.now)) }
    ensures tied { OnOk result (ties.new ≡ ties.old ++ spec.tied classes.now.classes (Truth None) (shape b.now)) }
{
    match b {
        Element::Unreached => Ok(Element::Bool),
        Element::KnownTrue => Ok(Element::Bool),
        Element::KnownFalse => Ok(Element::Bool),
        Element::Bool => Ok(Element::Bool),
        _ => clash(alloc, &Element::Bool, b, ties),
    }
}

fn join_int_pos(
    alloc: Global,
    classes: &Classes,
    b: &Element,
    ties: &mut Seq<Tie>,
) -> Result<Element, NoMem>
    ensures joined { IfOk result (λ e. shape e ≡ spec.join classes.now.classes (Num false) (shape b.now)) }
    ensures tied { OnOk result (ties.new ≡ ties.old ++ spec.tied classes.now.classes (Num false) (shape b.now)) }
{
    match b {
        Element::Unreached => Ok(Element::IntPos),
        Element::IntPos => Ok(Element::IntPos),
        Element::Int => Ok(Element::Int),
        _ => clash(alloc, &Element::IntPos, b, ties),
    }
}

fn join_int(
    alloc: Global,
    classes: &Classes,
    b: &Element,
    ties: &mut Seq<Tie>,
) -> Result<Element, NoMem>
    ensures joined { IfOk result (λ e. shape e ≡ spec.join classes.now.classes (Num true) (shape b.now)) }
    ensures tied { OnOk result (ties.new ≡ ties.old ++ spec.tied classes.now.classes (Num true) (shape b.now)) }
{
    match b {
        Element::Unreached => Ok(Element::Int),
        Element::IntPos => Ok(Element::Int),
        Element::Int => Ok(Element::Int),
        _ => clash(alloc, &Element::Int, b, ties),
    }
}

fn join_char(
    alloc: Global,
    classes: &Classes,
    b: &Element,
    ties: &mut Seq<Tie>,
) -> Result<Element, NoMem>
    ensures joined { IfOk result (λ e. shape e ≡ spec.join classes.now.classes (Str One) (shape b.now)) }
    ensures tied { OnOk result (ties.new ≡ ties.old ++ spec.tied classes.now.classes (Str One) (shape b.now)) }
{
    match b {
        Element::Unreached => Ok(Element::Char),
        Element::NoneOnly => Ok(Element::StrOrNone),
        Element::Char => Ok(Element::Char),
        Element::Str => Ok(Element::Str),
        Element::StrOrNone => Ok(Element::StrOrNone),
        _ => clash(alloc, &Element::Char, b, ties),
    }
}

fn join_str(
    alloc: Global,
    classes: &Classes,
    b: &Element,
    ties: &mut Seq<Tie>,
) -> Result<Element, NoMem>
    ensures joined { IfOk result (λ e. shape e ≡ spec.join classes.now.classes (Str Any) (shape b.now)) }
    ensures tied { OnOk result (ties.new ≡ ties.old ++ spec.tied classes.now.classes (Str Any) (shape b.now)) }
{
    match b {
        Element::Unreached => Ok(Element::Str),
        Element::NoneOnly => Ok(Element::StrOrNone),
        Element::Char => Ok(Element::Str),
        Element::Str => Ok(Element::Str),
        Element::StrOrNone => Ok(Element::StrOrNone),
        _ => clash(alloc, &Element::Str, b, ties),
    }
}

fn join_str_or_none(
    alloc: Global,
    classes: &Classes,
    b: &Element,
    ties: &mut Seq<Tie>,
) -> Result<Element, NoMem>
    ensures joined { IfOk result (λ e. shape e ≡ spec.join classes.now.classes (Str OrNone) (shape b.now)) }
    ensures tied { OnOk result (ties.new ≡ ties.old ++ spec.tied classes.now.classes (Str OrNone) (shape b.now)) }
{
    match b {
        Element::Unreached => Ok(Element::StrOrNone),
        Element::NoneOnly => Ok(Element::StrOrNone),
        Element::Char => Ok(Element::StrOrNone),
        Element::Str => Ok(Element::StrOrNone),
        Element::StrOrNone => Ok(Element::StrOrNone),
        _ => clash(alloc, &Element::StrOrNone, b, ties),
    }
}

// ---- lists, dicts, instances, functions

fn join_list(
    alloc: Global,
    classes: &Classes,
    site: SiteId,
    none: bool,
    b: &Element,
    ties: &mut Seq<Tie>,
) -> Result<Element, NoMem>
    ensures joined { IfOk result (λ e. shape e ≡ spec.join classes.now.classes (Lst site none) (shape b.now)) }
    ensures tied { OnOk result (ties.new ≡ ties.old ++ spec.tied classes.now.classes (Lst site none) (shape b.now)) }
{
    match b {
        Element::Unreached => Ok(Element::List(site, none)),
        Element::NoneOnly => Ok(Element::List(site, true)),
        Element::List(of, more) => {
            ties.push((site, *of))?;
            Ok(Element::List(site, none || *more))
        }
        _ => clash(alloc, &Element::List(site, none), b, ties),
    }
}

fn join_dict(
    alloc: Global,
    classes: &Classes,
    site: SiteId,
    none: bool,
    b: &Element,
    ties: &mut Seq<Tie>,
) -> Result<Element, NoMem>
    ensures joined { IfOk result (λ e. shape e ≡ spec.join classes.now.classes (Dct site none) (shape b.now)) }
    ensures tied { OnOk result (ties.new ≡ ties.old ++ spec.tied classes.now.classes (Dct site none) (shape b.now)) }
{
    match b {
        Element::Unreached => Ok(Element::Dict(site, none)),
        Element::NoneOnly => Ok(Element::Dict(site, true)),
        Element::Dict(of, more) => {
            ties.push((site, *of))?;
            Ok(Element::Dict(site, none || *more))
        }
        _ => clash(alloc, &Element::Dict(site, none), b, ties),
    }
}

// An instance of a class, where there is one.
fn instance_of(class: Option<ClassId>, none: bool) -> Element
    ensures { shape result ≡ spec.join_inst class none }
{
    match class {
        None => Element::Conflict(None, None),
        Some(class) => Element::Instance(class, none),
    }
}

#[tactic(auto, using(crate::proofs::Meeting::inst_tied))]
fn join_instance(
    alloc: Global,
    classes: &Classes,
    class: ClassId,
    none: bool,
    b: &Element,
    ties: &mut Seq<Tie>,
) -> Result<Element, NoMem>
    ensures joined { IfOk result (λ e. shape e ≡ spec.join classes.now.classes (Inst class none) (shape b.now)) }
    ensures tied { OnOk result (ties.new ≡ ties.old ++ spec.tied classes.now.classes (Inst class none) (shape b.now)) }
{
    match b {
        Element::Unreached => Ok(Element::Instance(class, none)),
        Element::NoneOnly => Ok(Element::Instance(class, true)),
        Element::Instance(of, more) => {
            Ok(instance_of(classes.common_base(class, *of), none || *more))
        }
        _ => clash(alloc, &Element::Instance(class, none), b, ties),
    }
}

fn push_all(functions: &[FunId], joined: &mut Seq<FunId>) -> Result<(), NoMem>
    ensures { OnOk result (joined.new ≡ joined.old ++ functions.now) }
{
    for function in functions {
        joined.push(*function)?;
    }
    Ok(())
}

// The functions of two lists in rising order.
fn union(a: &[FunId], b: &[FunId], joined: &mut Seq<FunId>) -> Result<(), NoMem>
    ensures { OnOk result (joined.new ≡ joined.old ++ spec.union a.now b.now) }
{
    match a {
        [] => push_all(b, joined),
        [first, further @ ..] => match b {
            [] => {
                joined.push(*first)?;
                union(further, b, joined)
            }
            [other, others @ ..] => {
                if *first < *other {
                    joined.push(*first)?;
                    union(further, b, joined)
                } else if *other < *first {
                    joined.push(*other)?;
                    union(a, others, joined)
                } else {
                    joined.push(*first)?;
                    union(further, others, joined)
                }
            }
        },
    }
}

fn united(alloc: Global, a: &[FunId], b: &[FunId], none: bool) -> Result<Element, NoMem>
    ensures { IfOk result (λ e. shape e ≡ Fun (spec.union a.now b.now) none) }
{
    let mut joined = Seq::new(alloc);
    union(a, b, &mut joined)?;
    Ok(Element::Func(joined, none))
}

fn join_functions(
    alloc: Global,
    classes: &Classes,
    a: &Element,
    functions: &[FunId],
    none: bool,
    b: &Element,
    ties: &mut Seq<Tie>,
) -> Result<Element, NoMem>
    requires { shape a.now ≡ Fun functions.now none }
    ensures joined { IfOk result (λ e. shape e ≡ spec.join classes.now.classes (Fun functions.now none) (shape b.now)) }
    ensures tied { OnOk result (ties.new ≡ ties.old ++ spec.tied classes.now.classes (Fun functions.now none) (shape b.now)) }
{
    match b {
        Element::Unreached => copy_element(alloc, a),
        Element::NoneOnly => Ok(Element::Func(copy_functions(alloc, functions)?, true)),
        Element::Func(others, more) => {
            united(alloc, functions, others.as_slice(), none || *more)
        }
        _ => clash(alloc, a, b, ties),
    }
}

fn join_conflict(
    alloc: Global,
    classes: &Classes,
    lists: Option<SiteId>,
    dicts: Option<SiteId>,
    b: &Element,
    ties: &mut Seq<Tie>,
) -> Result<Element, NoMem>
    ensures joined { IfOk result (λ e. shape e ≡ spec.join classes.now.classes (Clash lists dicts) (shape b.now)) }
    ensures tied { OnOk result (ties.new ≡ ties.old ++ spec.tied classes.now.classes (Clash lists dicts) (shape b.now)) }
{
    match b {
        Element::Unreached => Ok(Element::Conflict(lists, dicts)),
        _ => clash(alloc, &Element::Conflict(lists, dicts), b, ties),
    }
}

// ---- tuples

/// Whether it is a conflict.
pub fn is_clash(e: &Element) -> bool
    ensures { result ≡ spec.is_clash (shape e.now) }
{
    match e {
        Element::Conflict(_, _) => true,
        _ => false,
    }
}

fn no_clash(parts: &[Element]) -> bool
    ensures { result ≡ spec.no_clash (shapes parts.now) }
{
    match parts {
        [] => true,
        [part, parts @ ..] => !is_clash(part) && no_clash(parts),
    }
}

/// Whether at most so many tuples stand inside one another.
#[cycle(shallow)]
#[tactic(auto, using(crate::proofs::Meeting::deeper))]
pub fn is_shallow(e: &Element, levels: u64) -> bool
    ensures { result ≡ nat_le (spec.depth (shape e.now)) levels }
{
    match e {
        Element::Tuple(parts) => levels > 0 && all_shallow(parts.as_slice(), levels - 1),
        _ => true,
    }
}

#[cycle(shallow)]
#[tactic(auto, using(crate::proofs::Meeting::max_within))]
fn all_shallow(parts: &[Element], levels: u64) -> bool
    ensures { result ≡ nat_le (spec.depths (shapes parts.now)) levels }
{
    match parts {
        [] => true,
        [part, parts @ ..] => is_shallow(part, levels) && all_shallow(parts, levels),
    }
}

fn equal_count(parts: &[Element], others: &[Element]) -> bool
    ensures { result ≡ spec.equal_count (shapes parts.now) (shapes others.now) }
{
    match parts {
        [] => match others {
            [] => true,
            [_other, _others @ ..] => false,
        },
        [_part, parts @ ..] => match others {
            [] => false,
            [_other, others @ ..] => equal_count(parts, others),
        },
    }
}

// Whether the items stay a tuple.
fn stay(parts: &[Element]) -> bool
    ensures { result ≡ (spec.no_clash (shapes parts.now) && nat_le (spec.depths (shapes parts.now)) 7) }
{
    no_clash(parts) && all_shallow(parts, TUPLE_LIMIT - 1)
}

#[cycle(join)]
#[tactic(auto, using(crate::proofs::Meeting::and_one))]
fn push_join(
    alloc: Global,
    classes: &Classes,
    a: &Element,
    b: &Element,
    ties: &mut Seq<Tie>,
    joined: &mut Seq<Element>,
) -> Result<(), NoMem>
    ensures joined { OnOk result (map shape joined.new ≡ map shape joined.old ++ spec.join classes.now.classes (shape a.now) (shape b.now) ∷ []) }
    ensures tied { OnOk result (ties.new ≡ ties.old ++ spec.tied classes.now.classes (shape a.now) (shape b.now)) }
{
    let part = join_elements(alloc, classes, a, b, ties)?;
    joined.push(part)
}

#[cycle(join)]
fn push_joins(
    alloc: Global,
    classes: &Classes,
    parts: &[Element],
    others: &[Element],
    ties: &mut Seq<Tie>,
    joined: &mut Seq<Element>,
) -> Result<(), NoMem>
    ensures joined { OnOk result (map shape joined.new ≡ map shape joined.old ++ items (spec.joins classes.now.classes (shapes parts.now) (shapes others.now))) }
    ensures tied { OnOk result (ties.new ≡ ties.old ++ spec.all_each classes.now.classes (shapes parts.now) (shapes others.now)) }
{
    match parts {
        [] => Ok(()),
        [a, parts @ ..] => match others {
            [] => Ok(()),
            [b, others @ ..] => {
                push_join(alloc, classes, a, b, ties, joined)?;
                push_joins(alloc, classes, parts, others, ties, joined)
            }
        },
    }
}

#[cycle(join)]
#[tactic(auto, using(crate::proofs::Meeting::joined_all))]
fn join_parts(
    alloc: Global,
    classes: &Classes,
    parts: &[Element],
    others: &[Element],
    ties: &mut Seq<Tie>,
) -> Result<Seq<Element>, NoMem>
    ensures joined { IfOk result (λ joined. shapes joined ≡ spec.joins classes.now.classes (shapes parts.now) (shapes others.now)) }
    ensures tied { OnOk result (ties.new ≡ ties.old ++ spec.all_each classes.now.classes (shapes parts.now) (shapes others.now)) }
{
    let mut joined = Seq::new(alloc);
    push_joins(alloc, classes, parts, others, ties, &mut joined)?;
    Ok(joined)
}

#[cycle(join)]
#[tactic(auto, using(crate::proofs::Meeting::tuple_stays, crate::proofs::Meeting::tuple_goes, crate::proofs::Meeting::tuple_apart, crate::proofs::Meeting::tied_stays, crate::proofs::Meeting::tied_goes, crate::proofs::Meeting::tied_apart))]
fn join_tuples(
    alloc: Global,
    classes: &Classes,
    a: &Element,
    b: &Element,
    parts: &[Element],
    others: &[Element],
    ties: &mut Seq<Tie>,
) -> Result<Element, NoMem>
    requires first { shape a.now ≡ Tup (shapes parts.now) }
    requires second { shape b.now ≡ Tup (shapes others.now) }
    ensures joined { IfOk result (λ e. shape e ≡ spec.join classes.now.classes (Tup (shapes parts.now)) (Tup (shapes others.now))) }
    ensures tied { OnOk result (ties.new ≡ ties.old ++ spec.tied classes.now.classes (Tup (shapes parts.now)) (Tup (shapes others.now))) }
{
    if !equal_count(parts, others) {
        return clash(alloc, a, b, ties);
    }
    let joined = join_parts(alloc, classes, parts, others, ties)?;
    if stay(joined.as_slice()) {
        return Ok(Element::Tuple(joined));
    }
    clash(alloc, a, b, ties)
}

#[cycle(join)]
fn join_tuple(
    alloc: Global,
    classes: &Classes,
    a: &Element,
    parts: &[Element],
    b: &Element,
    ties: &mut Seq<Tie>,
) -> Result<Element, NoMem>
    requires { shape a.now ≡ Tup (shapes parts.now) }
    ensures joined { IfOk result (λ e. shape e ≡ spec.join classes.now.classes (Tup (shapes parts.now)) (shape b.now)) }
    ensures tied { OnOk result (ties.new ≡ ties.old ++ spec.tied classes.now.classes (Tup (shapes parts.now)) (shape b.now)) }
{
    match b {
        Element::Unreached => copy_element(alloc, a),
        Element::Tuple(others) => {
            join_tuples(alloc, classes, a, b, parts, others.as_slice(), ties)
        }
        _ => clash(alloc, a, b, ties),
    }
}

/// The least element above two others, and the sites that it ties, after those that were tied before.
#[cycle(join)]
#[tactic(auto, using(crate::proofs::Meeting::nothing_tied))]
fn join_elements(
    alloc: Global,
    classes: &Classes,
    a: &Element,
    b: &Element,
    ties: &mut Seq<Tie>,
) -> Result<Element, NoMem>
    ensures joined { IfOk result (λ e. shape e ≡ spec.join classes.now.classes (shape a.now) (shape b.now)) }
    ensures tied { OnOk result (ties.new ≡ ties.old ++ spec.tied classes.now.classes (shape a.now) (shape b.now)) }
{
    match a {
        Element::Unreached => copy_element(alloc, b),
        Element::NoneOnly => join_none(alloc, classes, b, ties),
        Element::KnownTrue => join_true(alloc, classes, b, ties),
        Element::KnownFalse => join_false(alloc, classes, b, ties),
        Element::Bool => join_bool(alloc, classes, b, ties),
        Element::IntPos => join_int_pos(alloc, classes, b, ties),
        Element::Int => join_int(alloc, classes, b, ties),
        Element::Char => join_char(alloc, classes, b, ties),
        Element::Str => join_str(alloc, classes, b, ties),
        Element::StrOrNone => join_str_or_none(alloc, classes, b, ties),
        Element::Tuple(parts) => join_tuple(alloc, classes, a, parts.as_slice(), b, ties),
        Element::List(site, none) => join_list(alloc, classes, *site, *none, b, ties),
        Element::Dict(site, none) => join_dict(alloc, classes, *site, *none, b, ties),
        Element::Instance(class, none) => join_instance(alloc, classes, *class, *none, b, ties),
        Element::Func(functions, none) => {
            join_functions(alloc, classes, a, functions.as_slice(), *none, b, ties)
        }
        Element::Conflict(lists, dicts) => join_conflict(alloc, classes, *lists, *dicts, b, ties),
    }
}

// Each of these pairs becomes one class.
fn unite_all(same: &mut Sites, ties: &[Tie])
    ensures { same.new ≡ spec.unites same.old ties.now }
{
    match ties {
        [] => {}
        [tie, ties @ ..] => {
            let _were_two = same.unite(tie.0, tie.1);
            unite_all(same, ties)
        }
    }
}

/// The least element above two others. The classes of the lists that meet in it become one, and those of
/// the dicts.
pub fn join(
    alloc: Global,
    classes: &Classes,
    same: &mut Sites,
    a: &Element,
    b: &Element,
) -> Result<Element, NoMem>
    ensures joined { IfOk result (λ e. shape e ≡ spec.join classes.now.classes (shape a.now) (shape b.now)) }
    ensures classes { OnOk result (same.new ≡ spec.classes_after classes.now.classes same.old (shape a.now) (shape b.now)) }
{
    let mut ties = Seq::new(alloc);
    let joined = join_elements(alloc, classes, a, b, &mut ties)?;
    unite_all(same, ties.as_slice());
    Ok(joined)
}
