// Calls: the functions that they reach, and the classes that they make.
ghost use Rattle.std.specs.Prelude.{false, ◌≡◌, ◌++◌, ◌∷◌, [], map, IfOk, OnOk};
ghost use Rattle.ann_lattice.specs.Shape.{Inst, shape};
ghost use Rattle.ann_rules.specs.Asks as rule;
ghost use Rattle.ann_needs.specs.View as spec;

use crate::ask::Asks;
use crate::constant::put_constant;
use crate::held::tie;
use crate::plan::{Plan, next};
use crate::state::State;
use ann_element::{Element, copy_element};
use class_desc::Initial;
use rpy_base::{NoMem, Seq, Text};
use rpy_tree::{ClassId, Const, FunId};
use std::alloc::Global;

// ---- arguments

fn rest_of_elements(xs: &[Element]) -> &[Element]
    ensures { map shape result.now ≡ rule.rest (map shape xs.now) }
{
    match xs {
        [] => &[],
        [_, others @ ..] => others,
    }
}

fn rest_of_defaults(defaults: &[Option<Const>]) -> &[Option<Const>]
    ensures { result.now ≡ rule.rest defaults.now }
{
    match defaults {
        [] => &[],
        [_, others @ ..] => others,
    }
}

// A parameter takes an argument, or its default.
fn argument(
    alloc: Global,
    p: &Plan,
    asks: &mut Asks,
    f: FunId,
    at: usize,
    default: &Option<Const>,
    xs: &[Element],
) -> Result<(), NoMem>
    ensures { OnOk result (spec.seen asks.new ≡ spec.seen asks.old ++ rule.argument (spec.whole p.now) f at default.now (map shape xs.now)) }
{
    match xs {
        [x, _others @ ..] => asks.above(alloc, p.param(f, at), x),
        [] => match default {
            None => Ok(()),
            Some(value) => put_constant(alloc, p, asks, p.param(f, at), value),
        },
    }
}

fn arguments(
    alloc: Global,
    p: &Plan,
    asks: &mut Asks,
    f: FunId,
    at: usize,
    defaults: &[Option<Const>],
    xs: &[Element],
) -> Result<(), NoMem>
    ensures { OnOk result (spec.seen asks.new ≡ spec.seen asks.old ++ rule.arguments (spec.whole p.now) f at defaults.now (map shape xs.now)) }
{
    match defaults {
        [] => Ok(()),
        [default, others @ ..] => {
            argument(alloc, p, asks, f, at, default, xs)?;
            arguments(alloc, p, asks, f, next(at)?, others, rest_of_elements(xs))
        }
    }
}

/// A call reaches a function with these arguments.
pub fn reach(
    alloc: Global,
    p: &Plan,
    asks: &mut Asks,
    f: FunId,
    xs: &[Element],
) -> Result<(), NoMem>
    ensures { OnOk result (spec.seen asks.new ≡ spec.seen asks.old ++ rule.reach (spec.whole p.now) f (map shape xs.now)) }
{
    asks.set(p.reached(f))?;
    arguments(alloc, p, asks, f, 0, p.defaults(f), xs)
}

// ---- classes

fn put_initial(alloc: Global, p: &Plan, asks: &mut Asks, initial: &Initial) -> Result<(), NoMem>
    ensures { OnOk result (spec.seen asks.new ≡ spec.seen asks.old ++ rule.initial_needs (spec.whole p.now) initial.now) }
{
    let cell = p.attribute(initial.home, &initial.name);
    put_constant(alloc, p, asks, cell, &initial.value)
}

fn put_initials(alloc: Global, p: &Plan, asks: &mut Asks, initials: &[Initial]) -> Result<(), NoMem>
    ensures { OnOk result (spec.seen asks.new ≡ spec.seen asks.old ++ rule.from_each (rule.initial_needs (spec.whole p.now)) initials.now) }
{
    for initial in initials {
        put_initial(alloc, p, asks, initial)?;
    }
    Ok(())
}

// The arguments with their receiver before them.
fn with_receiver(alloc: Global, class: ClassId, xs: &[Element]) -> Result<Seq<Element>, NoMem>
    ensures { IfOk result (λ all. map shape all ≡ Inst class false ∷ map shape xs.now) }
{
    let mut all = Seq::new(alloc);
    all.push(Element::Instance(class, false))?;
    for x in xs {
        all.push(copy_element(alloc, x)?)?;
    }
    Ok(all)
}

/// A call reaches a method with an instance of a class and these arguments.
pub fn reach_method(
    alloc: Global,
    p: &Plan,
    asks: &mut Asks,
    class: ClassId,
    f: FunId,
    xs: &[Element],
) -> Result<(), NoMem>
    ensures { OnOk result (spec.seen asks.new ≡ spec.seen asks.old ++ rule.reach (spec.whole p.now) f (Inst class false ∷ map shape xs.now)) }
{
    let all = with_receiver(alloc, class, xs)?;
    reach(alloc, p, asks, f, all.as_slice())
}

fn start_with(
    alloc: Global,
    p: &Plan,
    asks: &mut Asks,
    class: ClassId,
    init: Option<FunId>,
    xs: &[Element],
) -> Result<(), NoMem>
    ensures { OnOk result (spec.seen asks.new ≡ spec.seen asks.old ++ rule.start_with (spec.whole p.now) class init (map shape xs.now)) }
{
    match init {
        None => Ok(()),
        Some(f) => reach_method(alloc, p, asks, class, f, xs),
    }
}

/// The class is made, its class-level constants are its first attributes, and its `__init__` is reached.
pub fn make(
    alloc: Global,
    p: &Plan,
    asks: &mut Asks,
    class: ClassId,
    xs: &[Element],
) -> Result<(), NoMem>
    ensures { OnOk result (spec.seen asks.new ≡ spec.seen asks.old ++ rule.make (spec.whole p.now) class (map shape xs.now)) }
{
    asks.set(p.made(class))?;
    let initials = p.classes.initial(alloc, class)?;
    put_initials(alloc, p, asks, initials.as_slice())?;
    start_with(alloc, p, asks, class, p.classes.init(class), xs)
}

// ---- functions of one call

fn tie_params(
    alloc: Global,
    p: &Plan,
    s: &State,
    asks: &mut Asks,
    f: FunId,
    g: FunId,
    at: usize,
    ds: &[Option<Const>],
    es: &[Option<Const>],
) -> Result<(), NoMem>
    ensures { OnOk result (spec.seen asks.new ≡ spec.seen asks.old ++ rule.tie_params (spec.whole p.now) (spec.assignment s.now) f g at ds.now es.now) }
{
    match ds {
        [] => Ok(()),
        [_, ds @ ..] => match es {
            [] => Ok(()),
            [_, es @ ..] => {
                tie(alloc, p, s, asks, p.param(f, at), p.param(g, at))?;
                tie_params(alloc, p, s, asks, f, g, next(at)?, ds, es)
            }
        },
    }
}

/// Two functions that one call reaches share their parameters, receivers aside, and their results.
pub fn tie_two(
    alloc: Global,
    p: &Plan,
    s: &State,
    asks: &mut Asks,
    received: bool,
    f: FunId,
    g: FunId,
) -> Result<(), NoMem>
    ensures { OnOk result (spec.seen asks.new ≡ spec.seen asks.old ++ rule.tie_two (spec.whole p.now) (spec.assignment s.now) received f g) }
{
    let ds = p.defaults(f);
    let es = p.defaults(g);
    if received {
        let others = rest_of_defaults(es);
        tie_params(alloc, p, s, asks, f, g, 1, rest_of_defaults(ds), others)?;
    } else {
        tie_params(alloc, p, s, asks, f, g, 0, ds, es)?;
    }
    tie(alloc, p, s, asks, p.result(f), p.result(g))
}

fn tie_with(
    alloc: Global,
    p: &Plan,
    s: &State,
    asks: &mut Asks,
    received: bool,
    f: FunId,
    gs: &[FunId],
) -> Result<(), NoMem>
    ensures { OnOk result (spec.seen asks.new ≡ spec.seen asks.old ++ rule.from_each (rule.tie_two (spec.whole p.now) (spec.assignment s.now) received f) gs.now) }
{
    for g in gs {
        tie_two(alloc, p, s, asks, received, f, *g)?;
    }
    Ok(())
}

fn tie_each(
    alloc: Global,
    p: &Plan,
    s: &State,
    asks: &mut Asks,
    received: bool,
    fs: &[FunId],
    gs: &[FunId],
) -> Result<(), NoMem>
    ensures { OnOk result (spec.seen asks.new ≡ spec.seen asks.old ++ rule.tie_each (spec.whole p.now) (spec.assignment s.now) received fs.now gs.now) }
{
    for f in fs {
        tie_with(alloc, p, s, asks, received, *f, gs)?;
    }
    Ok(())
}

fn reach_all(
    alloc: Global,
    p: &Plan,
    asks: &mut Asks,
    fs: &[FunId],
    xs: &[Element],
) -> Result<(), NoMem>
    ensures { OnOk result (spec.seen asks.new ≡ spec.seen asks.old ++ rule.from_each (λ f. rule.reach (spec.whole p.now) f (map shape xs.now)) fs.now) }
{
    for f in fs {
        reach(alloc, p, asks, *f, xs)?;
    }
    Ok(())
}

/// A call of functions with the same arguments.
pub fn call_all(
    alloc: Global,
    p: &Plan,
    s: &State,
    asks: &mut Asks,
    fs: &[FunId],
    xs: &[Element],
) -> Result<(), NoMem>
    ensures { OnOk result (spec.seen asks.new ≡ spec.seen asks.old ++ rule.call_all (spec.whole p.now) (spec.assignment s.now) fs.now (map shape xs.now)) }
{
    reach_all(alloc, p, asks, fs, xs)?;
    tie_each(alloc, p, s, asks, false, fs, fs)
}

// ---- methods

fn narrow(class: usize) -> Result<ClassId, NoMem>
    ensures { IfOk result (λ number. number ≡ class) }
{
    if class <= 4294967295 {
        Ok(class as u32)
    } else {
        Err(NoMem)
    }
}

// The method that an instance of a made class has, where the class is below another.
fn made_method(p: &Plan, s: &State, of: ClassId, name: &Text, class: ClassId) -> Option<FunId>
    ensures { result ≡ spec.made_method (spec.whole p.now) (spec.assignment s.now) of name.now class }
{
    if s.is_marked(p.made(class)) && p.classes.below(class, of) {
        p.classes.method(class, name)
    } else {
        None
    }
}

fn add_method(
    methods: &mut Seq<(ClassId, FunId)>,
    class: ClassId,
    method: Option<FunId>,
) -> Result<(), NoMem>
    ensures { OnOk result (methods.new ≡ methods.old ++ rule.paired class method) }
{
    match method {
        None => Ok(()),
        Some(f) => methods.push((class, f)),
    }
}

fn add_made(
    p: &Plan,
    s: &State,
    of: ClassId,
    name: &Text,
    class: usize,
    methods: &mut Seq<(ClassId, FunId)>,
) -> Result<(), NoMem>
    ensures { OnOk result (methods.new ≡ methods.old ++ rule.method_of (spec.whole p.now) (spec.assignment s.now) «of» name.now class) }
{
    let class = narrow(class)?;
    add_method(methods, class, made_method(p, s, of, name, class))
}

/// The methods of the made classes below a class, each with its class.
#[tactic(auto, using(crate::proofs::Counted::kept))]
pub fn methods_of(
    alloc: Global,
    p: &Plan,
    s: &State,
    of: ClassId,
    name: &Text,
) -> Result<Seq<(ClassId, FunId)>, NoMem>
    ensures { IfOk result (λ methods. methods ≡ rule.methods (spec.whole p.now) (spec.assignment s.now) of name.now) }
{
    let mut methods = Seq::new(alloc);
    for class in 0..p.classes.len() {
        add_made(p, s, of, name, class, &mut methods)?;
    }
    Ok(methods)
}

fn reach_methods(
    alloc: Global,
    p: &Plan,
    asks: &mut Asks,
    methods: &[(ClassId, FunId)],
    xs: &[Element],
) -> Result<(), NoMem>
    ensures { OnOk result (spec.seen asks.new ≡ spec.seen asks.old ++ rule.from_each (λ f. rule.reach (spec.whole p.now) f.1 (Inst f.0 false ∷ map shape xs.now)) methods.now) }
{
    for method in methods {
        reach_method(alloc, p, asks, method.0, method.1, xs)?;
    }
    Ok(())
}

/// The methods without their classes.
pub fn functions_of(alloc: Global, methods: &[(ClassId, FunId)]) -> Result<Seq<FunId>, NoMem>
    ensures { IfOk result (λ fs. fs ≡ map (λ f. f.1) methods.now) }
{
    let mut fs = Seq::new(alloc);
    for method in methods {
        fs.push(method.1)?;
    }
    Ok(fs)
}

/// A call of methods, each on an instance of its class.
pub fn call_methods(
    alloc: Global,
    p: &Plan,
    s: &State,
    asks: &mut Asks,
    methods: &[(ClassId, FunId)],
    xs: &[Element],
) -> Result<(), NoMem>
    ensures { OnOk result (spec.seen asks.new ≡ spec.seen asks.old ++ rule.call_methods (spec.whole p.now) (spec.assignment s.now) methods.now (map shape xs.now)) }
{
    reach_methods(alloc, p, asks, methods, xs)?;
    let fs = functions_of(alloc, methods)?;
    tie_each(alloc, p, s, asks, true, fs.as_slice(), fs.as_slice())
}
