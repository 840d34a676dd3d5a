// The further parts that a row speaks of: items, attributes and results.
ghost use Rattle.std.specs.Prelude.{◌≡◌, ◌∷◌, [], map, IfOk};
ghost use Rattle.ann_lattice.specs.Shape.{shape};
ghost use Rattle.ann_rules.specs.Asks as rule;
ghost use Rattle.ann_needs.specs.View as spec;

use crate::call::{functions_of, methods_of};
use crate::held::items_of;
use crate::plan::Plan;
use crate::state::State;
use ann_element::Element;
use rpy_base::{NoMem, Seq, Text};
use rpy_meaning::RowOp;
use rpy_tree::{ClassId, CmpOp, FunId, SiteId};
use std::alloc::Global;

fn items_at(alloc: Global, p: &Plan, s: &State, site: SiteId) -> Result<Seq<Element>, NoMem>
    ensures { IfOk result (λ parts. map shape parts ≡ rule.items_of (spec.whole p.now) (spec.assignment s.now) site ∷ []) }
{
    let mut parts = Seq::new(alloc);
    parts.push(items_of(alloc, p, s, site)?)?;
    Ok(parts)
}

fn held(alloc: Global, p: &Plan, s: &State, x: &Element) -> Result<Seq<Element>, NoMem>
    ensures { IfOk result (λ parts. map shape parts ≡ rule.held (spec.whole p.now) (spec.assignment s.now) (shape x.now)) }
{
    match x {
        Element::List(site, _) => items_at(alloc, p, s, *site),
        Element::Dict(site, _) => items_at(alloc, p, s, *site),
        _ => Ok(Seq::new(alloc)),
    }
}

fn first_held(alloc: Global, p: &Plan, s: &State, xs: &[Element]) -> Result<Seq<Element>, NoMem>
    ensures { IfOk result (λ parts. map shape parts ≡ rule.first_held (spec.whole p.now) (spec.assignment s.now) (map shape xs.now)) }
{
    match xs {
        [] => Ok(Seq::new(alloc)),
        [x, _others @ ..] => held(alloc, p, s, x),
    }
}

fn second_held(alloc: Global, p: &Plan, s: &State, xs: &[Element]) -> Result<Seq<Element>, NoMem>
    ensures { IfOk result (λ parts. map shape parts ≡ rule.second_held (spec.whole p.now) (spec.assignment s.now) (map shape xs.now)) }
{
    match xs {
        [] => Ok(Seq::new(alloc)),
        [_, others @ ..] => first_held(alloc, p, s, others),
    }
}

fn compare_parts(
    alloc: Global,
    p: &Plan,
    s: &State,
    op: CmpOp,
    xs: &[Element],
) -> Result<Seq<Element>, NoMem>
    ensures { IfOk result (λ parts. map shape parts ≡ rule.compare_parts (spec.whole p.now) (spec.assignment s.now) op (map shape xs.now)) }
{
    match op {
        CmpOp::Within => second_held(alloc, p, s, xs),
        CmpOp::NotWithin => second_held(alloc, p, s, xs),
        _ => Ok(Seq::new(alloc)),
    }
}

fn attribute_at(
    alloc: Global,
    p: &Plan,
    s: &State,
    home: Option<ClassId>,
    name: &Text,
) -> Result<Seq<Element>, NoMem>
    ensures { IfOk result (λ parts. map shape parts ≡ rule.attribute_at (spec.whole p.now) (spec.assignment s.now) home name.now) }
{
    match home {
        None => Ok(Seq::new(alloc)),
        Some(home) => {
            let mut parts = Seq::new(alloc);
            parts.push(s.element(alloc, p.attribute(home, name))?)?;
            Ok(parts)
        }
    }
}

fn first_attribute(
    alloc: Global,
    p: &Plan,
    s: &State,
    name: &Text,
    xs: &[Element],
) -> Result<Seq<Element>, NoMem>
    ensures { IfOk result (λ parts. map shape parts ≡ rule.first_attribute (spec.whole p.now) (spec.assignment s.now) name.now (map shape xs.now)) }
{
    match xs {
        [Element::Instance(class, _), _others @ ..] => {
            attribute_at(alloc, p, s, p.classes.home(*class, name), name)
        }
        _ => Ok(Seq::new(alloc)),
    }
}

fn results(alloc: Global, p: &Plan, s: &State, fs: &[FunId]) -> Result<Seq<Element>, NoMem>
    ensures { IfOk result (λ parts. map shape parts ≡ rule.results (spec.whole p.now) (spec.assignment s.now) fs.now) }
{
    let mut parts = Seq::new(alloc);
    for f in fs {
        parts.push(s.element(alloc, p.result(*f))?)?;
    }
    Ok(parts)
}

fn first_results(alloc: Global, p: &Plan, s: &State, xs: &[Element]) -> Result<Seq<Element>, NoMem>
    ensures { IfOk result (λ parts. map shape parts ≡ rule.first_results (spec.whole p.now) (spec.assignment s.now) (map shape xs.now)) }
{
    match xs {
        [Element::Func(fs, _), _others @ ..] => results(alloc, p, s, fs.as_slice()),
        _ => Ok(Seq::new(alloc)),
    }
}

fn method_results(
    alloc: Global,
    p: &Plan,
    s: &State,
    class: ClassId,
    name: &Text,
) -> Result<Seq<Element>, NoMem>
    ensures { IfOk result (λ parts. map shape parts ≡ rule.results (spec.whole p.now) (spec.assignment s.now) (map (λ f. f.1) (rule.methods (spec.whole p.now) (spec.assignment s.now) class name.now))) }
{
    let methods = methods_of(alloc, p, s, class, name)?;
    let fs = functions_of(alloc, methods.as_slice())?;
    results(alloc, p, s, fs.as_slice())
}

fn method_parts(
    alloc: Global,
    p: &Plan,
    s: &State,
    name: &Text,
    xs: &[Element],
) -> Result<Seq<Element>, NoMem>
    ensures { IfOk result (λ parts. map shape parts ≡ rule.method_parts (spec.whole p.now) (spec.assignment s.now) name.now (map shape xs.now)) }
{
    match xs {
        [Element::Instance(class, _), _others @ ..] => method_results(alloc, p, s, *class, name),
        [Element::List(site, _), _others @ ..] => items_at(alloc, p, s, *site),
        [Element::Dict(site, _), _others @ ..] => items_at(alloc, p, s, *site),
        [Element::Char, others @ ..] => first_held(alloc, p, s, others),
        [Element::Str, others @ ..] => first_held(alloc, p, s, others),
        [Element::StrOrNone, others @ ..] => first_held(alloc, p, s, others),
        _ => Ok(Seq::new(alloc)),
    }
}

/// The further parts that the row of an operation speaks of.
pub fn parts_of(
    alloc: Global,
    p: &Plan,
    s: &State,
    op: &RowOp,
    xs: &[Element],
) -> Result<Seq<Element>, NoMem>
    ensures { IfOk result (λ parts. map shape parts ≡ rule.parts (spec.whole p.now) (spec.assignment s.now) op.now (map shape xs.now)) }
{
    match op {
        RowOp::Index(_) => first_held(alloc, p, s, xs),
        RowOp::Item(None) => first_held(alloc, p, s, xs),
        RowOp::Compare(op) => compare_parts(alloc, p, s, *op, xs),
        RowOp::Attr(name) => first_attribute(alloc, p, s, name, xs),
        RowOp::Call(f) => results(alloc, p, s, &[*f]),
        RowOp::CallOf(_, f) => results(alloc, p, s, &[*f]),
        RowOp::CallValue => first_results(alloc, p, s, xs),
        RowOp::Method(name, _) => method_parts(alloc, p, s, name, xs),
        _ => Ok(Seq::new(alloc)),
    }
}
