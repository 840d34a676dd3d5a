// Defaults, classes and sites of programs.
ghost use Rattle.std.specs.Prelude.{◌≡◌, ◌++◌, map, option_map, slice_get, IfOk, OnOk};
ghost use Rattle.rpy_tree.specs.declared.syntax.Param.{Param as OfParam};
ghost use Rattle.rpy_meaning.specs.Resolved as meaning;
ghost use Rattle.resolved_meaning.specs.Programs.{value_in, class_of};
ghost use Rattle.resolver_names.specs.Told.{Knows, the_names};
ghost use Rattle.resolver_names.specs.Forms.{default_in};
ghost use Rattle.resolver_laws.specs.Listing.{class_with, named_from};

use resolver_names::{Names, node_of};
use rpy_base::{NoMem, Seq, Text};
use rpy_copies::{copy_const, copy_pairs};
use rpy_resolved::Class;
use rpy_tree::{ClassInfo, Const, FunId, Param, Program, Site, Use};
use std::alloc::Global;

fn constant_in(alloc: Global, of: &Use) -> Result<Const, NoMem>
    ensures { IfOk result (λ value. value ≡ default_in of.now) }
{
    match of {
        Use::Value(value) => copy_const(alloc, value),
        _ => Ok(Const::None),
    }
}

#[tactic(auto, using(crate::proofs::Listed::default_made))]
fn default_of(alloc: Global, names: &Names<'_>, param: &Param) -> Result<Option<Const>, NoMem>
    requires { Knows names.now }
    ensures { IfOk result (λ made. option_map (value_in names.now.program.now.sites) made ≡ meaning.default_of (the_names names.now) param.now.default) }
{
    match &param.default {
        None => Ok(None),
        Some(e) => Ok(Some(constant_in(alloc, names.meant(node_of(e)))?)),
    }
}

/// The defaults of a function's parameters.
pub fn defaults_of(
    alloc: Global,
    names: &Names<'_>,
    params: &[Param],
) -> Result<Seq<Option<Const>>, NoMem>
    requires { Knows names.now }
    ensures { IfOk result (λ made. map (option_map (value_in names.now.program.now.sites)) made ≡ map (λ (p : OfParam). meaning.default_of (the_names names.now) p.default) params.now) }
{
    let mut defaults = Seq::new(alloc);
    for param in params {
        let default = default_of(alloc, names, param)?;
        defaults.push(default)?;
    }
    Ok(defaults)
}

fn copy_constants(alloc: Global, constants: &[(Text, Const)]) -> Result<Seq<(Text, Const)>, NoMem>
    ensures { IfOk result (λ copies. copies ≡ constants.now) }
{
    let mut copies = Seq::new(alloc);
    for constant in constants {
        let name = constant.0.copy(alloc)?;
        let value = copy_const(alloc, &constant.1)?;
        copies.push((name, value))?;
    }
    Ok(copies)
}

fn copy_methods(alloc: Global, methods: &[(Text, FunId)]) -> Result<Seq<(Text, FunId)>, NoMem>
    ensures { IfOk result (λ copies. copies ≡ methods.now) }
{
    let mut copies = Seq::new(alloc);
    for method in methods {
        let name = method.0.copy(alloc)?;
        copies.push((name, method.1))?;
    }
    Ok(copies)
}

fn class_by(alloc: Global, name: &Text, info: &ClassInfo) -> Result<Class, NoMem>
    ensures name { IfOk result (λ class. class.name ≡ name.now) }
    ensures base { IfOk result (λ class. class.base ≡ info.now.base) }
    ensures constants { IfOk result (λ class. class.constants ≡ info.now.constants) }
    ensures methods { IfOk result (λ class. class.methods ≡ info.now.methods) }
{
    Ok(Class {
        node: info.node,
        name: name.copy(alloc)?,
        base: info.base,
        constants: copy_constants(alloc, info.constants.as_slice())?,
        methods: copy_methods(alloc, info.methods.as_slice())?,
    })
}

// The class of this number, after those before it: one without a name is none of the program's.
#[tactic(auto, using(crate::proofs::Listed::class_made, crate::proofs::Listed::no_class))]
fn add_class(
    alloc: Global,
    program: &Program,
    labels: &[Text],
    number: usize,
    info: &ClassInfo,
    classes: &mut Seq<Class>,
) -> Result<(), NoMem>
    ensures { OnOk result (map (class_of program.now.sites) classes.new ≡ map (class_of program.now.sites) classes.old ++ class_with program.now (slice_get labels.now number) info.now) }
{
    match labels.get(number) {
        None => Ok(()),
        Some(name) => {
            let class = class_by(alloc, name, info)?;
            classes.push(class)
        }
    }
}

/// The classes of a program, with their labels.
pub fn classes_of(alloc: Global, program: &Program, labels: &[Text]) -> Result<Seq<Class>, NoMem>
    ensures { IfOk result (λ classes. map (class_of program.now.sites) classes ≡ named_from program.now labels.now 0 program.now.classes) }
{
    let mut classes = Seq::new(alloc);
    for (number, info) in program.classes.as_slice().iter().enumerate() {
        add_class(alloc, program, labels, number, info, &mut classes)?;
    }
    Ok(classes)
}

fn copy_site(alloc: Global, site: &Site) -> Result<Site, NoMem>
    ensures { IfOk result (λ copy. copy ≡ site.now) }
{
    let prebuilt = match &site.prebuilt {
        None => None,
        Some(pairs) => Some(copy_pairs(alloc, pairs.as_slice())?),
    };
    Ok(Site {
        node: site.node,
        dict: site.dict,
        prebuilt,
    })
}

/// The sites of a program.
pub fn copy_sites(alloc: Global, sites: &[Site]) -> Result<Seq<Site>, NoMem>
    ensures { IfOk result (λ copies. copies ≡ sites.now) }
{
    let mut copies = Seq::new(alloc);
    for site in sites {
        let site = copy_site(alloc, site)?;
        copies.push(site)?;
    }
    Ok(copies)
}
