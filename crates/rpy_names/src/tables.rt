// The functions, classes and sites of a program.
ghost use Rattle.std.specs.Prelude.{◌≡◌, [], IfOk, OnOk};
ghost use Rattle.rpy_names.specs.Tables as spec;

use names_bound::base::node_of;
use names_bound::scopes::base_in;
use names_bound::{ClassAt, ConstantAt, FunctionAt};
use names_found::{Found, SiteAt};
use names_value::machine::narrow;
use names_value::{Prebuilt, copy_const, copy_pairs};
use rpy_base::{NoMem, Seq, Text};
use rpy_nodes::{NameId, Names, Unit, What};
use rpy_tree::{ClassInfo, Const, FunId, FunInfo, Site};
use std::alloc::Global;

fn locals_of(found: &[Found], unit: usize) -> usize
    ensures { result ≡ spec.locals_of found.now unit }
{
    match found.get(unit) {
        None => 0,
        Some(found) => found.locals,
    }
}

fn narrow_option(number: Option<usize>) -> Option<u32>
    ensures { result ≡ spec.narrow_option number }
{
    match number {
        None => None,
        Some(number) => Some(narrow(number)),
    }
}

fn file_of(units: &[Unit], unit: usize) -> usize
    ensures { result ≡ spec.file_of units.now unit }
{
    match units.get(unit) {
        None => 0,
        Some(unit) => unit.file,
    }
}

fn function_info(units: &[Unit], found: &[Found], at: &FunctionAt) -> FunInfo
    ensures { result ≡ spec.function_info units.now found.now at.now }
{
    FunInfo {
        node: node_of(units, at.unit),
        file: narrow(file_of(units, at.unit)),
        class: narrow_option(at.class),
        locals: narrow(locals_of(found, at.unit)),
    }
}

/// The functions, by number.
pub fn function_infos(
    alloc: Global,
    units: &[Unit],
    found: &[Found],
    functions: &[FunctionAt],
) -> Result<Seq<FunInfo>, NoMem>
    ensures { IfOk result (λ infos. infos ≡ spec.function_infos units.now found.now functions.now) }
{
    let mut infos = Seq::new(alloc);
    for at in functions {
        infos.push(function_info(units, found, at))?;
    }
    Ok(infos)
}

fn name_in(what: &What) -> NameId
    ensures { result ≡ spec.name_in what.now }
{
    match what {
        What::Constant(name, _) => *name,
        What::Def(name, _, _, _) => *name,
        _ => 0,
    }
}

// The name of a member.
fn name_of(units: &[Unit], unit: usize) -> NameId
    ensures { result ≡ spec.name_of units.now unit }
{
    match units.get(unit) {
        None => 0,
        Some(unit) => name_in(&unit.what),
    }
}

fn text_of(alloc: Global, names: &Names, name: NameId) -> Result<Text, NoMem>
    ensures { IfOk result (λ text. text ≡ spec.text_of names.now name) }
{
    match names.text(name) {
        None => Ok(Text::new(alloc)),
        Some(text) => text.copy(alloc),
    }
}

fn value_of(alloc: Global, values: &[Option<Const>], number: usize) -> Result<Const, NoMem>
    ensures { IfOk result (λ value. value ≡ spec.value_of values.now number) }
{
    match values.get(number) {
        Some(Some(value)) => copy_const(alloc, value),
        _ => Ok(Const::None),
    }
}

fn is_of(class: Option<usize>, number: usize) -> bool
    ensures { result ≡ spec.is_of class number }
{
    match class {
        None => false,
        Some(class) => class == number,
    }
}

fn constant_pair(
    alloc: Global,
    names: &Names,
    units: &[Unit],
    values: &[Option<Const>],
    number: usize,
    at: &ConstantAt,
) -> Result<(Text, Const), NoMem>
    ensures { IfOk result (λ pair. pair ≡ spec.constant_pair names.now units.now values.now number at.now) }
{
    let name = text_of(alloc, names, name_of(units, at.unit))?;
    Ok((name, value_of(alloc, values, number)?))
}

// The constants of a class, which follow one another from this number on.
fn class_constants(
    alloc: Global,
    names: &Names,
    units: &[Unit],
    values: &[Option<Const>],
    constants: &[ConstantAt],
    first: usize,
    class: usize,
) -> Result<Seq<(Text, Const)>, NoMem>
    ensures { IfOk result (λ all. all ≡ spec.class_constants names.now units.now values.now constants.now first class) }
{
    let mut all = Seq::new(alloc);
    for number in first..constants.len() {
        let at = &constants[number];
        if !is_of(at.class, class) {
            return Ok(all);
        }
        all.push(constant_pair(alloc, names, units, values, number, at)?)?;
    }
    Ok(all)
}

fn method_pair(
    alloc: Global,
    names: &Names,
    units: &[Unit],
    number: usize,
    at: &FunctionAt,
) -> Result<(Text, FunId), NoMem>
    ensures { IfOk result (λ pair. pair ≡ spec.method_pair names.now units.now number at.now) }
{
    let name = text_of(alloc, names, name_of(units, at.unit))?;
    Ok((name, narrow(number)))
}

// The methods of a class, which follow one another from this number on.
fn class_methods(
    alloc: Global,
    names: &Names,
    units: &[Unit],
    functions: &[FunctionAt],
    first: usize,
    class: usize,
) -> Result<Seq<(Text, FunId)>, NoMem>
    ensures { IfOk result (λ all. all ≡ spec.class_methods names.now units.now functions.now first class) }
{
    let mut all = Seq::new(alloc);
    for number in first..functions.len() {
        let at = &functions[number];
        if !is_of(at.class, class) {
            return Ok(all);
        }
        all.push(method_pair(alloc, names, units, number, at)?)?;
    }
    Ok(all)
}

// A builtin class.
fn builtin_info(alloc: Global, base: Option<usize>) -> ClassInfo
    ensures { result ≡ spec.builtin_info base }
{
    ClassInfo {
        node: 0,
        file: 0,
        base: narrow_option(base),
        constants: Seq::new(alloc),
        methods: Seq::new(alloc),
    }
}

/// What the table of classes is made of.
#[derive(Drop)]
pub struct Sources<'a> {
    pub names: &'a Names,
    pub units: &'a [Unit],
    pub values: &'a [Option<Const>],
    pub constants: &'a [ConstantAt],
    pub functions: &'a [FunctionAt],
    pub bases: &'a [Option<usize>],
}

fn class_info(
    alloc: Global,
    of: &Sources<'_>,
    class: usize,
    at: &ClassAt,
) -> Result<ClassInfo, NoMem>
    ensures { IfOk result (λ info. info ≡ spec.class_info of.now.names.now of.now.units.now of.now.values.now of.now.constants.now of.now.functions.now of.now.bases.now class at.now) }
{
    let constants = class_constants(
        alloc,
        of.names,
        of.units,
        of.values,
        of.constants,
        at.constant,
        class,
    )?;
    let methods = class_methods(alloc, of.names, of.units, of.functions, at.function, class)?;
    Ok(ClassInfo {
        node: node_of(of.units, at.unit),
        file: narrow(at.file),
        base: narrow_option(base_in(of.bases, class)),
        constants,
        methods,
    })
}

fn builtin_infos(alloc: Global, bases: &[Option<usize>]) -> Result<Seq<ClassInfo>, NoMem>
    ensures { IfOk result (λ infos. infos ≡ spec.builtins_to bases.now 13) }
{
    let mut infos = Seq::new(alloc);
    for class in 0..13 {
        infos.push(builtin_info(alloc, base_in(bases, class)))?;
    }
    Ok(infos)
}

/// The builtin exception classes, then the others.
pub fn class_infos(
    alloc: Global,
    of: &Sources<'_>,
    classes: &[ClassAt],
) -> Result<Seq<ClassInfo>, NoMem>
    ensures { IfOk result (λ infos. infos ≡ spec.class_infos of.now.names.now of.now.units.now of.now.values.now of.now.constants.now of.now.functions.now of.now.bases.now classes.now) }
{
    let mut infos = builtin_infos(alloc, of.bases)?;
    for (place, at) in classes.iter().enumerate() {
        infos.push(class_info(alloc, of, place + 13, at)?)?;
    }
    Ok(infos)
}

fn bare_sites(alloc: Global, sites: &[SiteAt]) -> Result<Seq<Site>, NoMem>
    ensures { IfOk result (λ all. all ≡ spec.bare_onto [] sites.now) }
{
    let mut all = Seq::new(alloc);
    for site in sites {
        all.push(Site {
            node: site.node,
            dict: site.dict,
            prebuilt: None,
        })?;
    }
    Ok(all)
}

fn fill_at(all: &mut Seq<Site>, site: usize, pairs: Seq<(Const, Const)>, at: &SiteAt)
    ensures { all.new ≡ spec.fill_site site pairs at.now all.old }
{
    if site < all.len() {
        all.set(
            site,
            Site {
                node: at.node,
                dict: at.dict,
                prebuilt: Some(pairs),
            },
        );
    }
}

// A list or dict that is made before the run is put at its site.
fn fill(
    alloc: Global,
    all: &mut Seq<Site>,
    sites: &[SiteAt],
    prebuilt: &Prebuilt,
) -> Result<(), NoMem>
    ensures { OnOk result (all.new ≡ spec.fill sites.now prebuilt.now all.old) }
{
    let pairs = copy_pairs(alloc, prebuilt.pairs.as_slice())?;
    match sites.get(prebuilt.site) {
        None => {}
        Some(at) => fill_at(all, prebuilt.site, pairs, at),
    }
    Ok(())
}

fn fill_all(
    alloc: Global,
    all: &mut Seq<Site>,
    sites: &[SiteAt],
    prebuilt: &[Prebuilt],
) -> Result<(), NoMem>
    ensures { OnOk result (all.new ≡ spec.fill_all sites.now prebuilt.now all.old) }
{
    for one in prebuilt {
        fill(alloc, all, sites, one)?;
    }
    Ok(())
}

/// The sites, with what is made before the run.
pub fn program_sites(
    alloc: Global,
    sites: &[SiteAt],
    prebuilt: &[Prebuilt],
    more: &[Prebuilt],
) -> Result<Seq<Site>, NoMem>
    ensures { IfOk result (λ all. all ≡ spec.program_sites sites.now prebuilt.now more.now) }
{
    let mut all = bare_sites(alloc, sites)?;
    fill_all(alloc, &mut all, sites, prebuilt)?;
    fill_all(alloc, &mut all, sites, more)?;
    Ok(all)
}
