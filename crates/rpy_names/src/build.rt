// All parts of a program but its modules.
ghost use Rattle.std.specs.Prelude.{◌≡◌, [], IfOk, OnOk};
ghost use Rattle.rpy_names.specs.Build as spec;
ghost use Rattle.rpy_names.specs.Gives.{Gives};

use crate::clauses::clause_infos;
use crate::fault::NameFault;
use crate::tables::{Sources, class_infos, function_infos, program_sites};
use crate::tell::told;
use crate::uses::program_uses;
use names_bound::{
    ClassAt, ConstantAt, Declared, Fault, FunctionAt, Scopes, Table, all_declared, base_faults,
    clash_faults, clashing, class_bases, import_faults, lesser, without_rings,
};
use names_found::{Finder, Found, SiteAt, find_units};
use names_value::machine::narrow;
use names_value::{Checked, Values, bad_constants, constant_values};
use rpy_base::{NoMem, Seq};
use rpy_nodes::words::ENTRY_POINT;
use rpy_nodes::{Listing, Named, Names, Parameter, Unit, What, list_program};
use rpy_tree::{ClassInfo, ClauseInfo, Const, FunId, FunInfo, NodeId, Site, Use};
use std::alloc::Global;

/// All parts of a program but its modules.
#[derive(Drop)]
pub struct Parts {
    pub uses: Seq<Use>,
    pub functions: Seq<FunInfo>,
    pub classes: Seq<ClassInfo>,
    pub sites: Seq<Site>,
    pub clauses: Seq<ClauseInfo>,
    pub entry: FunId,
}

/// The entry point: the number of the function, and the node of its parameter.
#[derive(Clone, Copy, Debug, PartialEq, Eq)]
pub struct Entry {
    pub function: usize,
    pub parameter: NodeId,
}

// The one parameter, which has no star.
fn one_parameter(star: bool, parameters: &[Parameter]) -> Option<NodeId>
    ensures { result ≡ spec.one_parameter star parameters.now }
{
    if star {
        return None;
    }
    match parameters {
        [parameter] => Some(parameter.node),
        _ => None,
    }
}

fn entry_in(what: &What) -> Option<NodeId>
    ensures { result ≡ spec.entry_in what.now }
{
    match what {
        What::Def(name, parameters, star, _) => {
            if *name == ENTRY_POINT {
                one_parameter(*star, parameters.as_slice())
            } else {
                None
            }
        }
        _ => None,
    }
}

// The parameter of a function of the main module that is the entry point.
fn entry_parameter(unit: &Unit) -> Option<NodeId>
    ensures { result ≡ spec.entry_parameter unit.now }
{
    if unit.file == 0 && !unit.inside {
        entry_in(&unit.what)
    } else {
        None
    }
}

fn function_count(what: &What) -> usize
    ensures { result ≡ spec.function_count what.now }
{
    match what {
        What::Def(_, _, _, _) => 1,
        _ => 0,
    }
}

// The entry point among the members.
fn entry_of(units: &[Unit]) -> Option<Entry>
    ensures { result ≡ spec.entry_of units.now }
{
    let mut function: usize = 0;
    for unit in units {
        match entry_parameter(unit) {
            Some(parameter) => {
                return Some(Entry {
                    function,
                    parameter,
                });
            }
            None => {}
        }
        function += function_count(&unit.what);
    }
    None
}

fn entry_site(entry: Option<Entry>) -> SiteAt
    ensures { result ≡ spec.entry_site entry }
{
    match entry {
        None => SiteAt {
            node: 0,
            dict: false,
        },
        Some(entry) => SiteAt {
            node: entry.parameter,
            dict: false,
        },
    }
}

/// The names of the members, the functions, classes and constants, and the least fault so far.
#[derive(Drop)]
pub struct Bound {
    pub scopes: Scopes,
    pub functions: Seq<FunctionAt>,
    pub classes: Seq<ClassAt>,
    pub constants: Seq<ConstantAt>,
    pub fault: Option<Fault>,
}

// The names, where no class has a base yet.
fn without_bases(alloc: Global, bindings: Table, members: Table) -> Scopes
    ensures { result ≡ spec.with_bases bindings members [] }
{
    Scopes {
        bindings,
        members,
        bases: Seq::new(alloc),
    }
}

// The least fault of a binding, an import, a base or a clash.
fn bound_fault(
    alloc: Global,
    listing: &Listing,
    scopes: &Scopes,
    named: &[Option<usize>],
    classes: &[ClassAt],
    attributes: &Table,
    methods: &Table,
    fault: Option<Fault>,
) -> Result<Option<Fault>, NoMem>
    ensures { IfOk result (λ least. least ≡ spec.bound_fault listing.now scopes.now named.now classes.now attributes.now methods.now fault) }
{
    let units = listing.units.as_slice();
    let bases = scopes.bases.as_slice();
    let clashes = clashing(alloc, attributes, methods, bases)?;
    let imports = import_faults(scopes, listing.modules.as_slice(), units);
    let wrong = base_faults(scopes, named, classes, units);
    let twice = clash_faults(bases, clashes.as_slice(), classes, units);
    Ok(lesser(lesser(lesser(fault, imports), wrong), twice))
}

// Puts in the bases of the classes, and the least fault with those of the bases.
fn fill_bases(
    alloc: Global,
    listing: &Listing,
    attributes: &Table,
    methods: &Table,
    bound: &mut Bound,
) -> Result<(), NoMem>
    ensures { OnOk result (bound.new ≡ spec.filled listing.now attributes.now methods.now bound.old) }
{
    let classes = bound.classes.as_slice();
    let named = class_bases(alloc, &bound.scopes, classes, listing.units.as_slice())?;
    bound.scopes.bases = without_rings(alloc, named.as_slice())?;
    bound.fault = bound_fault(
        alloc,
        listing,
        &bound.scopes,
        named.as_slice(),
        bound.classes.as_slice(),
        attributes,
        methods,
        bound.fault,
    )?;
    Ok(())
}

fn bind_declared(alloc: Global, listing: &Listing, declared: Declared) -> Result<Bound, NoMem>
    ensures { IfOk result (λ bound. bound ≡ spec.bind_declared listing.now declared) }
{
    let Declared {
        functions,
        classes,
        constants,
        bindings,
        members,
        attributes,
        methods,
        fault,
    } = declared;
    let mut bound = Bound {
        scopes: without_bases(alloc, bindings, members),
        functions,
        classes,
        constants,
        fault,
    };
    let filled = fill_bases(alloc, listing, &attributes, &methods, &mut bound);
    drop(attributes);
    drop(methods);
    match filled {
        Ok(()) => Ok(bound),
        Err(fault) => Err(fault),
    }
}

fn bind(alloc: Global, listing: &Listing) -> Result<Bound, NoMem>
    ensures { IfOk result (λ bound. bound ≡ spec.bind listing.now) }
{
    let declared = all_declared(alloc, listing.modules.as_slice(), listing.units.as_slice())?;
    bind_declared(alloc, listing, declared)
}

fn program_classes(
    alloc: Global,
    names: &Names,
    units: &[Unit],
    bound: &Bound,
    values: &[Option<Const>],
) -> Result<Seq<ClassInfo>, NoMem>
    ensures { IfOk result (λ classes. classes ≡ spec.program_classes names.now units.now bound.now values.now) }
{
    let sources = Sources {
        names,
        units,
        values,
        constants: bound.constants.as_slice(),
        functions: bound.functions.as_slice(),
        bases: bound.scopes.bases.as_slice(),
    };
    class_infos(alloc, &sources, bound.classes.as_slice())
}

// The parts, where no fault stands.
fn parts_of(
    alloc: Global,
    listing: &Listing,
    bound: &Bound,
    found: &[Found],
    sites: &[SiteAt],
    values: &Values,
    checked: &Checked,
    entry: Entry,
) -> Result<Parts, NoMem>
    ensures { IfOk result (λ parts. parts ≡ spec.parts_of listing.now bound.now found.now sites.now values.now checked.now entry) }
{
    let units = listing.units.as_slice();
    let constants = values.constants.as_slice();
    let modules = listing.modules.len();
    if modules > u32::MAX as usize {
        return Err(NoMem);
    }
    let uses = program_uses(
        alloc,
        listing.nodes,
        constants,
        modules,
        found,
        checked.roots.as_slice(),
    )?;
    let functions = function_infos(alloc, units, found, bound.functions.as_slice())?;
    let classes = program_classes(alloc, &listing.names, units, bound, constants)?;
    let sites = program_sites(
        alloc,
        sites,
        values.prebuilt.as_slice(),
        checked.prebuilt.as_slice(),
    )?;
    let clauses = clause_infos(alloc, found)?;
    Ok(Parts {
        uses,
        functions,
        classes,
        sites,
        clauses,
        entry: narrow(entry.function),
    })
}

// The fault that is told, or the entry point.
fn judge(fault: Option<Fault>, entry: Option<Entry>) -> Result<Entry, NameFault>
    ensures { result ≡ spec.judge fault entry }
{
    match fault {
        Some(fault) => Err(told(fault)),
        None => match entry {
            None => Err(NameFault::NoEntryPoint),
            Some(entry) => Ok(entry),
        },
    }
}

fn build_checked(
    alloc: Global,
    listing: &Listing,
    bound: &Bound,
    entry: Option<Entry>,
    found: &[Found],
    finder: &Finder,
    values: &Values,
    checked: &Checked,
) -> Result<Parts, NameFault>
    ensures { Gives (spec.build_checked listing.now bound.now entry (found.now, finder.now) values.now checked.now) result }
{
    match judge(lesser(finder.fault, checked.fault), entry) {
        Err(fault) => Err(fault),
        Ok(entry) => Ok(parts_of(
            alloc,
            listing,
            bound,
            found,
            finder.sites.as_slice(),
            values,
            checked,
            entry,
        )?),
    }
}

fn build_found(
    alloc: Global,
    listing: &Listing,
    bound: &Bound,
    entry: Option<Entry>,
    found: &[Found],
    finder: &Finder,
) -> Result<Parts, NameFault>
    ensures { Gives (spec.build_found listing.now bound.now entry (found.now, finder.now)) result }
{
    let names = &listing.names;
    let constants = bound.constants.as_slice();
    let values = constant_values(alloc, names, found, constants)?;
    let checked = bad_constants(alloc, names, values.constants.as_slice(), found, constants)?;
    build_checked(
        alloc, listing, bound, entry, found, finder, &values, &checked,
    )
}

fn build_bound(
    alloc: Global,
    listing: &Listing,
    entry: Option<Entry>,
    bound: &Bound,
) -> Result<Parts, NameFault>
    ensures { Gives (spec.build_bound listing.now entry bound.now) result }
{
    let mut finder = Finder::new(alloc, entry_site(entry))?;
    finder.add_fault(bound.fault);
    let found = find_units(alloc, &mut finder, &bound.scopes, listing.units.as_slice())?;
    build_found(alloc, listing, bound, entry, found.as_slice(), &finder)
}

fn build_listing(alloc: Global, listing: &Listing) -> Result<Parts, NameFault>
    ensures { Gives (spec.build_listing listing.now) result }
{
    let bound = bind(alloc, listing)?;
    build_bound(alloc, listing, entry_of(listing.units.as_slice()), &bound)
}

/// The parts of a program, or the fault of a name.
pub fn build(alloc: Global, modules: &[Named]) -> Result<Parts, NameFault>
    ensures { Gives (spec.build modules.now) result }
{
    let listing = list_program(alloc, modules)?;
    build_listing(alloc, &listing)
}
