// What imports bind.
ghost use Rattle.std.specs.Prelude.{◌≡◌};
ghost use Rattle.names_bound.specs.Imports as spec;

use crate::fault::{Fault, FaultKind, lesser};
use crate::scopes::Scopes;
use crate::stand::Stand;
use crate::table::Bound;
use rpy_nodes::words::{INTMASK, OS, OVFCHECK, RARITHMETIC, RLIB, RPYTHON, SYS};
use rpy_nodes::{NameId, Unit, What};
use rpy_tree::{Builtin, NodeId};

/// Where names are taken from: a given module, the library of arithmetic, or nowhere.
#[derive(Clone, Copy, Debug, PartialEq, Eq)]
pub enum Source {
    Module(usize),
    Arithmetic,
    Missing,
}

/// The place of the module of a name.
pub fn file_of(modules: &[NameId], name: NameId) -> Option<usize>
    ensures { result ≡ spec.file_of modules.now name }
{
    for (file, module_name) in modules.iter().enumerate() {
        if *module_name == name {
            return Some(file);
        }
    }
    None
}

fn module_source(modules: &[NameId], name: NameId) -> Source
    ensures { result ≡ spec.module_source modules.now name }
{
    match file_of(modules, name) {
        None => Source::Missing,
        Some(file) => Source::Module(file),
    }
}

/// Where `from` takes names from.
pub fn source_of(modules: &[NameId], path: &[NameId]) -> Source
    ensures { result ≡ spec.source_of modules.now path.now }
{
    match path {
        [name] => module_source(modules, *name),
        [a, b, c] => {
            if *a == RPYTHON && *b == RLIB && *c == RARITHMETIC {
                Source::Arithmetic
            } else {
                Source::Missing
            }
        }
        _ => Source::Missing,
    }
}

fn arithmetic(name: NameId) -> Stand
    ensures { result ≡ spec.arithmetic name }
{
    if name == OVFCHECK {
        Stand::Builtin(Builtin::Ovfcheck)
    } else if name == INTMASK {
        Stand::Builtin(Builtin::Intmask)
    } else {
        Stand::Missing
    }
}

/// What `from` binds a name to.
pub fn from_bound(source: Source, name: NameId) -> Bound
    ensures { result ≡ spec.from_bound source name }
{
    match source {
        Source::Module(file) => Bound::From(file, name),
        Source::Arithmetic => Bound::Is(arithmetic(name)),
        Source::Missing => Bound::Is(Stand::Missing),
    }
}

/// What `import` binds a name to.
pub fn import_stand(modules: &[NameId], name: NameId) -> Stand
    ensures { result ≡ spec.import_stand modules.now name }
{
    if name == OS {
        return Stand::Os;
    }
    if name == SYS {
        return Stand::Sys;
    }
    match file_of(modules, name) {
        None => Stand::Missing,
        Some(file) => Stand::Module(file),
    }
}

fn import_fault(modules: &[NameId], names: &[NameId], node: NodeId) -> Option<Fault>
    ensures { result ≡ spec.import_fault modules.now names.now node }
{
    for name in names {
        if import_stand(modules, *name) == Stand::Missing {
            return Some(Fault {
                node,
                kind: FaultKind::NoModule,
            });
        }
    }
    None
}

// Whether what names are taken from lacks a name.
fn lacks(scopes: &Scopes, source: Source, name: NameId) -> bool
    ensures { result ≡ spec.lacks scopes.now source name }
{
    match source {
        Source::Module(file) => scopes.follow(file, name) == Stand::Unknown,
        Source::Arithmetic => arithmetic(name) == Stand::Missing,
        Source::Missing => false,
    }
}

fn from_fault(scopes: &Scopes, source: Source, names: &[NameId], node: NodeId) -> Option<Fault>
    ensures { result ≡ spec.from_fault scopes.now source names.now node }
{
    if source == Source::Missing {
        return Some(Fault {
            node,
            kind: FaultKind::NoModule,
        });
    }
    for name in names {
        if lacks(scopes, source, *name) {
            return Some(Fault {
                node,
                kind: FaultKind::Unknown,
            });
        }
    }
    None
}

fn unit_fault(scopes: &Scopes, modules: &[NameId], unit: &Unit) -> Option<Fault>
    ensures { result ≡ spec.unit_fault scopes.now modules.now unit.now }
{
    match &unit.what {
        What::Import(names) => import_fault(modules, names.as_slice(), unit.node),
        What::From(path, names) => {
            let source = source_of(modules, path.as_slice());
            from_fault(scopes, source, names.as_slice(), unit.node)
        }
        _ => None,
    }
}

/// The least fault of an import.
pub fn import_faults(scopes: &Scopes, modules: &[NameId], units: &[Unit]) -> Option<Fault>
    ensures { result ≡ spec.faults scopes.now modules.now units.now }
{
    let mut least = None;
    for unit in units {
        least = lesser(least, unit_fault(scopes, modules, unit));
    }
    least
}
