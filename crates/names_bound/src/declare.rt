// What the members of modules and classes bind, in the order of the text.
ghost use Rattle.std.specs.Prelude.{◌≡◌, OnOk, IfOk, length};
ghost use Rattle.names_bound.specs.Declare as spec;

use crate::fault::{Fault, FaultKind, fault_if, lesser};
use crate::imports::{Source, from_bound, import_stand, source_of};
use crate::known::is_fixed;
use crate::stand::Stand;
use crate::table::{Binding, Bound, Table};
use rpy_base::{NoMem, Seq};
use rpy_nodes::{Act, Event, NameId, Parameter, Unit, What};
use rpy_tree::NodeId;
use std::alloc::Global;

/// How many exception classes are builtin. They have the first numbers.
pub const BUILTIN_CLASSES: usize = 13;

/// Where a constant stands: its unit, and its class where it is a class's.
#[derive(Clone, Copy, Debug, PartialEq, Eq)]
pub struct ConstantAt {
    pub unit: usize,
    pub class: Option<usize>,
}

/// Where a function stands.
#[derive(Clone, Copy, Debug, PartialEq, Eq)]
pub struct FunctionAt {
    pub unit: usize,
    pub class: Option<usize>,
}

/// Where a class stands: its unit, its file and its place in the module; and the numbers of the first
/// constant and the first function that its body can have.
#[derive(Clone, Copy, Debug, PartialEq, Eq)]
pub struct ClassAt {
    pub unit: usize,
    pub file: usize,
    pub place: usize,
    pub constant: usize,
    pub function: usize,
}

/// The functions, classes and constants by number, the tables of names, the attributes and the
/// methods that each class declares, and the least fault of a binding.
#[derive(Drop)]
pub struct Declared {
    pub functions: Seq<FunctionAt>,
    pub classes: Seq<ClassAt>,
    pub constants: Seq<ConstantAt>,
    pub bindings: Table,
    pub members: Table,
    pub attributes: Table,
    pub methods: Table,
    pub fault: Option<Fault>,
}

/// Where a member stands: its unit, file and place, its node, and its class where it is a class's.
#[derive(Clone, Copy, Debug, PartialEq, Eq)]
pub struct Spot {
    pub unit: usize,
    pub file: usize,
    pub place: usize,
    pub node: NodeId,
    pub class: Option<usize>,
}

// A name may not be bound that is bound already, nor one of a fixed value.
fn twice(fresh: bool, name: NameId, node: NodeId) -> Option<Fault>
    ensures { result ≡ spec.twice fresh name node }
{
    fault_if(!fresh || is_fixed(name), node, FaultKind::Twice)
}

impl Declared {
    // A name of a module is bound.
    fn bind_name(&mut self, at: Spot, name: NameId, bound: Bound) -> Result<(), NoMem>
        ensures { OnOk result (self.new ≡ spec.bind_name at name bound self.old) }
    {
        let binding = Binding {
            place: at.place,
            bound,
        };
        let fresh = self.bindings.bind(at.file, name, binding)?;
        self.fault = lesser(self.fault, twice(fresh, name, at.node));
        Ok(())
    }

    // A name of a class body is bound.
    fn bind_member(
        &mut self,
        at: Spot,
        class: usize,
        name: NameId,
        stand: Stand,
    ) -> Result<(), NoMem>
        ensures { OnOk result (self.new ≡ spec.bind_member at class name stand self.old) }
    {
        let binding = Binding {
            place: at.place,
            bound: Bound::Is(stand),
        };
        let fresh = self.members.bind(class, name, binding)?;
        self.fault = lesser(self.fault, twice(fresh, name, at.node));
        Ok(())
    }

    // A name is bound where its member stands.
    fn bind(&mut self, at: Spot, name: NameId, stand: Stand) -> Result<(), NoMem>
        ensures { OnOk result (self.new ≡ spec.bind_at at name stand self.old) }
    {
        match at.class {
            None => self.bind_name(at, name, Bound::Is(stand)),
            Some(class) => self.bind_member(at, class, name, stand),
        }
    }

    // An attribute is declared by the class of a member.
    fn declare_attribute(&mut self, at: Spot, name: NameId) -> Result<(), NoMem>
        ensures { OnOk result (self.new ≡ spec.declare_attribute at name self.old) }
    {
        match at.class {
            None => Ok(()),
            Some(class) => { declare(&mut self.attributes, class, name) }
        }
    }

    fn declare_method(&mut self, at: Spot, name: NameId) -> Result<(), NoMem>
        ensures { OnOk result (self.new ≡ spec.declare_method at name self.old) }
    {
        match at.class {
            None => Ok(()),
            Some(class) => declare(&mut self.methods, class, name),
        }
    }

    // Attributes of the first parameter that the events of a body bind.
    fn declare_stores(&mut self, at: Spot, first: NameId, events: &[Event]) -> Result<(), NoMem>
        ensures { OnOk result (self.new ≡ spec.declare_stores at first events.now self.old) }
    {
        let mut last = None;
        for event in events {
            match stored(first, last, event.act) {
                None => {}
                Some(name) => self.declare_attribute(at, name)?,
            }
            last = name_in(event.act);
        }
        Ok(())
    }

    fn declare_self(
        &mut self,
        at: Spot,
        parameters: &[Parameter],
        body: &[Event],
    ) -> Result<(), NoMem>
        ensures { OnOk result (self.new ≡ spec.declare_self at parameters.now body.now self.old) }
    {
        match parameters {
            [] => Ok(()),
            [first, ..] => self.declare_stores(at, first.name, body),
        }
    }

    fn add_constant(&mut self, at: Spot, name: NameId) -> Result<(), NoMem>
        ensures { OnOk result (self.new ≡ spec.add_constant at name self.old) }
    {
        let number = self.constants.len();
        self.constants.push(ConstantAt {
            unit: at.unit,
            class: at.class,
        })?;
        self.bind(at, name, Stand::Constant(number))?;
        self.declare_attribute(at, name)
    }

    fn add_function(
        &mut self,
        at: Spot,
        name: NameId,
        parameters: &[Parameter],
        body: &[Event],
    ) -> Result<(), NoMem>
        ensures { OnOk result (self.new ≡ spec.add_function at name parameters.now body.now self.old) }
    {
        let number = self.functions.len();
        self.functions.push(FunctionAt {
            unit: at.unit,
            class: at.class,
        })?;
        self.bind(at, name, function_stand(at.class, number))?;
        self.declare_method(at, name)?;
        self.declare_self(at, parameters, body)
    }

    fn add_class(&mut self, at: Spot, name: NameId) -> Result<(), NoMem>
        ensures { OnOk result (self.new ≡ spec.add_class at name self.old) }
    {
        let Some(number) = self.classes.len().checked_add(BUILTIN_CLASSES) else {
            return Err(NoMem);
        };
        self.classes.push(ClassAt {
            unit: at.unit,
            file: at.file,
            place: at.place,
            constant: self.constants.len(),
            function: self.functions.len(),
        })?;
        self.bind(at, name, Stand::Class(number))
    }

    fn add_imports(&mut self, at: Spot, modules: &[NameId], names: &[NameId]) -> Result<(), NoMem>
        ensures { OnOk result (self.new ≡ spec.add_imports at modules.now names.now self.old) }
    {
        for name in names {
            self.bind_name(at, *name, Bound::Is(import_stand(modules, *name)))?;
        }
        Ok(())
    }

    fn add_taken(&mut self, at: Spot, source: Source, names: &[NameId]) -> Result<(), NoMem>
        ensures { OnOk result (self.new ≡ spec.add_taken at source names.now self.old) }
    {
        for name in names {
            self.bind_name(at, *name, from_bound(source, *name))?;
        }
        Ok(())
    }

    fn add(&mut self, at: Spot, modules: &[NameId], what: &What) -> Result<(), NoMem>
        ensures { OnOk result (self.new ≡ spec.add at modules.now what.now self.old) }
    {
        match what {
            What::Import(names) => self.add_imports(at, modules, names.as_slice()),
            What::From(path, names) => {
                let source = source_of(modules, path.as_slice());
                self.add_taken(at, source, names.as_slice())
            }
            What::Constant(name, _) => self.add_constant(at, *name),
            What::Def(name, parameters, _, body) => {
                self.add_function(at, *name, parameters.as_slice(), body.as_slice())
            }
            What::Class(name, _) => self.add_class(at, *name),
        }
    }
}

impl Declared {
    fn add_unit(&mut self, modules: &[NameId], unit: usize, of: &Unit) -> Result<(), NoMem>
        ensures { OnOk result (self.new ≡ spec.add_unit modules.now unit of.now self.old) }
    {
        let at = spot_of(unit, of, self.classes.len());
        self.add(at, modules, &of.what)
    }
}

// A class declares a name.
fn declare(table: &mut Table, class: usize, name: NameId) -> Result<(), NoMem>
    ensures { OnOk result (table.new ≡ spec.declare class name table.old) }
{
    let binding = Binding {
        place: 0,
        bound: Bound::Is(Stand::Nothing),
    };
    table.bind(class, name, binding)?;
    Ok(())
}

// The attribute that an event binds of a name.
fn stored(first: NameId, last: Option<NameId>, act: Act) -> Option<NameId>
    ensures { result ≡ spec.stored first last act }
{
    match (last, act) {
        (Some(name), Act::BindAttr(attribute)) => {
            if name == first { Some(attribute) } else { None }
        }
        _ => None,
    }
}

// The name that an event is.
fn name_in(act: Act) -> Option<NameId>
    ensures { result ≡ spec.name_in act }
{
    match act {
        Act::Name(name) => Some(name),
        _ => None,
    }
}

fn function_stand(class: Option<usize>, number: usize) -> Stand
    ensures { result ≡ spec.function_stand class number }
{
    match class {
        None => Stand::Function(number),
        Some(_) => Stand::Method(number),
    }
}

/// The class in whose body a member stands, which is the last one so far.
pub fn class_here(inside: bool, classes: usize) -> Option<usize>
    ensures { result ≡ spec.class_here inside classes }
{
    if inside && 0 < classes && classes < usize::MAX - BUILTIN_CLASSES {
        Some(BUILTIN_CLASSES + (classes - 1))
    } else {
        None
    }
}

fn start(alloc: Global) -> Declared
    ensures { result ≡ spec.start }
{
    Declared {
        functions: Seq::new(alloc),
        classes: Seq::new(alloc),
        constants: Seq::new(alloc),
        bindings: Table::new(alloc),
        members: Table::new(alloc),
        attributes: Table::new(alloc),
        methods: Table::new(alloc),
        fault: None,
    }
}

fn spot_of(unit: usize, of: &Unit, classes: usize) -> Spot
    ensures { result ≡ spec.spot_of unit of.now classes }
{
    Spot {
        unit,
        file: of.file,
        place: of.place,
        node: of.node,
        class: class_here(of.inside, classes),
    }
}

/// What the members bind.
pub fn all_declared(alloc: Global, modules: &[NameId], units: &[Unit]) -> Result<Declared, NoMem>
    ensures { IfOk result (λ d. d ≡ spec.declared modules.now units.now) }
{
    let mut so_far = start(alloc);
    for (unit, of) in units.iter().enumerate() {
        so_far.add_unit(modules, unit, of)?;
    }
    Ok(so_far)
}
