// The classes of a program, and what is asked of them.
ghost use Rattle.std.specs.Prelude.{◌≡◌, IfOk, OnOk, [], length, unwrap_or, slice_get};
ghost use Rattle.std.specs.Option.{option_copied};
ghost use Rattle.class_desc.specs.Line as line;
ghost use Rattle.class_desc.specs.Range as numbers;
ghost use Rattle.class_desc.specs.Tables as spec;

use crate::line::base_of;
use crate::names::Names;
use crate::own::attributes_of;
use crate::range::ranges_of;
use rpy_base::{NoMem, Seq, Text};
use rpy_copies::copy_const;
use rpy_tree::{ClassId, ClassInfo, Const, FunId, Program};
use std::alloc::Global;
use std::marker::Model;

/// The classes of a program, with the attributes that each declares.
#[derive(Drop)]
pub struct Classes {
    infos: Seq<ClassInfo>,
    attributes: Seq<Names>,
    spans: Seq<(u32, u32)>,
}

impl Model for Classes {
    ghost use Rattle.std.specs.Prelude.{◌≡◌};
    ghost use Rattle.std.specs.Coded.{codes};
    ghost use Rattle.class_desc.specs.Range.{ranges};
    ghost use Rattle.rpy_tree.specs.contracts.program.Const as constant;
    ghost use Rattle.class_desc.specs.Tables.{Tables};

    ghost Value = { Tables };

    ghost coded = { Prim.hlevel (codes, constant.the_row.coded) };

    ghost view = { λ c. record { classes = c.infos; attributes = c.attributes } };

    ghost invariant = { λ c. c.spans ≡ ranges c.infos };
}

fn copy_constants(alloc: Global, constants: &[(Text, Const)]) -> Result<Seq<(Text, Const)>, NoMem>
    ensures { IfOk result (λ copies. copies ≡ constants.now) }
{
    let mut copies = Seq::new(alloc);
    for constant in constants {
        let name = constant.0.copy(alloc)?;
        let value = copy_const(alloc, &constant.1)?;
        copies.push((name, value))?;
    }
    Ok(copies)
}

fn copy_methods(alloc: Global, methods: &[(Text, FunId)]) -> Result<Seq<(Text, FunId)>, NoMem>
    ensures { IfOk result (λ copies. copies ≡ methods.now) }
{
    let mut copies = Seq::new(alloc);
    for method in methods {
        let name = method.0.copy(alloc)?;
        copies.push((name, method.1))?;
    }
    Ok(copies)
}

fn copy_class(alloc: Global, info: &ClassInfo) -> Result<ClassInfo, NoMem>
    ensures { IfOk result (λ copy. copy ≡ info.now) }
{
    Ok(ClassInfo {
        node: info.node,
        file: info.file,
        base: info.base,
        constants: copy_constants(alloc, info.constants.as_slice())?,
        methods: copy_methods(alloc, info.methods.as_slice())?,
    })
}

fn copy_classes(alloc: Global, infos: &[ClassInfo]) -> Result<Seq<ClassInfo>, NoMem>
    ensures { IfOk result (λ copies. copies ≡ infos.now) }
{
    let mut copies = Seq::new(alloc);
    for info in infos {
        let copy = copy_class(alloc, info)?;
        copies.push(copy)?;
    }
    Ok(copies)
}

#[tactic(auto, using(crate::proofs::Turns::line_turn))]
fn is_below(infos: &[ClassInfo], c: ClassId, d: ClassId) -> bool
    ensures { result ≡ line.is_below infos.now c d }
{
    let mut class = c;
    for _turn in 0..infos.len() {
        if class == d {
            return true;
        }
        match base_of(infos, class) {
            None => return false,
            Some(base) => class = base,
        }
    }
    false
}

#[tactic(auto, using(crate::proofs::Turns::line_turn))]
fn common_base(infos: &[ClassInfo], c: ClassId, d: ClassId) -> Option<ClassId>
    ensures { result ≡ line.common_base infos.now c d }
{
    let mut class = c;
    for _turn in 0..infos.len() {
        if is_below(infos, d, class) {
            return Some(class);
        }
        match base_of(infos, class) {
            None => return None,
            Some(base) => class = base,
        }
    }
    None
}

fn method_named(methods: &[(Text, FunId)], name: &[u8]) -> Option<FunId>
    ensures { result ≡ line.named name.now methods.now }
{
    for method in methods {
        if method.0.bytes() == name {
            return Some(method.1);
        }
    }
    None
}

fn own_method(infos: &[ClassInfo], class: ClassId, name: &[u8]) -> Option<FunId>
    ensures { result ≡ line.own_method infos.now name.now class }
{
    match infos.get(class as usize) {
        None => None,
        Some(info) => method_named(info.methods.as_slice(), name),
    }
}

#[tactic(auto, using(crate::proofs::Turns::line_turn))]
fn method_of(infos: &[ClassInfo], c: ClassId, name: &[u8]) -> Option<FunId>
    ensures { result ≡ line.method infos.now c name.now }
{
    let mut class = c;
    for _turn in 0..infos.len() {
        if let Some(method) = own_method(infos, class, name) {
            return Some(method);
        }
        match base_of(infos, class) {
            None => return None,
            Some(base) => class = base,
        }
    }
    None
}

fn constant_named<'a>(constants: &'a [(Text, Const)], name: &Text) -> Option<&'a Const>
    ensures { option_copied result ≡ line.named name.now constants.now }
{
    for constant in constants {
        if constant.0 == *name {
            return Some(&constant.1);
        }
    }
    None
}

// The constants of a class body.
fn own_constants(infos: &[ClassInfo], class: ClassId) -> &[(Text, Const)]
    ensures { result.now ≡ line.constants_in (slice_get infos.now class) }
{
    match infos.get(class as usize) {
        None => &[],
        Some(info) => info.constants.as_slice(),
    }
}

#[tactic(auto, using(crate::proofs::Turns::line_turn))]
fn constant_of<'a>(infos: &'a [ClassInfo], c: ClassId, name: &Text) -> Option<&'a Const>
    ensures { option_copied result ≡ line.constant infos.now c name.now }
{
    let mut class = c;
    for _turn in 0..infos.len() {
        if let Some(constant) = constant_named(own_constants(infos, class), name) {
            return Some(constant);
        }
        match base_of(infos, class) {
            None => return None,
            Some(base) => class = base,
        }
    }
    None
}

fn declares(attributes: &[Names], class: ClassId, name: &Text) -> bool
    ensures { result ≡ spec.declares attributes.now name.now class }
{
    match attributes.get(class as usize) {
        None => false,
        Some(names) => names.has(name),
    }
}

// The class where it passes, and else the one that was found below it.
fn higher(passes: bool, class: ClassId, found: Option<ClassId>) -> Option<ClassId>
    ensures { result ≡ line.higher passes class found }
{
    if passes { Some(class) } else { found }
}

#[tactic(auto, using(crate::proofs::Turns::line_turn))]
fn home_of(infos: &[ClassInfo], attributes: &[Names], c: ClassId, name: &Text) -> Option<ClassId>
    ensures { result ≡ spec.home_in infos.now attributes.now c name.now }
{
    let mut class = c;
    let mut found = None;
    for _turn in 0..infos.len() {
        found = higher(declares(attributes, class, name), class, found);
        match base_of(infos, class) {
            None => return found,
            Some(base) => class = base,
        }
    }
    found
}

/// The value that an attribute of a new instance has: a class-level constant, the nearest of its
/// name, at the attribute's home.
#[derive(Drop)]
pub struct Initial {
    pub home: ClassId,
    pub name: Text,
    pub value: Const,
}

// What a new instance has, with the names of it.
#[derive(Drop)]
struct Starts {
    names: Names,
    values: Seq<Initial>,
}

impl Classes {
    /// The classes of a program.
    pub fn new(alloc: Global, program: &Program) -> Result<Classes, NoMem>
        ensures { IfOk result (λ classes. classes ≡ spec.tables program.now) }
    {
        let infos = copy_classes(alloc, program.classes.as_slice())?;
        let attributes = attributes_of(alloc, program.modules.as_slice())?;
        let spans = ranges_of(alloc, infos.as_slice())?;
        Ok(Classes {
            infos,
            attributes,
            spans,
        })
    }

    /// How many classes there are.
    pub fn len(&self) -> usize
        ensures { result ≡ length self.now.classes }
    {
        self.infos.len()
    }

    /// The base of a class, if it has one.
    pub fn base(&self, c: ClassId) -> Option<ClassId>
        ensures { result ≡ line.base self.now.classes c }
    {
        base_of(self.infos.as_slice(), c)
    }

    /// Whether d is c or a base of c.
    pub fn below(&self, c: ClassId, d: ClassId) -> bool
        ensures { result ≡ line.is_below self.now.classes c d }
    {
        is_below(self.infos.as_slice(), c, d)
    }

    /// The nearest class that is c or a base of c, and d or a base of d.
    pub fn common_base(&self, c: ClassId, d: ClassId) -> Option<ClassId>
        ensures { result ≡ line.common_base self.now.classes c d }
    {
        common_base(self.infos.as_slice(), c, d)
    }

    /// The nearest method of a name among c and its bases.
    pub fn method(&self, c: ClassId, name: &Text) -> Option<FunId>
        ensures { result ≡ line.method self.now.classes c name.now }
    {
        method_of(self.infos.as_slice(), c, name.bytes())
    }

    /// The nearest `__init__` among c and its bases.
    pub fn init(&self, c: ClassId) -> Option<FunId>
        ensures { result ≡ line.init self.now.classes c }
    {
        method_of(self.infos.as_slice(), c, b"__init__".as_slice())
    }

    /// The nearest class-level constant of a name among c and its bases.
    pub fn constant(&self, c: ClassId, name: &Text) -> Option<&Const>
        ensures { option_copied result ≡ line.constant self.now.classes c name.now }
    {
        constant_of(self.infos.as_slice(), c, name)
    }

    /// The topmost class, among c and its bases, that declares the attribute.
    pub fn home(&self, c: ClassId, name: &Text) -> Option<ClassId>
        ensures { result ≡ spec.home self.now c name.now }
    {
        home_of(self.infos.as_slice(), self.attributes.as_slice(), c, name)
    }

    /// The number of a class, and the end of the numbers of those below it: a class is below c exactly
    /// where its own number lies in this half-open range.
    #[tactic(auto, using(crate::proofs::Exact::exact))]
    pub fn range(&self, c: ClassId) -> (u32, u32)
        ensures value { result ≡ numbers.range self.now.classes c }
        ensures exact { numbers.IsForest self.now.classes → numbers.IsExact self.now.classes }
    {
        match self.spans.get(c as usize) {
            None => (0, 0),
            Some(range) => *range,
        }
    }

    /// How many attributes the class itself declares.
    pub fn attribute_count(&self, c: ClassId) -> usize
        ensures { result ≡ length (spec.declared self.now c) }
    {
        match self.attributes.get(c as usize) {
            None => 0,
            Some(names) => names.len(),
        }
    }

    /// The attribute that the class itself declares at a place in order of declaration.
    pub fn attribute(&self, c: ClassId, at: usize) -> Option<&Text>
        ensures { option_copied result ≡ slice_get (spec.declared self.now c) at }
    {
        match self.attributes.get(c as usize) {
            None => None,
            Some(names) => names.get(at),
        }
    }

    fn initial_of(
        &self,
        alloc: Global,
        c: ClassId,
        constant: &(Text, Const),
    ) -> Result<Initial, NoMem>
        ensures { IfOk result (λ initial. initial ≡ spec.initial_of self.now c constant.now) }
    {
        let home = self.home(c, &constant.0).unwrap_or(c);
        let name = constant.0.copy(alloc)?;
        let value = copy_const(alloc, &constant.1)?;
        Ok(Initial { home, name, value })
    }

    // A constant that no nearer class has is an initial value.
    fn add_initial(
        &self,
        alloc: Global,
        c: ClassId,
        constant: &(Text, Const),
        starts: &mut Starts,
    ) -> Result<(), NoMem>
        ensures { OnOk result (starts.new ≡ spec.with_initial self.now c constant.now starts.old) }
    {
        if starts.names.has(&constant.0) {
            return Ok(());
        }
        let initial = self.initial_of(alloc, c, constant)?;
        starts.values.push(initial)?;
        starts.names.add(alloc, &constant.0)
    }

    fn add_initials(
        &self,
        alloc: Global,
        c: ClassId,
        constants: &[(Text, Const)],
        starts: &mut Starts,
    ) -> Result<(), NoMem>
        ensures { OnOk result (starts.new ≡ spec.with_initials self.now c constants.now starts.old) }
    {
        for constant in constants {
            self.add_initial(alloc, c, constant, starts)?;
        }
        Ok(())
    }

    #[tactic(auto, using(crate::proofs::Turns::line_turn))]
    fn starts(&self, alloc: Global, c: ClassId) -> Result<Starts, NoMem>
        ensures { IfOk result (λ starts. starts ≡ spec.starts self.now c) }
    {
        let infos = self.infos.as_slice();
        let mut starts = Starts {
            names: Names::new(alloc),
            values: Seq::new(alloc),
        };
        let mut class = c;
        for _turn in 0..infos.len() {
            self.add_initials(alloc, c, own_constants(infos, class), &mut starts)?;
            match base_of(infos, class) {
                None => return Ok(starts),
                Some(base) => class = base,
            }
        }
        Ok(starts)
    }

    /// What the attributes of a new instance of a class are, those of the nearest class first.
    pub fn initial(&self, alloc: Global, c: ClassId) -> Result<Seq<Initial>, NoMem>
        ensures { IfOk result (λ values. values ≡ spec.initial self.now c) }
    {
        let starts = self.starts(alloc, c)?;
        Ok(starts.values)
    }
}
