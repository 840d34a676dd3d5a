// The value of a constant expression, part by part.
ghost use Rattle.std.specs.Prelude.{◌≡◌, [], min, ◌^◌, ◌-◌, IfOk, OnOk, length};
ghost use Rattle.std.specs.Option.{option_copied};
ghost use Rattle.names_value.specs.Machine as spec;

use crate::arithmetic::{word_binary, word_unary};
use crate::copy::copy_option;
use crate::same::is_same;
use crate::slots::{Slot, drop_slots, take_slot, take_slots, values_of};
use names_bound::fault::fault_if;
use names_bound::{Fault, FaultKind, Stand, lesser};
use names_found::part::{is_part, taken, taken_besides};
use names_found::{Called, Step};
use rpy_base::{NoMem, Seq, Text};
use rpy_nodes::{Act, NameId, Names};
use rpy_tree::{BinOp, Const, NodeId, UnOp};
use std::alloc::Global;

/// The contents of a list or dict that is made before the run. Those of a list have `None` for a key.
#[derive(Drop)]
pub struct Prebuilt {
    pub site: usize,
    pub pairs: Seq<(Const, Const)>,
}

/// The value of the constant expression that ends at a node.
#[derive(Drop)]
pub struct Root {
    pub node: NodeId,
    pub value: Const,
}

/// The parts that wait, the lists and dicts that are made before the run, the values of arguments
/// that have to be constant, and the least fault.
#[derive(Drop)]
pub struct Machine {
    pub slots: Seq<Slot>,
    pub prebuilt: Seq<Prebuilt>,
    pub roots: Seq<Root>,
    pub fault: Option<Fault>,
}

/// A number of a table as it stands in a program, which has fewer than 2 ^ 32 of each kind.
pub fn narrow(number: usize) -> u32
    ensures { result ≡ spec.narrow number }
{
    if number < u32::MAX as usize {
        number as u32
    } else {
        u32::MAX
    }
}

// What a constant of a number is.
fn constant_at(
    alloc: Global,
    constants: &[Option<Const>],
    number: usize,
) -> Result<Option<Const>, NoMem>
    ensures { IfOk result (λ value. value ≡ spec.constant_at constants.now number) }
{
    match constants.get(number) {
        None => Ok(None),
        Some(value) => copy_option(alloc, value),
    }
}

// The value of what a name stands for.
fn stand_value(
    alloc: Global,
    constants: &[Option<Const>],
    stand: Stand,
) -> Result<Option<Const>, NoMem>
    ensures { IfOk result (λ value. value ≡ spec.stand_value constants.now stand) }
{
    match stand {
        Stand::NoneValue => Ok(Some(Const::None)),
        Stand::TrueValue => Ok(Some(Const::Bool(true))),
        Stand::FalseValue => Ok(Some(Const::Bool(false))),
        Stand::Function(function) => Ok(Some(Const::Function(narrow(function)))),
        Stand::Constant(constant) => constant_at(alloc, constants, constant),
        Stand::MaxInt => Ok(Some(Const::Word(i64::MAX))),
        _ => Ok(None),
    }
}

fn name_value(
    alloc: Global,
    constants: &[Option<Const>],
    stand: Stand,
    late: bool,
) -> Result<Option<Const>, NoMem>
    ensures { IfOk result (λ value. value ≡ spec.name_value constants.now stand late) }
{
    if late {
        Ok(None)
    } else {
        stand_value(alloc, constants, stand)
    }
}

fn text_value(alloc: Global, names: &Names, name: NameId) -> Result<Option<Const>, NoMem>
    ensures { IfOk result (λ value. value ≡ spec.text_value names.now name) }
{
    match names.text(name) {
        None => Ok(None),
        Some(text) => Ok(Some(Const::Str(text.copy(alloc)?))),
    }
}

fn word(value: Option<i64>) -> Option<Const>
    ensures { result ≡ spec.word value }
{
    match value {
        None => None,
        Some(word) => Some(Const::Word(word)),
    }
}

fn unary_value(op: UnOp, a: Option<Const>) -> Option<Const>
    ensures { result ≡ spec.unary_value op a }
{
    match a {
        None => None,
        Some(a) => unary_of(op, a),
    }
}

fn unary_of(op: UnOp, a: Const) -> Option<Const>
    ensures { result ≡ spec.unary_of op a }
{
    match a {
        Const::Word(a) => word(word_unary(op, a)),
        _ => None,
    }
}

fn joined(op: BinOp, a: Text, b: &[u8]) -> Result<Option<Const>, NoMem>
    ensures { IfOk result (λ value. value ≡ spec.joined op a b.now) }
{
    match op {
        BinOp::Add => {
            let mut text = a;
            text.append(b)?;
            Ok(Some(Const::Str(text)))
        }
        _ => Ok(None),
    }
}

fn word_with(op: BinOp, a: i64, b: Const) -> Option<Const>
    ensures { result ≡ spec.word_with op a b }
{
    match b {
        Const::Word(b) => word(word_binary(op, a, b)),
        _ => None,
    }
}

fn text_with(op: BinOp, a: Text, b: Const) -> Result<Option<Const>, NoMem>
    ensures { IfOk result (λ value. value ≡ spec.text_with op a b) }
{
    match b {
        Const::Str(b) => joined(op, a, b.bytes()),
        _ => Ok(None),
    }
}

fn binary_of(op: BinOp, a: Const, b: Const) -> Result<Option<Const>, NoMem>
    ensures { IfOk result (λ value. value ≡ spec.binary_of op a b) }
{
    match a {
        Const::Word(a) => Ok(word_with(op, a, b)),
        Const::Str(a) => text_with(op, a, b),
        _ => Ok(None),
    }
}

fn binary_value(op: BinOp, a: Option<Const>, b: Option<Const>) -> Result<Option<Const>, NoMem>
    ensures { IfOk result (λ value. value ≡ spec.binary_value op a b) }
{
    match (a, b) {
        (Some(a), Some(b)) => binary_of(op, a, b),
        _ => Ok(None),
    }
}

// An item after those of a list.
fn with_item(
    pairs: Option<Seq<(Const, Const)>>,
    item: Option<Const>,
) -> Result<Option<Seq<(Const, Const)>>, NoMem>
    ensures { IfOk result (λ all. all ≡ spec.with_item pairs item) }
{
    match (pairs, item) {
        (Some(mut pairs), Some(item)) => {
            pairs.push((Const::None, item))?;
            Ok(Some(pairs))
        }
        _ => Ok(None),
    }
}

// The contents of a list, from parts that were taken last one first.
#[tactic(auto, using(crate::proofs::Contents::items_turn))]
fn list_contents(alloc: Global, taken: Seq<Slot>) -> Result<Option<Seq<(Const, Const)>>, NoMem>
    ensures { IfOk result (λ pairs. pairs ≡ spec.list_contents taken) }
{
    let count = taken.len();
    let mut taken = taken;
    let mut pairs = Some(Seq::new(alloc));
    for _turn in 0..count {
        let slot = take_slot(&mut taken);
        pairs = with_item(pairs, slot.value)?;
    }
    Ok(pairs)
}

// The place of a key, or the count of the pairs.
fn place_of(pairs: &[(Const, Const)], key: &Const) -> usize
    ensures { result ≡ spec.place_of pairs.now key.now }
{
    for (at, pair) in pairs.iter().enumerate() {
        if is_same(&pair.0, key) {
            return at;
        }
    }
    pairs.len()
}

// A key takes a value: it keeps its place, or goes last.
fn store(pairs: &mut Seq<(Const, Const)>, key: Const, value: Const) -> Result<(), NoMem>
    ensures { OnOk result (pairs.new ≡ spec.store pairs.old key value) }
{
    let at = place_of(pairs.as_slice(), &key);
    if at < pairs.len() {
        pairs.set(at, (key, value));
        Ok(())
    } else {
        pairs.push((key, value))
    }
}

fn with_pair(
    pairs: Option<Seq<(Const, Const)>>,
    key: Option<Const>,
    value: Option<Const>,
) -> Result<Option<Seq<(Const, Const)>>, NoMem>
    ensures { IfOk result (λ all. all ≡ spec.with_pair pairs key value) }
{
    match (pairs, key, value) {
        (Some(mut pairs), Some(key), Some(value)) => {
            store(&mut pairs, key, value)?;
            Ok(Some(pairs))
        }
        _ => Ok(None),
    }
}

// The contents of a dict of so many pairs, from parts that were taken last one first.
#[tactic(auto, using(crate::proofs::Contents::pairs_turn))]
fn dict_contents(
    alloc: Global,
    taken: Seq<Slot>,
    count: usize,
) -> Result<Option<Seq<(Const, Const)>>, NoMem>
    ensures { IfOk result (λ pairs. pairs ≡ spec.dict_contents taken count) }
{
    let mut taken = taken;
    let mut pairs = Some(Seq::new(alloc));
    for _turn in 0..count {
        let key = take_slot(&mut taken);
        let value = take_slot(&mut taken);
        pairs = with_pair(pairs, key.value, value.value)?;
    }
    Ok(pairs)
}

// Whether a value is a word that is not zero.
fn is_step(value: &Option<Const>) -> bool
    ensures { result ≡ spec.is_step value.now }
{
    match value {
        Some(Const::Word(word)) => *word < 0 || 0 < *word,
        _ => false,
    }
}

fn is_one(value: &Option<Const>) -> bool
    ensures { result ≡ spec.is_one value.now }
{
    match value {
        Some(Const::Word(word)) => 0 < *word && *word < 2,
        _ => false,
    }
}

fn step_fault(slot: Option<&Slot>) -> Option<Fault>
    ensures { result ≡ spec.step_fault (option_copied slot.entry) }
{
    match slot {
        None => None,
        Some(slot) => fault_if(!is_step(&slot.value), slot.node, FaultKind::BadConstant),
    }
}

fn write_fault(slot: Option<&Slot>) -> Option<Fault>
    ensures { result ≡ spec.write_fault (option_copied slot.entry) }
{
    match slot {
        None => None,
        Some(slot) => fault_if(!is_one(&slot.value), slot.node, FaultKind::BadConstant),
    }
}

// The fault of the arguments of a call, which were taken last one first.
fn call_fault(called: Called, args: &Seq<Slot>) -> Option<Fault>
    ensures { result ≡ spec.call_fault called args.now }
{
    match called {
        Called::Range => step_fault(args.get(0)),
        Called::Write => write_fault(args.get(args.len().saturating_sub(1))),
        _ => None,
    }
}

// A part as the end of a constant expression.
fn step_root(alloc: Global, slot: Option<&Slot>) -> Result<Option<Root>, NoMem>
    ensures { IfOk result (λ root. root ≡ spec.step_root (option_copied slot.entry)) }
{
    match slot {
        None => Ok(None),
        Some(slot) => {
            let value = copy_option(alloc, &slot.value)?;
            Ok(root_of(slot.node, value))
        }
    }
}

fn root_of(node: NodeId, value: Option<Const>) -> Option<Root>
    ensures { result ≡ spec.root_of node value }
{
    match value {
        None => None,
        Some(value) => Some(Root { node, value }),
    }
}

// The step of a range, of arguments that were taken last one first.
fn call_root(alloc: Global, called: Called, args: &Seq<Slot>) -> Result<Option<Root>, NoMem>
    ensures { IfOk result (λ root. root ≡ spec.call_root called args.now) }
{
    match called {
        Called::Range => step_root(alloc, args.get(0)),
        _ => Ok(None),
    }
}

fn keep_root(roots: &mut Seq<Root>, root: Option<Root>) -> Result<(), NoMem>
    ensures { OnOk result (roots.new ≡ spec.with_root root roots.old) }
{
    match root {
        None => Ok(()),
        Some(root) => roots.push(root),
    }
}

// The word that a name stands for.
fn word_at(constants: &[Option<Const>], number: usize) -> Option<i64>
    ensures { result ≡ spec.word_at constants.now number }
{
    match constants.get(number) {
        Some(Some(Const::Word(word))) => Some(*word),
        _ => None,
    }
}

fn word_of(constants: &[Option<Const>], stand: Stand) -> Option<i64>
    ensures { result ≡ spec.word_of constants.now stand }
{
    match stand {
        Stand::MaxInt => Some(i64::MAX),
        Stand::Constant(number) => word_at(constants, number),
        _ => None,
    }
}

fn word_in(constants: &[Option<Const>], stand: Stand, late: bool) -> Option<Const>
    ensures { result ≡ spec.word_in constants.now stand late }
{
    if late {
        None
    } else {
        word(word_of(constants, stand))
    }
}

fn tuple_of(values: Option<Seq<Const>>) -> Option<Const>
    ensures { result ≡ spec.tuple_of values }
{
    match values {
        None => None,
        Some(values) => Some(Const::Tuple(values)),
    }
}

impl Machine {
    pub fn new(alloc: Global, prebuilt: Seq<Prebuilt>, roots: Seq<Root>) -> Machine
        ensures { result ≡ spec.start prebuilt roots }
    {
        Machine {
            slots: Seq::new(alloc),
            prebuilt,
            roots,
            fault: None,
        }
    }

    fn push(&mut self, node: NodeId, value: Option<Const>) -> Result<(), NoMem>
        ensures { OnOk result (self.new ≡ spec.push node value self.old) }
    {
        self.slots.push(Slot { node, value })
    }

    fn tuple(&mut self, alloc: Global, node: NodeId, count: usize) -> Result<(), NoMem>
        ensures { OnOk result (self.new ≡ spec.tuple node count self.old) }
    {
        let taken = take_slots(alloc, &mut self.slots, count)?;
        let values = values_of(alloc, taken)?;
        self.push(node, tuple_of(values))
    }

    // A list or dict of these contents, if they are constant.
    fn build(
        &mut self,
        node: NodeId,
        site: usize,
        made: Const,
        pairs: Option<Seq<(Const, Const)>>,
    ) -> Result<(), NoMem>
        ensures { OnOk result (self.new ≡ spec.build node site made pairs self.old) }
    {
        match pairs {
            None => self.push(node, None),
            Some(pairs) => {
                self.prebuilt.push(Prebuilt { site, pairs })?;
                self.push(node, Some(made))
            }
        }
    }

    fn list(&mut self, alloc: Global, node: NodeId, count: usize, site: usize) -> Result<(), NoMem>
        ensures { OnOk result (self.new ≡ spec.list node count site self.old) }
    {
        let taken = take_slots(alloc, &mut self.slots, count)?;
        let pairs = list_contents(alloc, taken)?;
        self.build(node, site, Const::List(narrow(site)), pairs)
    }

    fn dict(&mut self, alloc: Global, node: NodeId, count: usize, site: usize) -> Result<(), NoMem>
        ensures { OnOk result (self.new ≡ spec.dict node count site self.old) }
    {
        let Some(parts) = count.checked_mul(2) else {
            return Err(NoMem);
        };
        let taken = take_slots(alloc, &mut self.slots, parts)?;
        let pairs = dict_contents(alloc, taken, count)?;
        self.build(node, site, Const::Dict(narrow(site)), pairs)
    }

    fn call(
        &mut self,
        alloc: Global,
        node: NodeId,
        count: usize,
        called: Called,
    ) -> Result<(), NoMem>
        ensures { OnOk result (self.new ≡ spec.call node count called self.old) }
    {
        let args = take_slots(alloc, &mut self.slots, count)?;
        drop_slots(&mut self.slots, 1);
        keep_root(&mut self.roots, call_root(alloc, called, &args)?)?;
        self.fault = lesser(self.fault, call_fault(called, &args));
        self.push(node, None)
    }

    // An act that has no constant value.
    fn other(&mut self, node: NodeId, act: Act) -> Result<(), NoMem>
        ensures { OnOk result (self.new ≡ spec.other node act self.old) }
    {
        drop_slots(&mut self.slots, taken(act));
        drop_slots(&mut self.slots, taken_besides(act));
        if is_part(act) {
            self.push(node, None)
        } else {
            Ok(())
        }
    }

    fn attr(&mut self, node: NodeId, value: Option<Const>) -> Result<(), NoMem>
        ensures { OnOk result (self.new ≡ spec.attr node value self.old) }
    {
        drop_slots(&mut self.slots, 1);
        self.push(node, value)
    }

    fn unary(&mut self, node: NodeId, op: UnOp) -> Result<(), NoMem>
        ensures { OnOk result (self.new ≡ spec.unary node op self.old) }
    {
        let a = take_slot(&mut self.slots);
        self.push(node, unary_value(op, a.value))
    }

    fn binary(&mut self, node: NodeId, op: BinOp) -> Result<(), NoMem>
        ensures { OnOk result (self.new ≡ spec.binary node op self.old) }
    {
        let b = take_slot(&mut self.slots);
        let a = take_slot(&mut self.slots);
        let value = binary_value(op, a.value, b.value)?;
        self.push(node, value)
    }

    fn step(
        &mut self,
        alloc: Global,
        names: &Names,
        constants: &[Option<Const>],
        step: Step,
    ) -> Result<(), NoMem>
        ensures { OnOk result (self.new ≡ spec.step names.now constants.now step self.old) }
    {
        let node = step.node;
        match step.act {
            Act::Int(value) => self.push(node, Some(Const::Word(value))),
            Act::Str(name) => {
                let value = text_value(alloc, names, name)?;
                self.push(node, value)
            }
            Act::Name(_) => {
                let value = name_value(alloc, constants, step.stand, step.late)?;
                self.push(node, value)
            }
            Act::Attr(_) => {
                let value = name_value(alloc, constants, step.stand, step.late)?;
                self.attr(node, value)
            }
            Act::Unary(op) => self.unary(node, op),
            Act::Binary(op) => self.binary(node, op),
            Act::Tuple(count) => self.tuple(alloc, node, count),
            Act::List(count) => self.list(alloc, node, count, step.site),
            Act::Dict(count) => self.dict(alloc, node, count, step.site),
            Act::Call(count) => self.call(alloc, node, count, step.called),
            _ => self.other(node, step.act),
        }
    }

    // A step of a body, where only words are constants.
    fn word_step(
        &mut self,
        alloc: Global,
        constants: &[Option<Const>],
        step: Step,
    ) -> Result<(), NoMem>
        ensures { OnOk result (self.new ≡ spec.word_step constants.now step self.old) }
    {
        let node = step.node;
        match step.act {
            Act::Int(value) => self.push(node, Some(Const::Word(value))),
            Act::Name(_) => self.push(node, word_in(constants, step.stand, step.late)),
            Act::Attr(_) => self.attr(node, word_in(constants, step.stand, step.late)),
            Act::Unary(op) => self.unary(node, op),
            Act::Binary(op) => self.binary(node, op),
            Act::Call(count) => self.call(alloc, node, count, step.called),
            _ => self.other(node, step.act),
        }
    }

    /// The steps of an expression. Its value is what waits then.
    pub fn run(
        &mut self,
        alloc: Global,
        names: &Names,
        constants: &[Option<Const>],
        steps: &[Step],
    ) -> Result<(), NoMem>
        ensures { OnOk result (self.new ≡ spec.run names.now constants.now steps.now self.old) }
    {
        for step in steps {
            self.step(alloc, names, constants, *step)?;
        }
        Ok(())
    }

    /// The steps of a body.
    pub fn run_words(
        &mut self,
        alloc: Global,
        constants: &[Option<Const>],
        steps: &[Step],
    ) -> Result<(), NoMem>
        ensures { OnOk result (self.new ≡ spec.run_words constants.now steps.now self.old) }
    {
        for step in steps {
            self.word_step(alloc, constants, *step)?;
        }
        Ok(())
    }
}
