// The blocks of a function so far, and how one more is put after them.
ghost use Rattle.std.specs.Prelude.{◌≡◌, ◌+◌, ◌<◌, false, [], ◌∷◌, ◌++◌, length, slice_set, IfOk, OnOk};
ghost use Rattle.rpy_meaning.specs.Classes.{no_covers};
ghost use Rattle.flow_stands.specs.Places.{range, first as on_first, first_and as on_first_and, stored as on_stored, stored_if_any, hand_jumps, shift, link as link_of, links, act, numbered, Go, Fork, Does, Plain, GiveBack, GiveUp};
ghost use Rattle.flow_graph.specs.Owners.{results, HaveOwnVariables};
ghost use Rattle.flow_space.specs.Owned.{LieBelow};
ghost use Rattle.flow_space.specs.Placed.{Part, Headed, IsHead, ShapeAt, MarkedAt, ActsAt, aim_of, hands_of, jump_of};

use crate::places::{first, first_and, stored};
use flow_graph::{Block, Exit, Link, Op, VarId};
use rpy_base::{NoMem, Seq};
use rpy_meaning::{Covers, RowOp};
use rpy_tree::{ClassId, NodeId};
use std::alloc::Global;

/// The blocks, and the first variable that is not used yet.
#[derive(Drop)]
pub struct Code {
    pub blocks: Seq<Block>,
    pub next: VarId,
    ghost own: { HaveOwnVariables blocks },
    ghost below: { LieBelow next blocks },
}

/// A block, and how many of the variables go on to it, the first ones.
#[derive(Clone, Copy, Debug, PartialEq, Eq)]
pub struct Aim {
    pub to: u64,
    pub keep: usize,
}

/// An exception of the class goes to the block with the first variables, of which the local, if
/// there is one, is the exception then.
#[derive(Clone, Copy, Debug, PartialEq, Eq)]
pub struct Hand {
    pub class: ClassId,
    pub local: Option<u32>,
    pub aim: Aim,
}

/// How many locals the function has; where exceptions go: to the first hand that takes them, else on
/// with the first variables and the exception; for which failures they come; and whether a `try`
/// stands around.
#[derive(Drop)]
pub struct Scope {
    pub locals: usize,
    pub hands: Seq<Hand>,
    pub default: Aim,
    pub covers: Covers,
    pub tried: bool,
}

/// A block, and the places of the variables that go on to it.
#[derive(Drop)]
pub struct Jump {
    pub to: u64,
    pub places: Seq<usize>,
}

/// An operation at a node, and whether its result is the node's value.
#[derive(Drop)]
pub struct Act {
    pub node: NodeId,
    pub value: bool,
    pub op: RowOp,
}

/// At the start of a function nothing is covered.
pub fn no_covers() -> Covers
    ensures { result ≡ no_covers }
{
    Covers {
        index: false,
        zero: false,
        number: false,
        attribute: false,
    }
}

pub fn op_at(node: NodeId, value: bool, op: RowOp) -> Act
    ensures { result ≡ record { node = node; value = value; op = op } }
{
    Act { node, value, op }
}

/// The place of a local. Names are bound in a tree, which has no other local than its function's.
pub fn local_place(scope: &Scope, local: u32) -> Result<usize, NoMem>
    ensures place { IfOk result (λ place. place ≡ local) }
    ensures within { OnOk result (local < scope.now.locals) }
{
    let place = local as usize;
    if place < scope.locals {
        Ok(place)
    } else {
        Err(NoMem)
    }
}

/// On to a block with the first variables.
pub fn jump_first(alloc: Global, to: u64, keep: usize) -> Result<Jump, NoMem>
    ensures { IfOk result (λ jump. jump ≡ record { to = to; places = range 0 keep }) }
{
    Ok(Jump {
        to,
        places: first(alloc, keep)?,
    })
}

/// On to a block with the first variables and one more.
pub fn jump_and(alloc: Global, to: u64, keep: usize, last: usize) -> Result<Jump, NoMem>
    ensures { IfOk result (λ jump. jump ≡ record { to = to; places = range 0 keep ++ last ∷ [] }) }
{
    Ok(Jump {
        to,
        places: first_and(alloc, keep, last)?,
    })
}

/// On to a block with the first variables, of which a local is another then.
pub fn jump_stored(
    alloc: Global,
    to: u64,
    keep: usize,
    local: u32,
    place: usize,
) -> Result<Jump, NoMem>
    ensures { IfOk result (λ jump. jump ≡ record { to = to; places = slice_set (range 0 keep) local place }) }
{
    Ok(Jump {
        to,
        places: stored(alloc, keep, local as usize, place)?,
    })
}

// The variable at a place of a block whose first variable is this one.
fn variable(base: VarId, place: usize) -> Result<VarId, NoMem>
    ensures { IfOk result (λ variable. variable ≡ base + place) }
{
    match base.checked_add(place as u64) {
        None => Err(NoMem),
        Some(variable) => Ok(variable),
    }
}

fn variables(alloc: Global, base: VarId, places: &[usize]) -> Result<Seq<VarId>, NoMem>
    ensures { IfOk result (λ variables. variables ≡ shift base places.now) }
{
    let mut variables = Seq::new(alloc);
    for place in places {
        variables.push(variable(base, *place)?)?;
    }
    Ok(variables)
}

fn inputs(alloc: Global, base: VarId, m: usize) -> Result<Seq<VarId>, NoMem>
    ensures { IfOk result (λ variables. variables ≡ shift base (range 0 m)) }
{
    let places = first(alloc, m)?;
    variables(alloc, base, places.as_slice())
}

fn link(alloc: Global, base: VarId, jump: &Jump) -> Result<Link, NoMem>
    ensures { IfOk result (λ link. link ≡ link_of base (jump_of jump.now)) }
{
    Ok(Link {
        to: jump.to,
        args: variables(alloc, base, jump.places.as_slice())?,
    })
}

// Where a hand takes the exception at this place.
fn hand_jump(alloc: Global, hand: Hand, place: usize) -> Result<Jump, NoMem>
    ensures { IfOk result (λ jump. jump_of jump ≡ stored_if_any (aim_of hand.aim) hand.local place) }
{
    match hand.local {
        None => jump_first(alloc, hand.aim.to, hand.aim.keep),
        Some(local) => jump_stored(alloc, hand.aim.to, hand.aim.keep, local, place),
    }
}

fn hand_link(alloc: Global, base: VarId, hand: Hand, place: usize) -> Result<(ClassId, Link), NoMem>
    ensures { IfOk result (λ pair. pair ≡ (hand.class, link_of base (stored_if_any (aim_of hand.aim) hand.local place))) }
{
    let jump = hand_jump(alloc, hand, place)?;
    Ok((hand.class, link(alloc, base, &jump)?))
}

fn hand_links(
    alloc: Global,
    base: VarId,
    hands: &[Hand],
    place: usize,
) -> Result<Seq<(ClassId, Link)>, NoMem>
    ensures { IfOk result (λ all. all ≡ links base (hand_jumps place (hands_of hands.now))) }
{
    let mut links = Seq::new(alloc);
    for hand in hands {
        links.push(hand_link(alloc, base, *hand, place)?)?;
    }
    Ok(links)
}

fn default_link(alloc: Global, base: VarId, aim: Aim, place: usize) -> Result<Link, NoMem>
    ensures { IfOk result (λ link. link ≡ link_of base (on_first_and aim.to aim.keep place)) }
{
    let jump = jump_and(alloc, aim.to, aim.keep, place)?;
    link(alloc, base, &jump)
}

fn ops_of(
    alloc: Global,
    base: VarId,
    covers: Covers,
    of: Act,
    args: &[usize],
    m: usize,
) -> Result<Seq<Op>, NoMem>
    ensures { IfOk result (λ ops. ops ≡ act base m of.node of.value of.op args.now covers ∷ []) }
{
    let mut ops = Seq::new(alloc);
    ops.push(Op {
        result: variable(base, m)?,
        op: of.op,
        args: variables(alloc, base, args)?,
        node: of.node,
        value: of.value,
        covered: covers,
    })?;
    Ok(ops)
}

impl Code {
    pub fn new(alloc: Global) -> Code
        ensures blocks { result.blocks ≡ [] }
        ensures next { result.next ≡ 0 }
    {
        Code {
            blocks: Seq::new(alloc),
            next: 0,
        }
    }

    // After the others a block whose variables are the next ones: m inputs, and so many results.
    fn put(&mut self, m: usize, done: usize, block: Block) -> Result<u64, NoMem>
        requires inputs { block.inputs ≡ shift self.old.next (range 0 m) }
        requires results { results block.ops ≡ shift self.old.next (range m done) }
        ensures at { IfOk result (λ number. number ≡ length self.old.blocks) }
        ensures put { OnOk result (self.new.blocks ≡ self.old.blocks ++ block ∷ []) }
    {
        let number = self.blocks.len() as u64;
        let inner = variable(self.next, m)?;
        let next = variable(inner, done)?;
        self.blocks.push(block)?;
        self.next = next;
        Ok(number)
    }

    /// A block with m inputs that goes on at once.
    pub fn put_jump(&mut self, alloc: Global, m: usize, jump: Jump) -> Result<u64, NoMem>
        ensures at { IfOk result (λ b. b ≡ length self.old.blocks) }
        ensures count { OnOk result (length self.new.blocks ≡ length self.old.blocks + 1) }
        ensures put { IfOk result (λ b. Part self.old.blocks self.new.blocks (ShapeAt b m (Go (jump_of jump)))) }
    {
        let base = self.next;
        let block = Block {
            inputs: inputs(alloc, base, m)?,
            ops: Seq::new(alloc),
            exit: Exit::Goto(link(alloc, base, &jump)?),
        };
        self.put(m, 0, block)
    }

    /// A block with m inputs that goes on by the truth of one of them.
    pub fn put_fork(
        &mut self,
        alloc: Global,
        m: usize,
        test: usize,
        yes: Jump,
        no: Jump,
    ) -> Result<u64, NoMem>
        ensures { IfOk result (λ b. Part self.old.blocks self.new.blocks (ShapeAt b m (Fork test (jump_of yes) (jump_of no)))) }
    {
        let base = self.next;
        let block = Block {
            inputs: inputs(alloc, base, m)?,
            ops: Seq::new(alloc),
            exit: Exit::If(
                variable(base, test)?,
                link(alloc, base, &yes)?,
                link(alloc, base, &no)?,
            ),
        };
        self.put(m, 0, block)
    }

    /// A block with m inputs and one operation, whose result or exception is at place m.
    pub fn put_op(
        &mut self,
        alloc: Global,
        scope: &Scope,
        of: Act,
        args: Seq<usize>,
        m: usize,
        norm: Jump,
    ) -> Result<u64, NoMem>
        ensures { IfOk result (λ b. Part self.old.blocks self.new.blocks (ActsAt scope.now b of.node of.value of.op args m (jump_of norm))) }
    {
        let base = self.next;
        let block = Block {
            inputs: inputs(alloc, base, m)?,
            ops: ops_of(alloc, base, scope.covers, of, args.as_slice(), m)?,
            exit: Exit::OnRaise(
                variable(base, m)?,
                hand_links(alloc, base, scope.hands.as_slice(), m)?,
                Some(default_link(alloc, base, scope.default, m)?),
                link(alloc, base, &norm)?,
            ),
        };
        self.put(m, 1, block)
    }

    /// The same with its own way by exception, and without hands.
    pub fn put_aside(
        &mut self,
        alloc: Global,
        covers: Covers,
        of: Act,
        args: Seq<usize>,
        m: usize,
        default: Jump,
        norm: Jump,
    ) -> Result<u64, NoMem>
        ensures { IfOk result (λ b. Part self.old.blocks self.new.blocks (MarkedAt b m of.node of.value (Does of.op args covers [] (jump_of default) (jump_of norm)))) }
    {
        let base = self.next;
        let block = Block {
            inputs: inputs(alloc, base, m)?,
            ops: ops_of(alloc, base, covers, of, args.as_slice(), m)?,
            exit: Exit::OnRaise(
                variable(base, m)?,
                Seq::new(alloc),
                Some(link(alloc, base, &default)?),
                link(alloc, base, &norm)?,
            ),
        };
        self.put(m, 1, block)
    }

    /// A block with m inputs and one operation that cannot raise.
    pub fn put_plain(&mut self, alloc: Global, of: Act, m: usize, norm: Jump) -> Result<u64, NoMem>
        ensures at { IfOk result (λ b. b ≡ length self.old.blocks) }
        ensures count { OnOk result (length self.new.blocks ≡ length self.old.blocks + 1) }
        ensures put { IfOk result (λ b. Part self.old.blocks self.new.blocks (MarkedAt b m of.node of.value (Plain of.op (jump_of norm)))) }
    {
        let base = self.next;
        let none: Seq<usize> = Seq::new(alloc);
        let block = Block {
            inputs: inputs(alloc, base, m)?,
            ops: ops_of(alloc, base, no_covers(), of, none.as_slice(), m)?,
            exit: Exit::Goto(link(alloc, base, &norm)?),
        };
        self.put(m, 1, block)
    }

    /// A block with one input, which it returns.
    pub fn put_return(&mut self, alloc: Global) -> Result<u64, NoMem>
        ensures at { IfOk result (λ b. b ≡ length self.old.blocks) }
        ensures count { OnOk result (length self.new.blocks ≡ length self.old.blocks + 1) }
        ensures put { IfOk result (λ b. Part self.old.blocks self.new.blocks (ShapeAt b 1 GiveBack)) }
    {
        let base = self.next;
        let block = Block {
            inputs: inputs(alloc, base, 1)?,
            ops: Seq::new(alloc),
            exit: Exit::Return(base),
        };
        self.put(1, 0, block)
    }

    /// A block with one input, an exception with which it leaves the function.
    pub fn put_raise(&mut self, alloc: Global) -> Result<u64, NoMem>
        ensures at { IfOk result (λ b. b ≡ length self.old.blocks) }
        ensures count { OnOk result (length self.new.blocks ≡ length self.old.blocks + 1) }
        ensures put { IfOk result (λ b. Part self.old.blocks self.new.blocks (ShapeAt b 1 GiveUp)) }
    {
        let base = self.next;
        let block = Block {
            inputs: inputs(alloc, base, 1)?,
            ops: Seq::new(alloc),
            exit: Exit::Raise(base),
        };
        self.put(1, 0, block)
    }

    /// A block with m inputs that goes on to another, which is not there yet, with the first of them.
    pub fn put_head(&mut self, alloc: Global, m: usize) -> Result<Head, NoMem>
        ensures grows { IfOk result (λ head. Headed self.old.blocks self.new.blocks m head.number head.m) }
        ensures head { IfOk result (λ head. IsHead self.new.blocks head.number head.base head.m) }
        ensures base { IfOk result (λ head. head.base ≡ self.old.next) }
    {
        let base = self.next;
        let jump = jump_first(alloc, 0, 0)?;
        let block = Block {
            inputs: inputs(alloc, base, m)?,
            ops: Seq::new(alloc),
            exit: Exit::Goto(link(alloc, base, &jump)?),
        };
        let number = self.put(m, 0, block)?;
        Ok(Head { number, base, m })
    }

    /// The head goes on to this block.
    pub fn aim(&mut self, alloc: Global, head: Head, to: u64) -> Result<(), NoMem>
        requires { IsHead self.old.blocks head.number head.base head.m }
        ensures { OnOk result (self.new.blocks ≡ slice_set self.old.blocks head.number (numbered head.base head.m 0 false (Go (on_first to head.m)))) }
    {
        let jump = jump_first(alloc, to, head.m)?;
        let block = Block {
            inputs: inputs(alloc, head.base, head.m)?,
            ops: Seq::new(alloc),
            exit: Exit::Goto(link(alloc, head.base, &jump)?),
        };
        let at = head.number as usize;
        if at < self.blocks.len() {
            self.blocks.set(at, block);
        }
        Ok(())
    }
}

/// A block to which others go on before it is known where it goes.
#[derive(Clone, Copy, Debug, PartialEq, Eq)]
pub struct Head {
    pub number: u64,
    pub base: VarId,
    pub m: usize,
}
