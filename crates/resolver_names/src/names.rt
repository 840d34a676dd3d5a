// What the names of a module stand for.
ghost use Rattle.std.specs.Prelude.{◌≡◌, ℕ, ◌+◌, ◌%◌, ◌^◌, ◌≤◌, [], true, IfOk};
ghost use Rattle.std.specs.Option.{option_copied};
ghost use Rattle.rpy_meaning.specs.Resolved as meaning;
ghost use Rattle.resolved_laws.specs.Meant.{clause_at};
ghost use Rattle.resolver_names.specs.Forms as form;
ghost use Rattle.resolver_names.specs.Nodes.{values, one_at};
ghost use Rattle.resolver_names.specs.Told.{Knows, the_names, tree_of};

use crate::index::Index;
use rpy_base::{NoMem, Seq, Text};
use rpy_copies::copy_const;
use rpy_meaning::RowOp;
use rpy_resolved::Expr;
use rpy_tree::{ClassId, ClauseInfo, Const, NodeId, Program, SiteId, Use};
use std::alloc::Global;

/// The program, what it says of its nodes, the number of a module's first node, and how many nodes
/// stand before it.
#[derive(Clone, Copy)]
pub struct Names<'a> {
    pub program: &'a Program,
    pub index: &'a Index,
    pub first: NodeId,
    pub before: usize,
}

// The step of a range, where this is its constant.
fn step_in(of: &Use) -> i64
    ensures { result ≡ form.step_in of.now }
{
    match of {
        Use::Value(Const::Word(step)) => *step,
        _ => 1,
    }
}

impl<'a> Names<'a> {
    /// The number of a module's node in the program, as trees have it.
    pub fn node(&self, node: NodeId) -> NodeId
        ensures { result ≡ (self.now.first + node) % 2 ^ 32 }
    {
        self.first.wrapping_add(node)
    }

    // The place of a module's node among all nodes.
    #[tactic(auto, using(crate::proofs::Telling::few_before))]
    fn place(&self, node: NodeId) -> usize
        requires { Knows self.now }
        ensures { result ≡ self.now.before + node }
    {
        self.before + node as usize
    }

    /// What the node's name stands for.
    #[tactic(auto, using(crate::proofs::Telling::nothing_is))]
    pub fn meant(&self, node: NodeId) -> &Use
        requires { Knows self.now }
        ensures { result.now ≡ (the_names self.now).meant node }
    {
        match self.program.uses.get(self.place(node)) {
            None => self.index.nothing(),
            Some(of) => of,
        }
    }

    /// The class that the node's name stands for.
    pub fn class(&self, node: NodeId) -> Option<ClassId>
        requires { Knows self.now }
        ensures { result ≡ meaning.class_named (the_names self.now) ((the_names self.now).meant node) }
    {
        match self.meant(node) {
            Use::Class(class) => Some(*class),
            _ => None,
        }
    }

    /// The site of what a node makes, where it makes something.
    #[tactic(auto, using(crate::proofs::Telling::site_is))]
    pub fn site(&self, node: NodeId) -> Option<SiteId>
        requires { Knows self.now }
        ensures { result ≡ (the_names self.now).site node }
    {
        self.index.site(self.place(node))
    }

    /// The site of what a node makes.
    pub fn made(&self, node: NodeId) -> SiteId
        requires { Knows self.now }
        ensures { result ≡ meaning.made_at (the_names self.now) node }
    {
        self.site(node).unwrap_or(0)
    }

    /// The site of a node's walk.
    #[tactic(auto, using(crate::proofs::Telling::walk_is))]
    pub fn walk(&self, node: NodeId) -> SiteId
        requires { Knows self.now }
        ensures { result ≡ (the_names self.now).walk node }
    {
        self.index.walk(self.place(node)).unwrap_or(0)
    }

    /// The step of a range, which is the constant that ends at this node.
    #[tactic(auto, using(crate::proofs::Telling::step_is))]
    pub fn step(&self, node: NodeId) -> i64
        requires { Knows self.now }
        ensures { result ≡ meaning.step_of (the_names self.now) ((the_names self.now).constant node) }
    {
        step_in(self.meant(node))
    }

    #[tactic(auto, using(crate::proofs::Telling::clause_none, crate::proofs::Telling::clause_some))]
    pub fn clause(&self, node: NodeId) -> Option<&ClauseInfo>
        requires { Knows self.now }
        ensures { option_copied result ≡ clause_at self.now.program.now.clauses (self.now.before + node) }
    {
        match self.index.clause(self.place(node)) {
            None => None,
            Some(place) => self.program.clauses.get(place as usize),
        }
    }

    #[tactic(auto, using(crate::proofs::Telling::method_is))]
    pub fn is_method(&self, name: &Text) -> bool
        requires { Knows self.now }
        ensures { result ≡ (the_names self.now).is_method name.now }
    {
        self.index.is_method(name)
    }
}

/// An operation without operands.
pub fn leaf(alloc: Global, node: NodeId, value: bool, op: RowOp) -> Expr
    ensures { result ≡ Expr.Apply node value op [] }
{
    Expr::Apply(node, value, op, Seq::new(alloc))
}

/// What no program that is accepted evaluates: a module, a class or a builtin function as a value.
pub fn meaningless(alloc: Global, node: NodeId) -> Expr
    ensures { result ≡ Expr.Apply node true RowOp.Copy [] }
{
    leaf(alloc, node, true, RowOp::Copy)
}

/// The value of a name that stands for this.
pub fn named_value(alloc: Global, names: &Names<'_>, node: NodeId, of: &Use) -> Result<Expr, NoMem>
    ensures tree { IfOk result (λ made. tree_of names.now made ≡ meaning.named_value (the_names names.now) of.now) }
    ensures nodes { IfOk result (λ made. (k : ℕ) → values k made ≤ one_at k node) }
{
    match of {
        Use::Local(local) => Ok(Expr::Local(node, *local)),
        Use::Function(function) => Ok(Expr::Constant(node, Const::Function(*function))),
        Use::Value(value) => Ok(Expr::Constant(node, copy_const(alloc, value)?)),
        _ => Ok(meaningless(alloc, node)),
    }
}
