// A program with its graphs and its classes, and where each of its parts stands.
ghost use Rattle.std.specs.Prelude.{◌≡◌, ◌+◌, IfOk, slice_get};
ghost use Rattle.ann_rules.specs.Asks.{defaults};
ghost use Rattle.ann_needs.specs.View as spec;

use class_desc::Classes;
use flow_graph::Graphs;
use rpy_base::{NoMem, Seq, Text};
use rpy_tree::{ClassId, Const, FunId, Site, SiteId};

/// A function's parameters, each with its default; a starred one stands behind them.
#[derive(Drop)]
pub struct Callee {
    pub defaults: Seq<Option<Const>>,
    pub star: bool,
}

/// The numbers of cells and marks. Cells: the variables of each graph, the parameters and the results of
/// functions, the attributes that each class declares, and what the lists or dicts of each site hold,
/// with the keys. Marks: blocks, reached functions, made classes, sites whose prebuilt contents are
/// there, variables that may be unbound, and nodes that read one.
#[derive(Drop)]
pub struct Places {
    pub variables: Seq<Seq<usize>>,
    pub params: Seq<Seq<usize>>,
    pub results: Seq<usize>,
    pub attributes: Seq<Seq<(Text, usize)>>,
    pub items: Seq<usize>,
    pub keys: Seq<usize>,
    pub blocks: Seq<Seq<usize>>,
    pub reached: Seq<usize>,
    pub made: Seq<usize>,
    pub loaded: Seq<usize>,
    pub loose: Seq<Seq<usize>>,
    pub unbound: Seq<usize>,
}

/// What is asked of an annotation is read from this. A node has a mark where it is a call with a string
/// literal as its one argument.
#[derive(Drop)]
pub struct Plan {
    pub classes: Classes,
    pub callees: Seq<Callee>,
    pub sites: Seq<Site>,
    pub graphs: Graphs,
    pub entry: FunId,
    pub literals: Seq<bool>,
    pub places: Places,
}

/// Where what does not exist stands.
pub const NOWHERE: usize = 18446744073709551615;

fn place(row: &[usize], at: usize) -> usize
    ensures { result ≡ spec.place row.now at }
{
    match row.get(at) {
        None => NOWHERE,
        Some(number) => *number,
    }
}

fn place_in(rows: &[Seq<usize>], row: usize, at: usize) -> usize
    ensures { result ≡ spec.place_in rows.now row at }
{
    match rows.get(row) {
        None => NOWHERE,
        Some(row) => place(row.as_slice(), at),
    }
}

fn named(row: &[(Text, usize)], name: &Text) -> usize
    ensures { result ≡ spec.named name.now row.now }
{
    for entry in row {
        if entry.0 == *name {
            return entry.1;
        }
    }
    NOWHERE
}

/// The number after another one.
pub fn next(number: usize) -> Result<usize, NoMem>
    ensures { IfOk result (λ after. after ≡ number + 1) }
{
    match number.checked_add(1) {
        None => Err(NoMem),
        Some(after) => Ok(after),
    }
}

impl Plan {
    pub fn variable(&self, graph: usize, variable: u64) -> usize
        ensures { result ≡ (spec.whole self.now).places.variable graph variable }
    {
        place_in(self.places.variables.as_slice(), graph, variable as usize)
    }

    pub fn param(&self, function: FunId, at: usize) -> usize
        ensures { result ≡ (spec.whole self.now).places.param function at }
    {
        place_in(self.places.params.as_slice(), function as usize, at)
    }

    pub fn result(&self, function: FunId) -> usize
        ensures { result ≡ (spec.whole self.now).places.result function }
    {
        place(self.places.results.as_slice(), function as usize)
    }

    pub fn attribute(&self, home: ClassId, name: &Text) -> usize
        ensures { result ≡ (spec.whole self.now).places.attribute home name.now }
    {
        match self.places.attributes.get(home as usize) {
            None => NOWHERE,
            Some(row) => named(row.as_slice(), name),
        }
    }

    pub fn item(&self, site: SiteId) -> usize
        ensures { result ≡ (spec.whole self.now).places.item site }
    {
        place(self.places.items.as_slice(), site as usize)
    }

    pub fn key(&self, site: SiteId) -> usize
        ensures { result ≡ (spec.whole self.now).places.key site }
    {
        place(self.places.keys.as_slice(), site as usize)
    }

    pub fn block(&self, graph: usize, block: u64) -> usize
        ensures { result ≡ (spec.whole self.now).places.block graph block }
    {
        place_in(self.places.blocks.as_slice(), graph, block as usize)
    }

    pub fn reached(&self, function: FunId) -> usize
        ensures { result ≡ (spec.whole self.now).places.reached function }
    {
        place(self.places.reached.as_slice(), function as usize)
    }

    pub fn made(&self, class: ClassId) -> usize
        ensures { result ≡ (spec.whole self.now).places.made class }
    {
        place(self.places.made.as_slice(), class as usize)
    }

    pub fn loaded(&self, site: SiteId) -> usize
        ensures { result ≡ (spec.whole self.now).places.loaded site }
    {
        place(self.places.loaded.as_slice(), site as usize)
    }

    pub fn loose(&self, graph: usize, variable: u64) -> usize
        ensures { result ≡ (spec.whole self.now).places.loose graph variable }
    {
        place_in(self.places.loose.as_slice(), graph, variable as usize)
    }

    pub fn unbound(&self, node: u32) -> usize
        ensures { result ≡ (spec.whole self.now).places.unbound node }
    {
        place(self.places.unbound.as_slice(), node as usize)
    }

    /// The parameters of a function, each with its default.
    #[tactic(auto, using(crate::proofs::Read::get_callee))]
    pub fn defaults(&self, function: FunId) -> &[Option<Const>]
        ensures { result.now ≡ defaults (spec.whole self.now) function }
    {
        match self.callees.get(function as usize) {
            None => &[],
            Some(callee) => callee.defaults.as_slice(),
        }
    }

    /// Whether a call at a node has a string literal as its one argument.
    pub fn has_literal(&self, node: u32) -> bool
        ensures { result ≡ (spec.whole self.now).has_literal node }
    {
        match self.literals.get(node as usize) {
            None => false,
            Some(mark) => *mark,
        }
    }
}
