// What has to be gone through again. Nothing rests on it: whether all that is asked holds is looked up at
// the end.
use crate::reader::{Place, Readers};
use ann_element::Element;
use ann_meets::News;
use ann_needs::{Plan, State};
use flow_graph::{Block, Graph, Op};
use rpy_base::{NoMem, Seq};
use rpy_tree::{FunId, SiteId};
use std::alloc::Global;

/// What a cell or a mark concerns besides those that read it.
#[derive(Clone, Copy, Debug, PartialEq, Eq)]
enum Concern {
    Start(FunId),
    Block(Place),
    /// The block that gives this result, which goes on from there by itself.
    Result(Place),
    /// Which classes have instances.
    Made,
    Contents(SiteId),
    Nobody,
}

/// What waits: starts of functions, blocks by their marks, graphs in which a block waits or the results of
/// one node are to be tied, and sites whose contents are to be put in. Then who reads what.
#[derive(Drop)]
pub struct Work {
    of_cells: Seq<Concern>,
    of_marks: Seq<Concern>,
    /// For each graph whether some node has several results.
    several: Seq<bool>,
    pub starts: Seq<FunId>,
    pub contents: Seq<SiteId>,
    pub awake: Seq<bool>,
    pub waiting: Seq<bool>,
    pub untied: Seq<bool>,
    /// Whether classes of sites may have become one.
    pub united: bool,
    pub readers: Readers,
    /// The blocks that call methods of instances.
    pub callers: Seq<Place>,
}

// ---- lists

fn put<T: Copy + Drop>(list: &mut Seq<T>, at: usize, item: T) {
    if at < list.len() {
        list.set(at, item);
    }
}

pub fn is_set(list: &Seq<bool>, at: usize) -> bool {
    match list.get(at) {
        None => false,
        Some(mark) => *mark,
    }
}

pub fn mark(list: &mut Seq<bool>, at: usize, to: bool) {
    if at < list.len() {
        list.set(at, to);
    }
}

fn unset(alloc: Global, count: usize, to: bool) -> Result<Seq<bool>, NoMem> {
    let mut list = Seq::new(alloc);
    for _mark in 0..count {
        list.push(to)?;
    }
    Ok(list)
}

fn nobody(alloc: Global, count: usize) -> Result<Seq<Concern>, NoMem> {
    let mut list = Seq::new(alloc);
    for _cell in 0..count {
        list.push(Concern::Nobody)?;
    }
    Ok(list)
}

/// A number of a function, class or site; there are fewer than 2^32 of each.
pub fn number_of(place: usize) -> u32 {
    if place <= 4294967295 {
        place as u32
    } else {
        4294967295
    }
}

// ---- whom cells and marks concern

fn concern_op(work: &mut Work, p: &Plan, place: Place, op: &Op) {
    let cell = p.variable(place.graph, op.result);
    let loose = p.loose(place.graph, op.result);
    put(&mut work.of_cells, cell, Concern::Result(place));
    put(&mut work.of_marks, loose, Concern::Result(place));
}

fn concern_ops(work: &mut Work, p: &Plan, place: Place, ops: &[Op]) {
    for op in ops {
        concern_op(work, p, place, op);
    }
}

fn concern_inputs(work: &mut Work, p: &Plan, place: Place, inputs: &[u64]) {
    for input in inputs {
        let cell = p.variable(place.graph, *input);
        let loose = p.loose(place.graph, *input);
        put(&mut work.of_cells, cell, Concern::Block(place));
        put(&mut work.of_marks, loose, Concern::Block(place));
    }
}

fn concern_block(work: &mut Work, p: &Plan, place: Place, block: &Block) {
    put(
        &mut work.of_marks,
        p.block(place.graph, place.block),
        Concern::Block(place),
    );
    concern_inputs(work, p, place, block.inputs.as_slice());
    concern_ops(work, p, place, block.ops.as_slice());
}

fn concern_blocks(work: &mut Work, p: &Plan, graph: usize, blocks: &[Block]) {
    for (number, block) in blocks.iter().enumerate() {
        let place = Place {
            graph,
            block: number as u64,
        };
        concern_block(work, p, place, block);
    }
}

fn concern_graphs(work: &mut Work, p: &Plan) {
    for (graph, of) in p.graphs.graphs.as_slice().iter().enumerate() {
        concern_blocks(work, p, graph, of.blocks.as_slice());
    }
}

fn concern_params(work: &mut Work, function: FunId, row: &[usize]) {
    for cell in row {
        put(&mut work.of_cells, *cell, Concern::Start(function));
    }
}

fn concern_functions(work: &mut Work, p: &Plan) {
    for (function, row) in p.places.params.as_slice().iter().enumerate() {
        let number = number_of(function);
        concern_params(work, number, row.as_slice());
        put(
            &mut work.of_marks,
            p.reached(number),
            Concern::Start(number),
        );
    }
}

fn concern_classes(work: &mut Work, p: &Plan) {
    for number in p.places.made.as_slice() {
        put(&mut work.of_marks, *number, Concern::Made);
    }
}

fn concern_sites(work: &mut Work, p: &Plan) {
    for (site, number) in p.places.loaded.as_slice().iter().enumerate() {
        put(
            &mut work.of_marks,
            *number,
            Concern::Contents(number_of(site)),
        );
    }
}

// ---- nodes with several results

fn several_ops(seen: &mut Seq<bool>, ops: &[Op]) -> bool {
    let mut several = false;
    for op in ops {
        if op.value {
            several = several || is_set(seen, op.node as usize);
            mark(seen, op.node as usize, true);
        }
    }
    several
}

fn several_blocks(seen: &mut Seq<bool>, blocks: &[Block]) -> bool {
    let mut several = false;
    for block in blocks {
        let here = several_ops(seen, block.ops.as_slice());
        several = several || here;
    }
    several
}

// No node has operations in two graphs.
fn several_of(alloc: Global, p: &Plan) -> Result<Seq<bool>, NoMem> {
    let mut seen = unset(alloc, p.places.unbound.len(), false)?;
    let mut list = Seq::new(alloc);
    for graph in p.graphs.graphs.as_slice() {
        list.push(several_blocks(&mut seen, graph.blocks.as_slice()))?;
    }
    Ok(list)
}

// ---- the whole

// The first cell of a variable: parts stand before it.
fn shared_of(p: &Plan, cells: usize) -> usize {
    let mut shared = cells;
    for row in p.places.variables.as_slice() {
        match row.get(0) {
            None => {}
            Some(first) => shared = shared.min(*first),
        }
    }
    shared
}

impl Work {
    /// Nothing waits.
    pub fn new(alloc: Global, p: &Plan, cells: usize, marks: usize) -> Result<Work, NoMem> {
        let graphs = p.graphs.graphs.len();
        let shared = shared_of(p, cells);
        let mut work = Work {
            of_cells: nobody(alloc, cells)?,
            of_marks: nobody(alloc, marks)?,
            several: several_of(alloc, p)?,
            starts: Seq::new(alloc),
            contents: Seq::new(alloc),
            awake: unset(alloc, marks, false)?,
            waiting: unset(alloc, graphs, false)?,
            untied: unset(alloc, graphs, false)?,
            united: false,
            readers: Readers::new(alloc, shared)?,
            callers: Seq::new(alloc),
        };
        concern_graphs(&mut work, p);
        concern_functions(&mut work, p);
        concern_classes(&mut work, p);
        concern_sites(&mut work, p);
        Ok(work)
    }

    /// A block has to be gone through again.
    pub fn wake(&mut self, p: &Plan, place: Place) {
        mark(&mut self.awake, p.block(place.graph, place.block), true);
        mark(&mut self.waiting, place.graph, true);
    }

    fn start(&mut self, function: FunId) -> Result<(), NoMem> {
        let again = match self.starts.as_slice() {
            [.., last] => *last == function,
            _ => false,
        };
        if again {
            Ok(())
        } else {
            self.starts.push(function)
        }
    }

    fn wake_readers(&mut self, p: &Plan, cell: usize) {
        for _reader in 0..u64::MAX {
            match self.readers.take(cell) {
                None => return,
                Some(place) => self.wake(p, place),
            }
        }
    }

    fn wake_callers(&mut self, p: &Plan) {
        for _caller in 0..u64::MAX {
            match self.callers.pop() {
                None => return,
                Some(place) => self.wake(p, place),
            }
        }
    }

    fn concern(&mut self, p: &Plan, concern: Concern, tying: bool) -> Result<(), NoMem> {
        match concern {
            Concern::Start(function) => self.start(function)?,
            Concern::Block(place) => self.wake(p, place),
            Concern::Result(place) => {
                if tying {
                    self.wake(p, place);
                }
                if is_set(&self.several, place.graph) {
                    mark(&mut self.untied, place.graph, true);
                }
            }
            Concern::Made => self.wake_callers(p),
            Concern::Contents(site) => self.contents.push(site)?,
            Concern::Nobody => {}
        }
        Ok(())
    }

    fn take_cell(&mut self, p: &Plan, s: &State, cell: usize, tying: bool) -> Result<(), NoMem> {
        match s.cells.get(cell) {
            None => {}
            Some(e) => self.united = self.united || has_site(e),
        }
        self.wake_readers(p, cell);
        match self.of_cells.get(cell) {
            None => Ok(()),
            Some(concern) => {
                let concern = *concern;
                self.concern(p, concern, tying)
            }
        }
    }

    fn take_mark(&mut self, p: &Plan, number: usize, tying: bool) -> Result<(), NoMem> {
        match self.of_marks.get(number) {
            None => Ok(()),
            Some(concern) => {
                let concern = *concern;
                self.concern(p, concern, tying)
            }
        }
    }

    fn take_cells(
        &mut self,
        p: &Plan,
        s: &State,
        cells: &[usize],
        tying: bool,
    ) -> Result<(), NoMem> {
        for cell in cells {
            self.take_cell(p, s, *cell, tying)?;
        }
        Ok(())
    }

    /// What has changed concerns others. Results of operations concern their blocks where they were tied.
    pub fn take(&mut self, p: &Plan, s: &State, news: &News, tying: bool) -> Result<(), NoMem> {
        self.take_cells(p, s, news.cells.as_slice(), tying)?;
        for number in news.marks.as_slice() {
            self.take_mark(p, *number, tying)?;
        }
        Ok(())
    }
}

fn has_site(e: &Element) -> bool {
    match e {
        Element::List(_, _) => true,
        Element::Dict(_, _) => true,
        Element::Tuple(_) => true,
        Element::Conflict(_, _) => true,
        _ => false,
    }
}

// ---- all again

fn wake_blocks(work: &mut Work, p: &Plan, graph: usize, count: usize) {
    for block in 0..count {
        let place = Place {
            graph,
            block: block as u64,
        };
        work.wake(p, place);
    }
}

fn start_all(work: &mut Work, p: &Plan) -> Result<(), NoMem> {
    for function in 0..p.callees.len() {
        work.starts.push(number_of(function))?;
    }
    Ok(())
}

fn load_all(work: &mut Work, p: &Plan) -> Result<(), NoMem> {
    for site in 0..p.sites.len() {
        work.contents.push(number_of(site))?;
    }
    Ok(())
}

/// All has to be gone through again.
pub fn wake_all(work: &mut Work, p: &Plan) -> Result<(), NoMem> {
    start_all(work, p)?;
    load_all(work, p)?;
    for (graph, of) in p.graphs.graphs.as_slice().iter().enumerate() {
        wake_blocks(work, p, graph, of.blocks.len());
        mark(&mut work.untied, graph, true);
    }
    Ok(())
}
