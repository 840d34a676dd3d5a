// What a program says of its nodes and names, found at once.
ghost use Rattle.std.specs.Prelude.{◌≡◌, ◌<◌, ◌+◌, [], length, IfOk, OnOk};
ghost use Rattle.resolver_names.specs.Tables as spec;
ghost use Rattle.resolver_names.specs.Told.{IsTold, look, has};

use indexmap::IndexSet;
use rpy_base::{NoMem, Seq, Text};
use rpy_tree::{ClassInfo, ClauseInfo, FunId, NodeId, Program, Site, Use};
use std::alloc::Global;
use std::marker::Model;

/// Names, which contracts see as a list in which none stands twice.
#[derive(Drop)]
pub struct Known {
    set: IndexSet<Text>,
}

impl Model for Known {
    ghost use Rattle.std.specs.Prelude.{List, ℕ};
    ghost use Rattle.std.specs.Coded.{coded_list, coded_ℕ};

    ghost Value = { List (List ℕ) };

    ghost coded = { coded_list (coded_list coded_ℕ) };

    ghost view = { λ n. n.set.keys };
}

impl Known {
    fn new(alloc: Global) -> Known
        ensures { result ≡ [] }
    {
        Known {
            set: IndexSet::new(alloc),
        }
    }

    // A name is added, where it is not there yet.
    fn add(&mut self, alloc: Global, name: &[u8]) -> Result<(), NoMem>
        ensures { OnOk result (self.new ≡ spec.with_name self.old name.now) }
    {
        let copy = Text::from_bytes(alloc, name)?;
        self.set.insert(copy)?;
        Ok(())
    }

    fn has(&self, name: &Text) -> bool
        ensures { result ≡ has self.now name.now }
    {
        self.set.contains(name)
    }
}

// The names of the methods of strings, lists and dicts.
#[tactic(auto, unfolding(crate::specs::Tables::known_methods))]
fn known_methods() -> &'static [u8]
    ensures { result.now ≡ spec.known_methods }
{
    b"join split find startswith endswith strip isdigit isalpha isspace append insert extend reverse pop get keys iterkeys values itervalues items iteritems ".as_slice()
}

/// By nodes the number of the site that makes something there, of that of a walk, and the place of
/// the clause; and the names of all methods.
#[derive(Drop)]
pub struct Index {
    pub sites: Seq<Option<u32>>,
    pub walks: Seq<Option<u32>>,
    pub clauses: Seq<Option<u32>>,
    pub methods: Known,
    pub nothing: Use,
}

fn look_at(table: &Seq<Option<u32>>, node: usize) -> Option<u32>
    ensures { result ≡ look table.now node }
{
    match table.get(node) {
        None => None,
        Some(number) => *number,
    }
}

// A table with a place for the node.
#[tactic(auto, using(crate::proofs::Looking::grown_step, crate::proofs::Looking::grown_end))]
fn grow(table: &mut Seq<Option<u32>>, node: usize) -> Result<(), NoMem>
    ensures long { OnOk result (node < length table.new) }
    ensures grown { OnOk result (table.new ≡ spec.grown node table.old) }
{
    while table.len() <= node {
        table.push(None)?;
    }
    Ok(())
}

fn put(table: &mut Seq<Option<u32>>, node: usize, number: u32) -> Result<(), NoMem>
    ensures { OnOk result (table.new ≡ spec.put node number table.old) }
{
    grow(table, node)?;
    table.set(node, Some(number));
    Ok(())
}

fn put_first(table: &mut Seq<Option<u32>>, node: NodeId, number: u32) -> Result<(), NoMem>
    ensures { OnOk result (table.new ≡ spec.put_first node number table.old) }
{
    let node = node as usize;
    match look_at(table, node) {
        None => put(table, node, number),
        Some(_) => Ok(()),
    }
}

fn put_largest(table: &mut Seq<Option<u32>>, node: NodeId, number: u32) -> Result<(), NoMem>
    ensures { OnOk result (table.new ≡ spec.put_largest node number table.old) }
{
    let node = node as usize;
    let before = look_at(table, node).unwrap_or(0);
    put(table, node, larger(before, number))
}

fn larger(a: u32, b: u32) -> u32
    ensures { result ≡ spec.larger a b }
{
    if a < b { b } else { a }
}

// The next number. What is more than a u32 counts has none.
fn next(number: u32) -> Result<u32, NoMem>
    ensures { IfOk result (λ next. next ≡ number + 1) }
{
    match number.checked_add(1) {
        None => Err(NoMem),
        Some(next) => Ok(next),
    }
}

fn put_site(table: &mut Seq<Option<u32>>, site: &Site, number: u32) -> Result<(), NoMem>
    ensures { OnOk result (table.new ≡ spec.put_site site.now number table.old) }
{
    if number > 0 {
        put_first(table, site.node, number)
    } else {
        Ok(())
    }
}

fn put_walk(table: &mut Seq<Option<u32>>, site: &Site, number: u32) -> Result<(), NoMem>
    ensures { OnOk result (table.new ≡ spec.put_walk site.now number table.old) }
{
    if number > 0 {
        put_largest(table, site.node, number)
    } else {
        Ok(())
    }
}

fn put_sites(table: &mut Seq<Option<u32>>, sites: &[Site]) -> Result<(), NoMem>
    ensures { OnOk result (table.new ≡ spec.put_sites 0 sites.now table.old) }
{
    let mut number: u32 = 0;
    for site in sites {
        put_site(table, site, number)?;
        number = next(number)?;
    }
    Ok(())
}

// A node has at most two sites: the last of them is that of its walk.
fn put_walks(table: &mut Seq<Option<u32>>, sites: &[Site]) -> Result<(), NoMem>
    ensures { OnOk result (table.new ≡ spec.put_walks 0 sites.now table.old) }
{
    let mut number: u32 = 0;
    for site in sites {
        put_walk(table, site, number)?;
        number = next(number)?;
    }
    Ok(())
}

fn put_clauses(table: &mut Seq<Option<u32>>, clauses: &[ClauseInfo]) -> Result<(), NoMem>
    ensures { OnOk result (table.new ≡ spec.put_clauses 0 clauses.now table.old) }
{
    let mut place: u32 = 0;
    for clause in clauses {
        put_first(table, clause.node, place)?;
        place = next(place)?;
    }
    Ok(())
}

// Each word ends at a space.
fn add_words(alloc: Global, methods: &mut Known, words: &[u8]) -> Result<(), NoMem>
    ensures { OnOk result (methods.new ≡ spec.words_onto words.now [] methods.old) }
{
    let mut word = Text::new(alloc);
    for byte in words {
        if *byte == b' ' {
            methods.add(alloc, word.bytes())?;
            word = Text::new(alloc);
        } else {
            word.push(*byte)?;
        }
    }
    Ok(())
}

fn add_methods(alloc: Global, methods: &mut Known, of: &[(Text, FunId)]) -> Result<(), NoMem>
    ensures { OnOk result (methods.new ≡ spec.methods_onto of.now methods.old) }
{
    for method in of {
        methods.add(alloc, method.0.bytes())?;
    }
    Ok(())
}

fn add_classes(alloc: Global, methods: &mut Known, classes: &[ClassInfo]) -> Result<(), NoMem>
    ensures { OnOk result (methods.new ≡ spec.classes_onto classes.now methods.old) }
{
    for class in classes {
        add_methods(alloc, methods, class.methods.as_slice())?;
    }
    Ok(())
}

impl Index {
    #[tactic(auto, using(crate::proofs::Telling::told))]
    pub fn new(alloc: Global, program: &Program) -> Result<Index, NoMem>
        ensures { IfOk result (λ index. IsTold program.now index) }
    {
        let mut methods = Known::new(alloc);
        add_words(alloc, &mut methods, known_methods())?;
        add_classes(alloc, &mut methods, program.classes.as_slice())?;
        let mut sites = Seq::new(alloc);
        put_sites(&mut sites, program.sites.as_slice())?;
        let mut walks = Seq::new(alloc);
        put_walks(&mut walks, program.sites.as_slice())?;
        let mut clauses = Seq::new(alloc);
        put_clauses(&mut clauses, program.clauses.as_slice())?;
        Ok(Index {
            sites,
            walks,
            clauses,
            methods,
            nothing: Use::Nothing,
        })
    }

    /// The number of the site of what a node makes.
    pub fn site(&self, node: usize) -> Option<u32>
        ensures { result ≡ look self.now.sites node }
    {
        look_at(&self.sites, node)
    }

    /// The number of the site of a node's walk.
    pub fn walk(&self, node: usize) -> Option<u32>
        ensures { result ≡ look self.now.walks node }
    {
        look_at(&self.walks, node)
    }

    /// The place of a clause among the clauses of the program.
    pub fn clause(&self, node: usize) -> Option<u32>
        ensures { result ≡ look self.now.clauses node }
    {
        look_at(&self.clauses, node)
    }

    pub fn nothing(&self) -> &Use
        ensures { result.now ≡ self.now.nothing }
    {
        &self.nothing
    }

    /// Whether some class, or strings, lists or dicts, have a method of this name.
    pub fn is_method(&self, name: &Text) -> bool
        ensures { result ≡ has self.now.methods name.now }
    {
        self.methods.has(name)
    }
}
