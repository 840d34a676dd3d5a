// What the names of a list of events stand for.
ghost use Rattle.std.specs.Prelude.{◌≡◌, [], IfOk, OnOk, length};
ghost use Rattle.names_found.specs.Finder as spec;

use crate::locals::Locals;
use crate::part::{Part, is_dict, is_part, part_under, sites_of, take_parts, taken, taken_besides};
use crate::step::{Called, SiteAt, Step};
use names_bound::base::further_stand;
use names_bound::fault::fault_if;
use names_bound::known::is_fixed;
use names_bound::{Fault, FaultKind, Scopes, Stand, lesser};
use rpy_base::{NoMem, Seq};
use rpy_nodes::words::SPLIT;
use rpy_nodes::{Act, Event, NameId};
use rpy_tree::{Builtin, NodeId};
use std::alloc::Global;
use std::mem;

/// Where events stand: the file, the place in the module, and whether in the body of a function.
#[derive(Clone, Copy, Debug, PartialEq, Eq)]
pub struct Place {
    pub file: usize,
    pub place: usize,
    pub body: bool,
}

/// The parts that wait, the steps so far, the class that is named in the head of a clause, all sites
/// so far, and the least fault.
#[derive(Drop)]
pub struct Finder {
    pub parts: Seq<Part>,
    pub steps: Seq<Step>,
    pub caught: Stand,
    pub sites: Seq<SiteAt>,
    pub fault: Option<Fault>,
}

/// What an event stands for, as a part and as a callee.
#[derive(Clone, Copy, Debug, PartialEq, Eq)]
pub struct Seen {
    pub part: Part,
    pub called: Called,
}

fn what_is_seen(stand: Stand, late: bool, makes: bool, called: Called) -> Seen
    ensures { result ≡ spec.seen stand late makes called }
{
    Seen {
        part: Part { stand, late, makes },
        called,
    }
}

fn nothing() -> Seen
    ensures { result ≡ spec.nothing }
{
    what_is_seen(Stand::Nothing, false, false, Called::Plain)
}

// The number of a local, in the body of a function.
fn local_in(locals: &Locals, at: Place, name: NameId) -> Option<usize>
    ensures { result ≡ spec.local_in locals.now at name }
{
    if at.body { locals.number(name) } else { None }
}

fn name_seen(scopes: &Scopes, locals: &Locals, at: Place, name: NameId) -> Seen
    ensures { result ≡ spec.name_seen scopes.now locals.now at name }
{
    match local_in(locals, at, name) {
        Some(local) => what_is_seen(Stand::Local(local), false, false, Called::Plain),
        None => what_is_seen(
            scopes.global(at.file, name),
            scopes.is_late(at.file, at.place, name),
            false,
            Called::Plain,
        ),
    }
}

// Whether a name of this very module is bound only later.
fn is_late_in(scopes: &Scopes, at: Place, of: Stand, name: NameId) -> bool
    ensures { result ≡ spec.is_late_in scopes.now at of name }
{
    match of {
        Stand::Module(file) => file == at.file && scopes.is_late(at.file, at.place, name),
        _ => false,
    }
}

// A method whose call makes a list.
fn makes_list(stand: Stand, name: NameId) -> bool
    ensures { result ≡ spec.makes_list stand name }
{
    match stand {
        Stand::Nothing => SPLIT <= name && name < SPLIT + 7,
        _ => false,
    }
}

fn attr_seen(scopes: &Scopes, at: Place, base: Part, name: NameId) -> Seen
    ensures { result ≡ spec.attr_seen scopes.now at base name }
{
    let stand = scopes.member(base.stand, name);
    what_is_seen(
        stand,
        base.late || is_late_in(scopes, at, base.stand, name),
        makes_list(stand, name),
        Called::Plain,
    )
}

fn builtin_called(builtin: Builtin, count: usize) -> Called
    ensures { result ≡ spec.builtin_called builtin count }
{
    match builtin {
        Builtin::Range => {
            if count == 3 {
                Called::Range
            } else {
                Called::Plain
            }
        }
        Builtin::Xrange => {
            if count == 3 {
                Called::Range
            } else {
                Called::Plain
            }
        }
        Builtin::OsWrite => {
            if count == 0 {
                Called::Plain
            } else {
                Called::Write
            }
        }
        _ => Called::Plain,
    }
}

fn call_seen(callee: Part, count: usize) -> Seen
    ensures { result ≡ spec.call_seen callee count }
{
    match callee.stand {
        Stand::Builtin(builtin) => what_is_seen(
            Stand::Nothing,
            false,
            false,
            builtin_called(builtin, count),
        ),
        _ => {
            if callee.makes {
                what_is_seen(Stand::Nothing, false, false, Called::Makes)
            } else {
                nothing()
            }
        }
    }
}

fn bind_seen(local: Option<usize>) -> Seen
    ensures { result ≡ spec.bind_seen local }
{
    match local {
        None => nothing(),
        Some(local) => what_is_seen(Stand::Local(local), false, false, Called::Plain),
    }
}

// The class at whose end an act stands in the head of a clause.
fn class_seen(caught: Stand) -> Seen
    ensures { result ≡ spec.class_seen caught }
{
    what_is_seen(caught, false, false, Called::Plain)
}

// What an act stands for after these parts, and after the names of this class.
fn act_seen(
    scopes: &Scopes,
    locals: &Locals,
    at: Place,
    parts: &[Part],
    caught: Stand,
    act: Act,
) -> Seen
    ensures { result ≡ spec.act_seen scopes.now locals.now at parts.now caught act }
{
    match act {
        Act::Name(name) => name_seen(scopes, locals, at, name),
        Act::Attr(name) => attr_seen(scopes, at, part_under(parts, 0), name),
        Act::Call(count) => call_seen(part_under(parts, count), count),
        Act::Bind(name) => bind_seen(local_in(locals, at, name)),
        Act::CaughtEnd => class_seen(caught),
        Act::Catch(name) => bind_seen(local_in(locals, at, name)),
        _ => nothing(),
    }
}

fn is_unknown(stand: Stand) -> bool
    ensures { result ≡ spec.is_unknown stand }
{
    match stand {
        Stand::Unknown => true,
        _ => false,
    }
}

/// Whether a class is `Exception` or below it.
pub fn is_exception(scopes: &Scopes, class: usize) -> bool
    ensures { result ≡ spec.is_exception scopes.now class }
{
    scopes.is_below(class, 0)
}

// Whether a class may stand in the head of a clause.
fn is_caught(scopes: &Scopes, stand: Stand) -> bool
    ensures { result ≡ spec.is_caught scopes.now stand }
{
    match stand {
        Stand::Missing => true,
        Stand::Class(class) => is_exception(scopes, class),
        _ => false,
    }
}

// The fault of an act that stands for this.
fn act_fault(scopes: &Scopes, caught: Stand, node: NodeId, act: Act, stand: Stand) -> Option<Fault>
    ensures { result ≡ spec.act_fault scopes.now caught node act stand }
{
    match act {
        Act::Name(_) => fault_if(is_unknown(stand), node, FaultKind::Unknown),
        Act::Attr(_) => fault_if(is_unknown(stand), node, FaultKind::Unknown),
        Act::Bind(name) => fault_if(is_fixed(name), node, FaultKind::Twice),
        Act::Catch(name) => fault_if(is_fixed(name), node, FaultKind::Twice),
        Act::CaughtEnd => fault_if(!is_caught(scopes, caught), node, FaultKind::Unknown),
        _ => None,
    }
}

// The class that is named in the head of a clause, after an act.
fn act_caught(scopes: &Scopes, locals: &Locals, at: Place, caught: Stand, act: Act) -> Stand
    ensures { result ≡ spec.act_caught scopes.now locals.now at caught act }
{
    match act {
        Act::Caught(name) => name_seen(scopes, locals, at, name).part.stand,
        Act::CaughtOf(name) => further_stand(scopes, caught, name),
        _ => caught,
    }
}

// How many sites an act has.
fn site_count(act: Act, called: Called) -> usize
    ensures { result ≡ spec.site_count act called }
{
    match called {
        Called::Makes => 1,
        _ => sites_of(act),
    }
}

#[tactic(auto, using(crate::proofs::Parts::sites_turn))]
fn add_sites(sites: &mut Seq<SiteAt>, site: SiteAt, count: usize) -> Result<(), NoMem>
    ensures { OnOk result (sites.new ≡ spec.add_sites count site sites.old) }
{
    for _turn in 0..count {
        sites.push(site)?;
    }
    Ok(())
}

fn add_part(parts: &mut Seq<Part>, act: Act, part: Part) -> Result<(), NoMem>
    ensures { OnOk result (parts.new ≡ spec.add_part act part parts.old) }
{
    take_parts(parts, taken(act));
    take_parts(parts, taken_besides(act));
    if is_part(act) {
        parts.push(part)?;
    }
    Ok(())
}

impl Finder {
    pub fn new(alloc: Global, entry: SiteAt) -> Result<Finder, NoMem>
        ensures { IfOk result (λ f. f ≡ spec.start entry) }
    {
        let mut sites = Seq::new(alloc);
        sites.push(entry)?;
        Ok(Finder {
            parts: Seq::new(alloc),
            steps: Seq::new(alloc),
            caught: Stand::Nothing,
            sites,
            fault: None,
        })
    }

    pub fn add_fault(&mut self, fault: Option<Fault>)
        ensures { self.new ≡ spec.add_fault fault self.old }
    {
        self.fault = lesser(self.fault, fault);
    }

    // An event of which this is seen.
    fn add_seen(&mut self, event: Event, seen: Seen) -> Result<(), NoMem>
        ensures { OnOk result (self.new ≡ spec.add_seen event seen self.old) }
    {
        let site = self.sites.len();
        self.steps.push(Step {
            node: event.node,
            act: event.act,
            stand: seen.part.stand,
            late: seen.part.late,
            called: seen.called,
            site,
        })?;
        let at = SiteAt {
            node: event.node,
            dict: is_dict(event.act),
        };
        add_sites(&mut self.sites, at, site_count(event.act, seen.called))?;
        add_part(&mut self.parts, event.act, seen.part)
    }

    fn find_event(
        &mut self,
        scopes: &Scopes,
        locals: &Locals,
        at: Place,
        event: Event,
    ) -> Result<(), NoMem>
        ensures { OnOk result (self.new ≡ spec.find_event scopes.now locals.now at event self.old) }
    {
        self.caught = act_caught(scopes, locals, at, self.caught, event.act);
        let parts = self.parts.as_slice();
        let seen = act_seen(scopes, locals, at, parts, self.caught, event.act);
        let fault = act_fault(scopes, self.caught, event.node, event.act, seen.part.stand);
        self.add_fault(fault);
        self.add_seen(event, seen)
    }

    fn find_events(
        &mut self,
        scopes: &Scopes,
        locals: &Locals,
        at: Place,
        events: &[Event],
    ) -> Result<(), NoMem>
        ensures { OnOk result (self.new ≡ spec.find_events scopes.now locals.now at events.now self.old) }
    {
        for event in events {
            self.find_event(scopes, locals, at, *event)?;
        }
        Ok(())
    }

    // The steps so far, which are cut off.
    fn cut(&mut self, alloc: Global) -> Seq<Step>
        ensures steps { result ≡ self.old.steps }
        ensures finder { self.new ≡ spec.cut self.old }
    {
        self.parts = Seq::new(alloc);
        mem::replace(&mut self.steps, Seq::new(alloc))
    }

    /// The steps of a list of events.
    pub fn steps_of(
        &mut self,
        alloc: Global,
        scopes: &Scopes,
        locals: &Locals,
        at: Place,
        events: &[Event],
    ) -> Result<Seq<Step>, NoMem>
        ensures steps { IfOk result (λ steps. steps ≡ (spec.steps_of scopes.now locals.now at events.now self.old).0) }
        ensures finder { OnOk result (self.new ≡ (spec.steps_of scopes.now locals.now at events.now self.old).1) }
    {
        self.find_events(scopes, locals, at, events)?;
        Ok(self.cut(alloc))
    }
}
