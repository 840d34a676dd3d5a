// The clauses of the functions of a program.
ghost use Rattle.std.specs.Prelude.{◌≡◌, IfOk, OnOk};
ghost use Rattle.rpy_names.specs.Clauses as spec;

use names_bound::Stand;
use names_found::{Found, Step};
use names_value::machine::narrow;
use rpy_base::{NoMem, Seq};
use rpy_nodes::Act;
use rpy_tree::{ClassId, ClauseInfo, NodeId};
use std::alloc::Global;
use std::mem;

/// The clauses so far, and the classes and the local in the head that has not ended.
#[derive(Drop)]
pub struct Heads {
    pub clauses: Seq<ClauseInfo>,
    pub classes: Seq<ClassId>,
    pub local: Option<u32>,
}

fn local_of(stand: Stand) -> Option<u32>
    ensures { result ≡ spec.local_of stand }
{
    match stand {
        Stand::Local(local) => Some(narrow(local)),
        _ => None,
    }
}

fn add_class(classes: &mut Seq<ClassId>, stand: Stand) -> Result<(), NoMem>
    ensures { OnOk result (classes.new ≡ spec.with_class stand classes.old) }
{
    match stand {
        Stand::Class(class) => classes.push(narrow(class)),
        _ => Ok(()),
    }
}

fn no_heads(alloc: Global) -> Heads
    ensures { result ≡ spec.no_heads }
{
    Heads {
        clauses: Seq::new(alloc),
        classes: Seq::new(alloc),
        local: None,
    }
}

impl Heads {
    fn end_head(&mut self, alloc: Global, node: NodeId) -> Result<(), NoMem>
        ensures { OnOk result (self.new ≡ spec.end_head node self.old) }
    {
        let classes = mem::replace(&mut self.classes, Seq::new(alloc));
        let local = self.local;
        self.local = None;
        self.clauses.push(ClauseInfo {
            node,
            classes,
            local,
        })
    }

    fn see_step(&mut self, alloc: Global, step: &Step) -> Result<(), NoMem>
        ensures { OnOk result (self.new ≡ spec.see_step step.now self.old) }
    {
        match step.act {
            Act::CaughtEnd => add_class(&mut self.classes, step.stand),
            Act::Catch(_) => {
                self.local = local_of(step.stand);
                Ok(())
            }
            Act::Clause => self.end_head(alloc, step.node),
            _ => Ok(()),
        }
    }

    fn see_steps(&mut self, alloc: Global, steps: &[Step]) -> Result<(), NoMem>
        ensures { OnOk result (self.new ≡ spec.see_steps steps.now self.old) }
    {
        for step in steps {
            self.see_step(alloc, step)?;
        }
        Ok(())
    }

    fn see_units(&mut self, alloc: Global, found: &[Found]) -> Result<(), NoMem>
        ensures { OnOk result (self.new ≡ spec.see_units found.now self.old) }
    {
        for unit in found {
            self.see_steps(alloc, unit.body.as_slice())?;
        }
        Ok(())
    }
}

/// The clauses, in node order.
pub fn clause_infos(alloc: Global, found: &[Found]) -> Result<Seq<ClauseInfo>, NoMem>
    ensures { IfOk result (λ clauses. clauses ≡ spec.clause_infos found.now) }
{
    let mut heads = no_heads(alloc);
    heads.see_units(alloc, found)?;
    let Heads {
        clauses,
        classes: _,
        local: _,
    } = heads;
    Ok(clauses)
}
