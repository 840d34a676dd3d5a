// Classes of sites. Lists made at two sites of one class have items of one element.
ghost use Rattle.std.specs.Prelude.{◌≡◌, ◌≢◌, length, map, true, false, IfOk};
ghost use Rattle.ann_element.specs.Sites as spec;

use rpy_base::NoMem;
use rpy_tree::{Program, Site, SiteId};
use std::alloc::Global;
use std::marker::Model;

/// Which sites are of one class. Contracts see it as the list of the least site of each site's class.
#[derive(Drop)]
pub struct Sites {
    leaders: Vec<SiteId>,
}

impl Model for Sites {
    ghost use Rattle.std.specs.Prelude.{List, ℕ};
    ghost use Rattle.std.specs.Coded.{coded_list, coded_ℕ};

    ghost Value = { List ℕ };

    ghost coded = { coded_list coded_ℕ };

    ghost view = { λ s. s.leaders.items };
}

// The least site of a class u, where the classes of p and q become one.
fn collapsed(p: SiteId, q: SiteId, u: SiteId) -> SiteId
    ensures { result ≡ spec.collapse p q u }
{
    if u == p || u == q {
        if p <= q {
            return p;
        }
        return q;
    }
    u
}

// Each site alone.
fn alone(alloc: Global, sites: &[Site]) -> Result<Vec<SiteId>, NoMem>
    ensures { IfOk result (λ leaders. leaders.items ≡ spec.alone sites.now) }
{
    let mut leaders = Vec::new(alloc);
    for number in 0..sites.len() {
        leaders.push(narrow(number)?)?;
    }
    Ok(leaders)
}

fn narrow(site: usize) -> Result<SiteId, NoMem>
    ensures { IfOk result (λ number. number ≡ site) }
{
    if site <= 4294967295 {
        Ok(site as u32)
    } else {
        Err(NoMem)
    }
}

fn leader_in(leaders: &[SiteId], site: SiteId) -> SiteId
    ensures { result ≡ spec.leader leaders.now site }
{
    match leaders.get(site as usize) {
        None => 0,
        Some(leader) => *leader,
    }
}

// The classes with leaders p and q become one.
fn unite_leaders(leaders: &mut [SiteId], p: SiteId, q: SiteId)
    ensures { leaders.new ≡ map (spec.collapse p q) leaders.old }
{
    for leader in leaders.iter_mut() {
        *leader = collapsed(p, q, *leader);
    }
}

impl Sites {
    /// Each site of a program alone.
    pub fn new(alloc: Global, program: &Program) -> Result<Sites, NoMem>
        ensures { IfOk result (λ sites. sites ≡ spec.alone program.now.sites) }
    {
        Ok(Sites {
            leaders: alone(alloc, program.sites.as_slice())?,
        })
    }

    /// The least site of a site's class.
    pub fn leader(&self, site: SiteId) -> SiteId
        ensures { result ≡ spec.leader self.now site }
    {
        leader_in(&self.leaders, site)
    }

    /// How many sites there are.
    pub fn len(&self) -> usize
        ensures { result ≡ length self.now }
    {
        self.leaders.len()
    }

    /// Makes the classes of two sites one, and says whether they were two.
    pub fn unite(&mut self, a: SiteId, b: SiteId) -> bool
        ensures new { self.new ≡ spec.unite self.old a b }
        ensures one { result ≡ false → spec.Same self.old a b }
        ensures two { result ≡ true → spec.leader self.old a ≢ spec.leader self.old b }
    {
        let p = self.leader(a);
        let q = self.leader(b);
        unite_leaders(&mut self.leaders, p, q);
        p != q
    }
}
