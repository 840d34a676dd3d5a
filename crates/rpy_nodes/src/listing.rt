// What the modules of a program say, one after the other.
ghost use Rattle.std.specs.Prelude.{◌≡◌, [], map, IfOk, OnOk};
ghost use Rattle.rpy_nodes.specs.Listing as spec;

use crate::member::list_members;
use crate::names::{NameId, Names};
use crate::unit::{Listing, Unit};
use crate::walk::Walk;
use rpy_base::{NoMem, Seq, Text};
use rpy_tree::Module;
use std::alloc::Global;

/// A module and its name.
#[derive(Drop)]
pub struct Named {
    pub name: Text,
    pub module: Module,
}

// A byte of the names that the language knows, each of which ends with a space.
fn see_byte(alloc: Global, names: &mut Names, word: &mut Text, byte: u8) -> Result<(), NoMem>
    ensures names { OnOk result (names.new ≡ (spec.see_byte byte (names.old, word.old)).0) }
    ensures word { OnOk result (word.new ≡ (spec.see_byte byte (names.old, word.old)).1) }
{
    if byte == b' ' {
        names.number(alloc, word)?;
        *word = Text::new(alloc);
        Ok(())
    } else {
        word.push(byte)
    }
}

fn see_words(alloc: Global, words: &[u8]) -> Result<Names, NoMem>
    ensures { IfOk result (λ names. names ≡ spec.see_words words.now) }
{
    let mut names = Names::new(alloc);
    let mut word = Text::new(alloc);
    for byte in words {
        see_byte(alloc, &mut names, &mut word, *byte)?;
    }
    Ok(names)
}

// The names that the language knows.
fn known(alloc: Global) -> Result<Names, NoMem>
    ensures { IfOk result (λ names. names ≡ spec.known) }
{
    see_words(
        alloc,
        b"None True False os sys rpython rlib rarithmetic ovfcheck intmask write maxint object Exception StandardError ArithmeticError OverflowError ZeroDivisionError LookupError IndexError KeyError ValueError AttributeError AssertionError RuntimeError NotImplementedError len ord chr str int bool min max isinstance range xrange split keys values items iterkeys itervalues iteritems entry_point ".as_slice(),
    )
}

fn start(alloc: Global) -> Result<Walk, NoMem>
    ensures { IfOk result (λ walk. walk ≡ spec.start) }
{
    Ok(Walk {
        names: known(alloc)?,
        next: 0,
        events: Seq::new(alloc),
    })
}

fn module_names(alloc: Global, walk: &mut Walk, modules: &[Named]) -> Result<Seq<NameId>, NoMem>
    ensures value { IfOk result (λ v. v ≡ (spec.module_names modules.now walk.old).0) }
    ensures walk { OnOk result (walk.new ≡ (spec.module_names modules.now walk.old).1) }
{
    let mut names = Seq::new(alloc);
    for of in modules {
        names.push(walk.number(alloc, &of.name)?)?;
    }
    Ok(names)
}

fn list_modules(alloc: Global, walk: &mut Walk, modules: &[Named]) -> Result<Seq<Unit>, NoMem>
    ensures units { IfOk result (λ v. v ≡ (spec.list_modules 0 modules.now ([], walk.old)).0) }
    ensures walk { OnOk result (walk.new ≡ (spec.list_modules 0 modules.now ([], walk.old)).1) }
{
    let mut units = Seq::new(alloc);
    for (file, of) in modules.iter().enumerate() {
        list_members(alloc, walk, &mut units, file, of.module.members.as_slice())?;
    }
    Ok(units)
}

/// All members of the modules in node order.
pub fn list_program(alloc: Global, modules: &[Named]) -> Result<Listing, NoMem>
    ensures { IfOk result (λ listing. listing ≡ spec.listing modules.now) }
{
    let mut walk = start(alloc)?;
    let names = module_names(alloc, &mut walk, modules)?;
    let units = list_modules(alloc, &mut walk, modules)?;
    let Walk {
        names: all,
        next,
        events: _,
    } = walk;
    Ok(Listing {
        names: all,
        modules: names,
        nodes: next,
        units,
    })
}
