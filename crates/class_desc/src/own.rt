// The attributes that each class statement declares.
ghost use Rattle.std.specs.Prelude.{◌≡◌, [], IfOk, OnOk, replicate};
ghost use Rattle.rpy_tree.specs.declared.syntax.Member.{out-Member};
ghost use Rattle.class_desc.specs.Tables as spec;

use crate::names::Names;
use crate::stores::add_stored;
use rpy_base::{NoMem, Seq};
use rpy_tree::{Member, Module};
use std::alloc::Global;

/// How many classes are builtin. They declare no attribute.
const BUILTIN_CLASSES: usize = 13;

// What a member of a class body declares, after what stands before it.
fn add_declared(alloc: Global, member: &Member, names: Names) -> Result<Names, NoMem>
    ensures { IfOk result (λ all. all ≡ spec.with_member (out-Member member.now) names) }
{
    match member {
        Member::Const(_, name, _) => {
            let mut names = names;
            names.add(alloc, name)?;
            Ok(names)
        }
        Member::Def(f) => add_stored(alloc, f.params.as_slice(), f.body.as_slice(), names),
        _ => Ok(names),
    }
}

// The attributes that a class body declares, in order.
fn declared_by(alloc: Global, members: &[Member]) -> Result<Names, NoMem>
    ensures { IfOk result (λ names. names ≡ spec.declared_by members.now []) }
{
    let mut names = Names::new(alloc);
    for member in members {
        names = add_declared(alloc, member, names)?;
    }
    Ok(names)
}

fn add_class(alloc: Global, member: &Member, lists: &mut Seq<Names>) -> Result<(), NoMem>
    ensures { OnOk result (lists.new ≡ spec.add_class (out-Member member.now) lists.old) }
{
    match member {
        Member::Class(class) => {
            let names = declared_by(alloc, class.members.as_slice())?;
            lists.push(names)
        }
        _ => Ok(()),
    }
}

fn add_classes(alloc: Global, members: &[Member], lists: &mut Seq<Names>) -> Result<(), NoMem>
    ensures { OnOk result (lists.new ≡ spec.add_classes members.now lists.old) }
{
    for member in members {
        add_class(alloc, member, lists)?;
    }
    Ok(())
}

fn add_modules(alloc: Global, modules: &[Module], lists: &mut Seq<Names>) -> Result<(), NoMem>
    ensures { OnOk result (lists.new ≡ spec.add_modules modules.now lists.old) }
{
    for module in modules {
        add_classes(alloc, module.members.as_slice(), lists)?;
    }
    Ok(())
}

// The attributes of the builtin classes.
fn builtin_attributes(alloc: Global) -> Result<Seq<Names>, NoMem>
    ensures { IfOk result (λ lists. lists ≡ replicate 13 []) }
{
    let mut lists = Seq::new(alloc);
    for _class in 0..BUILTIN_CLASSES {
        lists.push(Names::new(alloc))?;
    }
    Ok(lists)
}

/// The attributes that each class declares, by number.
pub fn attributes_of(alloc: Global, modules: &[Module]) -> Result<Seq<Names>, NoMem>
    ensures { IfOk result (λ lists. lists ≡ spec.attributes modules.now) }
{
    let mut lists = builtin_attributes(alloc)?;
    add_modules(alloc, modules, &mut lists)?;
    Ok(lists)
}
