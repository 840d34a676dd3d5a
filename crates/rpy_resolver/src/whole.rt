// Whole programs.
ghost use Rattle.std.specs.Prelude.{◌≡◌, ◌≤◌, ◌+◌, ◌<◌, ◌^◌, List, [], ◌∷◌, ◌++◌, length, sum_by, IfOk, OnOk};
ghost use Rattle.std.specs.List.{flat_map};
ghost use Rattle.rpy_resolved.specs.Count.{function_count, member_count, method_count};
ghost use Rattle.resolved_meaning.specs.Trees.{program_of};
ghost use Rattle.resolved_laws.specs.Meant.{meant_by};
ghost use Rattle.resolved_laws.specs.Uncopied.{uncopied};
ghost use Rattle.resolver_names.specs.Told.{IsTold, Knows, the_names};
ghost use Rattle.resolver_laws.specs.Listing.{locals_in, method_pairs, member_pairs, module_pairs, HasNoInnerClasses};
ghost use Rattle.resolver_laws.specs.Made.{Source, method_sources, member_sources, sources, AreFrom, IsMadeOf};
ghost use Rattle.rpy_resolver.specs.Parts.{Added};

use crate::parts::{classes_of, copy_sites, defaults_of};
use crate::statement::resolve_block;
use resolver_names::{Index, Names};
use rpy_base::{NoMem, Seq, Text};
use rpy_resolved::{Function, Resolved, labels_of};
use rpy_tree as syntax;
use rpy_tree::{FunInfo, Member, NodeId, Program};
use std::alloc::Global;

fn locals_of(infos: &[FunInfo], number: usize) -> u32
    ensures { result ≡ locals_in infos.now number }
{
    match infos.get(number) {
        None => 0,
        Some(info) => info.locals,
    }
}

fn name_at(alloc: Global, names: &[Text], number: usize) -> Result<Text, NoMem> {
    match names.get(number) {
        None => Ok(Text::new(alloc)),
        Some(name) => name.copy(alloc),
    }
}

// How many nodes stand before the module behind this one.
fn nodes_before(before: usize, nodes: u32) -> Result<usize, NoMem>
    ensures { IfOk result (λ sum. (sum ≡ before + nodes) × (sum < 2 ^ 63)) }
{
    match before.checked_add(nodes as usize) {
        Some(sum) if sum <= isize::MAX as usize => Ok(sum),
        _ => Err(NoMem),
    }
}

// A function of a module, after those before it.
fn add_function(
    alloc: Global,
    names: &Names<'_>,
    labels: &[Text],
    f: &syntax::Function,
    functions: &mut Seq<Function>,
) -> Result<(), NoMem>
    requires { Knows names.now }
    ensures count { OnOk result (length functions.new ≡ length functions.old + 1) }
    ensures added { OnOk result (Added names.now.program.now functions.old functions.new (((the_names names.now), f.now) ∷ [])) }
    ensures from { OnOk result ((done : List Source) → AreFrom functions.old done → AreFrom functions.new (done ++ (names.now.first, f.now) ∷ [])) }
{
    let number = functions.len();
    let function = Function {
        node: names.node(f.node),
        name: name_at(alloc, labels, number)?,
        defaults: defaults_of(alloc, names, f.params.as_slice())?,
        takes_more: f.star,
        locals: locals_of(names.program.functions.as_slice(), number),
        body: resolve_block(alloc, names, f.body.as_slice())?,
    };
    functions.push(function)
}

fn add_method(
    alloc: Global,
    names: &Names<'_>,
    labels: &[Text],
    member: &Member,
    functions: &mut Seq<Function>,
) -> Result<(), NoMem>
    requires { Knows names.now }
    ensures count { OnOk result (length functions.new ≡ length functions.old + method_count member.now) }
    ensures added { OnOk result (Added names.now.program.now functions.old functions.new (method_pairs (the_names names.now) member.now)) }
    ensures from { OnOk result ((done : List Source) → AreFrom functions.old done → AreFrom functions.new (done ++ method_sources names.now.first member.now)) }
{
    match member {
        Member::Def(f) => add_function(alloc, names, labels, f, functions),
        _ => Ok(()),
    }
}

fn add_methods(
    alloc: Global,
    names: &Names<'_>,
    labels: &[Text],
    members: &[Member],
    functions: &mut Seq<Function>,
) -> Result<(), NoMem>
    requires { Knows names.now }
    ensures count { OnOk result (length functions.new ≡ length functions.old + sum_by method_count members.now) }
    ensures added { OnOk result (Added names.now.program.now functions.old functions.new (flat_map (method_pairs (the_names names.now)) members.now)) }
    ensures from { OnOk result ((done : List Source) → AreFrom functions.old done → AreFrom functions.new (done ++ flat_map (method_sources names.now.first) members.now)) }
{
    for member in members {
        add_method(alloc, names, labels, member, functions)?;
    }
    Ok(())
}

fn add_member(
    alloc: Global,
    names: &Names<'_>,
    labels: &[Text],
    member: &Member,
    functions: &mut Seq<Function>,
) -> Result<(), NoMem>
    requires { Knows names.now }
    ensures count { OnOk result (length functions.new ≡ length functions.old + member_count member.now) }
    ensures added { OnOk result (Added names.now.program.now functions.old functions.new (member_pairs (the_names names.now) member.now)) }
    ensures from { OnOk result ((done : List Source) → AreFrom functions.old done → AreFrom functions.new (done ++ member_sources names.now.first member.now)) }
{
    match member {
        Member::Def(f) => add_function(alloc, names, labels, f, functions),
        Member::Class(class) => {
            add_methods(alloc, names, labels, class.members.as_slice(), functions)
        }
        _ => Ok(()),
    }
}

fn add_members(
    alloc: Global,
    names: &Names<'_>,
    labels: &[Text],
    members: &[Member],
    functions: &mut Seq<Function>,
) -> Result<(), NoMem>
    requires { Knows names.now }
    ensures count { OnOk result (length functions.new ≡ length functions.old + sum_by member_count members.now) }
    ensures added { OnOk result (Added names.now.program.now functions.old functions.new (flat_map (member_pairs (the_names names.now)) members.now)) }
    ensures from { OnOk result ((done : List Source) → AreFrom functions.old done → AreFrom functions.new (done ++ flat_map (member_sources names.now.first) members.now)) }
{
    for member in members {
        add_member(alloc, names, labels, member, functions)?;
    }
    Ok(())
}

// The functions of all modules, in node order.
fn functions_of(
    alloc: Global,
    program: &Program,
    index: &Index,
    labels: &[Text],
) -> Result<Seq<Function>, NoMem>
    requires { IsTold program.now index.now }
    ensures count { IfOk result (λ functions. length functions ≡ function_count program.now.modules) }
    ensures added { IfOk result (λ functions. Added program.now [] functions (module_pairs program.now 0 program.now.modules)) }
    ensures from { IfOk result (λ functions. AreFrom functions (sources 0 program.now.modules)) }
{
    let mut functions = Seq::new(alloc);
    let mut first: NodeId = 0;
    let mut before = 0;
    for module in program.modules.as_slice() {
        let names = Names {
            program,
            index,
            first,
            before,
        };
        add_members(
            alloc,
            &names,
            labels,
            module.members.as_slice(),
            &mut functions,
        )?;
        first = first.wrapping_add(module.nodes);
        before = nodes_before(before, module.nodes)?;
    }
    Ok(functions)
}

/// A program with its names bound in its trees. Without the copies of checked operations it is the program that
/// the meaning makes of the modules, where no class stands within a class. Each function gives values of the nodes of its own text alone.
pub fn resolved(alloc: Global, program: &Program) -> Result<Resolved, NoMem>
    ensures count { IfOk result (λ resolved. length resolved.functions ≡ function_count program.now.modules) }
    ensures meant { IfOk result (λ resolved. HasNoInnerClasses program.now.modules → function_count program.now.modules ≤ length program.now.functions → uncopied (program_of resolved) ≡ meant_by program.now) }
    ensures made { IfOk result (λ resolved. IsMadeOf program.now resolved) }
{
    let index = Index::new(alloc, program)?;
    let labels = labels_of(alloc, program)?;
    Ok(Resolved {
        functions: functions_of(alloc, program, &index, labels.functions.as_slice())?,
        classes: classes_of(alloc, program, labels.classes.as_slice())?,
        sites: copy_sites(alloc, program.sites.as_slice())?,
        entry: program.entry,
    })
}
