// The names of functions and classes, with those of their modules before them.
ghost use Rattle.std.specs.Prelude.{◌≡◌, ◌++◌, ◌∷◌, [], IfOk, OnOk};
ghost use Rattle.std.specs.List.{flat_map};
ghost use Rattle.rpy_resolved.specs.Label as spec;

use rpy_base::{NoMem, Seq, Text};
use rpy_tree::{Member, Module, Program};
use std::alloc::Global;

/// By their numbers the names of the functions, `MODULE.F` or `MODULE.CLASS.F`, and those of the
/// classes, `MODULE.CLASS`. Builtin classes have no module before them.
#[derive(Drop)]
pub struct Labels {
    pub functions: Seq<Text>,
    pub classes: Seq<Text>,
}

fn under(alloc: Global, before: &Text, name: &Text) -> Result<Text, NoMem>
    ensures { IfOk result (λ text. text ≡ spec.under before.now name.now) }
{
    let mut text = before.copy(alloc)?;
    text.append(b".")?;
    text.append(name.bytes())?;
    Ok(text)
}

// One more name, after that before it.
fn push_under(
    alloc: Global,
    before: &Text,
    name: &Text,
    labels: &mut Seq<Text>,
) -> Result<(), NoMem>
    ensures { OnOk result (labels.new ≡ labels.old ++ spec.under before.now name.now ∷ []) }
{
    let label = under(alloc, before, name)?;
    labels.push(label)
}

fn push_method(
    alloc: Global,
    class: &Text,
    member: &Member,
    labels: &mut Seq<Text>,
) -> Result<(), NoMem>
    ensures { OnOk result (labels.new ≡ labels.old ++ spec.method_label class.now member.now) }
{
    match member {
        Member::Def(f) => push_under(alloc, class, &f.name, labels),
        _ => Ok(()),
    }
}

fn push_methods(
    alloc: Global,
    class: &Text,
    members: &[Member],
    labels: &mut Seq<Text>,
) -> Result<(), NoMem>
    ensures { OnOk result (labels.new ≡ labels.old ++ flat_map (spec.method_label class.now) members.now) }
{
    for member in members {
        push_method(alloc, class, member, labels)?;
    }
    Ok(())
}

// The functions of a module's member.
fn push_functions(
    alloc: Global,
    file: &Text,
    member: &Member,
    labels: &mut Seq<Text>,
) -> Result<(), NoMem>
    ensures { OnOk result (labels.new ≡ labels.old ++ spec.member_functions file.now member.now) }
{
    match member {
        Member::Def(f) => push_under(alloc, file, &f.name, labels),
        Member::Class(class) => {
            let name = under(alloc, file, &class.name)?;
            push_methods(alloc, &name, class.members.as_slice(), labels)
        }
        _ => Ok(()),
    }
}

fn push_all_functions(
    alloc: Global,
    file: &Text,
    members: &[Member],
    labels: &mut Seq<Text>,
) -> Result<(), NoMem>
    ensures { OnOk result (labels.new ≡ labels.old ++ flat_map (spec.member_functions file.now) members.now) }
{
    for member in members {
        push_functions(alloc, file, member, labels)?;
    }
    Ok(())
}

fn push_class(
    alloc: Global,
    file: &Text,
    member: &Member,
    labels: &mut Seq<Text>,
) -> Result<(), NoMem>
    ensures { OnOk result (labels.new ≡ labels.old ++ spec.member_class file.now member.now) }
{
    match member {
        Member::Class(class) => push_under(alloc, file, &class.name, labels),
        _ => Ok(()),
    }
}

fn push_classes(
    alloc: Global,
    file: &Text,
    members: &[Member],
    labels: &mut Seq<Text>,
) -> Result<(), NoMem>
    ensures { OnOk result (labels.new ≡ labels.old ++ flat_map (spec.member_class file.now) members.now) }
{
    for member in members {
        push_class(alloc, file, member, labels)?;
    }
    Ok(())
}

fn functions_of(
    alloc: Global,
    names: &[Text],
    modules: &[Module],
    labels: &mut Seq<Text>,
) -> Result<(), NoMem>
    ensures { OnOk result (labels.new ≡ labels.old ++ spec.of_modules spec.member_functions names.now modules.now) }
{
    match names {
        [] => Ok(()),
        [name, names @ ..] => match modules {
            [] => Ok(()),
            [module, modules @ ..] => {
                push_all_functions(alloc, name, module.members.as_slice(), labels)?;
                functions_of(alloc, names, modules, labels)
            }
        },
    }
}

fn classes_of(
    alloc: Global,
    names: &[Text],
    modules: &[Module],
    labels: &mut Seq<Text>,
) -> Result<(), NoMem>
    ensures { OnOk result (labels.new ≡ labels.old ++ spec.of_modules spec.member_class names.now modules.now) }
{
    match names {
        [] => Ok(()),
        [name, names @ ..] => match modules {
            [] => Ok(()),
            [module, modules @ ..] => {
                push_classes(alloc, name, module.members.as_slice(), labels)?;
                classes_of(alloc, names, modules, labels)
            }
        },
    }
}

fn push_name(alloc: Global, name: &[u8], labels: &mut Seq<Text>) -> Result<(), NoMem>
    ensures { OnOk result (labels.new ≡ labels.old ++ name.now ∷ []) }
{
    let name = Text::from_bytes(alloc, name)?;
    labels.push(name)
}

// The builtin exception classes, in the order of their numbers.
fn builtin_classes(alloc: Global) -> Result<Seq<Text>, NoMem>
    ensures { IfOk result (λ labels. labels ≡ spec.builtin_classes) }
{
    let mut labels = Seq::new(alloc);
    push_name(alloc, b"Exception", &mut labels)?;
    push_name(alloc, b"StandardError", &mut labels)?;
    push_name(alloc, b"ArithmeticError", &mut labels)?;
    push_name(alloc, b"OverflowError", &mut labels)?;
    push_name(alloc, b"ZeroDivisionError", &mut labels)?;
    push_name(alloc, b"LookupError", &mut labels)?;
    push_name(alloc, b"IndexError", &mut labels)?;
    push_name(alloc, b"KeyError", &mut labels)?;
    push_name(alloc, b"ValueError", &mut labels)?;
    push_name(alloc, b"AttributeError", &mut labels)?;
    push_name(alloc, b"AssertionError", &mut labels)?;
    push_name(alloc, b"RuntimeError", &mut labels)?;
    push_name(alloc, b"NotImplementedError", &mut labels)?;
    Ok(labels)
}

/// The names of a program's functions and classes.
pub fn labels_of(alloc: Global, program: &Program) -> Result<Labels, NoMem>
    ensures functions { IfOk result (λ labels. labels.functions ≡ spec.function_labels program.now) }
    ensures classes { IfOk result (λ labels. labels.classes ≡ spec.class_labels program.now) }
{
    let names = program.names.as_slice();
    let modules = program.modules.as_slice();
    let mut functions = Seq::new(alloc);
    functions_of(alloc, names, modules, &mut functions)?;
    let mut classes = builtin_classes(alloc)?;
    classes_of(alloc, names, modules, &mut classes)?;
    Ok(Labels { functions, classes })
}
