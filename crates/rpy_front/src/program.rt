// Why modules make no program.
ghost use Rattle.std.specs.Prelude.{◌≡◌, IfOk};
ghost use Rattle.rpy_names.specs.Resolve.{namefault, IsTold};
ghost use Rattle.rpy_first.specs.declared.fault.TranslateFault.{TranslateFault};
ghost use Rattle.rpy_front.specs.Names as spec;
ghost use Rattle.rpy_front.specs.Names.{Refuses, PlacedAs};

use rpy_base::{NoMem, Text};
use rpy_first::{NameKind, TranslateFault, line_at};
use rpy_names::{NameFault, Named, fault_place};
use rpy_tree::NodeId;
use std::alloc::Global;

fn words_of(kind: NameKind) -> &'static [u8]
    ensures { result.now ≡ spec.words_of kind }
{
    match kind {
        NameKind::Unknown => b"unknown name".as_slice(),
        NameKind::Twice => b"bound twice".as_slice(),
        NameKind::NoEntryPoint => b"no entry point".as_slice(),
        NameKind::BadBase => b"bad base".as_slice(),
        NameKind::BadConstant => b"bad constant".as_slice(),
        NameKind::NoModule => b"no module".as_slice(),
    }
}

/// What is said of a file with a fault of names.
pub fn name_refusal(alloc: Global, file: &[u8], line: u32, kind: NameKind) -> Result<Text, NoMem>
    ensures { IfOk result (λ text. text ≡ spec.name_refusal file.now line kind) }
{
    line_at(alloc, file, line, words_of(kind))
}

fn placed(alloc: Global, modules: &[Named], node: NodeId, kind: NameKind) -> TranslateFault
    ensures { PlacedAs modules.now node kind result }
{
    match fault_place(alloc, modules, node) {
        Ok((file, line)) => TranslateFault::Name(file, line, kind),
        Err(NoMem) => TranslateFault::NoMem,
    }
}

/// The place of a fault of names.
pub fn refused_name(alloc: Global, modules: &[Named], fault: NameFault) -> TranslateFault
    requires { IsTold (namefault modules.now) fault }
    ensures { Refuses modules.now result }
{
    match fault {
        NameFault::Unknown(node) => placed(alloc, modules, node, NameKind::Unknown),
        NameFault::Twice(node) => placed(alloc, modules, node, NameKind::Twice),
        NameFault::NoEntryPoint => TranslateFault::Name(0, 1, NameKind::NoEntryPoint),
        NameFault::BadBase(node) => placed(alloc, modules, node, NameKind::BadBase),
        NameFault::BadConstant(node) => placed(alloc, modules, node, NameKind::BadConstant),
        NameFault::NoModule(node) => placed(alloc, modules, node, NameKind::NoModule),
        NameFault::NoMem => TranslateFault::NoMem,
    }
}
