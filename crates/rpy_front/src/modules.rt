// The modules of sources.
ghost use Rattle.std.specs.Prelude.{◌≡◌, ◌≤◌, ◌+◌, length, slice_get, true, Some, OnOk, IfErr};
ghost use Rattle.rpy_front.specs.Modules.{are_short, AreFirst, ReadsNamed, ReadsModules, StopsBy, at_file};

use rpy_base::{Seq, Text};
use rpy_first::{TranslateFault, read_module};
use rpy_names::Named;
use std::alloc::Global;

/// How many bytes a source may have.
pub const LIMIT: u64 = 1_048_576;

// The module of a source, with its name.
fn read_named(alloc: Global, source: &Text, name: &Text) -> Result<Named, TranslateFault>
    requires { length source.now ≤ 1048576 }
    ensures { ReadsNamed source.now name.now result }
{
    let tree = read_module(alloc, source)?;
    Ok(Named {
        name: Text::from_bytes(alloc, name.bytes())?,
        module: tree,
    })
}

// The fault of the source at this place, which was read as if it were the only one.
fn at_file(file: usize, fault: TranslateFault) -> TranslateFault
    requires { file ≤ 64 }
    ensures { result ≡ at_file file fault }
{
    match fault {
        TranslateFault::Source(_, line, kind) => TranslateFault::Source(file as u32, line, kind),
        TranslateFault::Name(_, line, kind) => TranslateFault::Name(file as u32, line, kind),
        TranslateFault::NotFirst => TranslateFault::NotFirst,
        TranslateFault::NoMem => TranslateFault::NoMem,
    }
}

// The module of one more source.
#[tactic(auto, using(crate::proofs::Further::further, crate::proofs::Further::short_at))]
fn read_next(
    alloc: Global,
    source: &Text,
    name: &Text,
    modules: &mut Seq<Named>,
    sources: &[Text],
    names: &[Text],
) -> Result<(), TranslateFault>
    requires short { are_short sources.now ≡ true }
    requires source { slice_get sources.now (length modules.old) ≡ Some source.now }
    requires name { slice_get names.now (length modules.old) ≡ Some name.now }
    requires few { length modules.old ≤ 64 }
    requires first { AreFirst sources.now names.now modules.old }
    ensures next { OnOk result ((length modules.new ≡ length modules.old + 1) × AreFirst sources.now names.now modules.new) }
    ensures stops { IfErr result (λ fault. StopsBy sources.now names.now fault) }
{
    match read_named(alloc, source, name) {
        Ok(named) => Ok(modules.push(named)?),
        Err(fault) => Err(at_file(modules.len(), fault)),
    }
}

/// The modules that sources are, each with its name, or the first source that is none.
pub fn read_modules(
    alloc: Global,
    sources: &[Text],
    names: &[Text],
) -> Result<Seq<Named>, TranslateFault>
    requires few { length sources.now ≤ 64 }
    requires same { length names.now ≡ length sources.now }
    requires short { are_short sources.now ≡ true }
    ensures { ReadsModules sources.now names.now result }
{
    let mut modules = Seq::new(alloc);
    while let (Some(source), Some(name)) = (sources.get(modules.len()), names.get(modules.len())) {
        read_next(alloc, source, name, &mut modules, sources, names)?;
    }
    Ok(modules)
}

/// Whether each source has at most as many bytes as one may have.
pub fn are_short(sources: &[Text]) -> bool
    ensures { result ≡ are_short sources.now }
{
    for source in sources {
        if source.bytes().len() as u64 > LIMIT {
            return false;
        }
    }
    true
}
