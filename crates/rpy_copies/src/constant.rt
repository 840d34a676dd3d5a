// Constants once more.
ghost use Rattle.std.specs.Prelude.{◌≡◌, IfOk};

use rpy_base::{NoMem, Seq};
use rpy_tree::Const;
use std::alloc::Global;

/// The same constant once more.
#[cycle(copy)]
pub fn copy_const(alloc: Global, value: &Const) -> Result<Const, NoMem>
    ensures { IfOk result (λ copy. copy ≡ value.now) }
{
    match value {
        Const::Word(word) => Ok(Const::Word(*word)),
        Const::Bool(flag) => Ok(Const::Bool(*flag)),
        Const::Str(text) => Ok(Const::Str(text.copy(alloc)?)),
        Const::None => Ok(Const::None),
        Const::Function(function) => Ok(Const::Function(*function)),
        Const::Tuple(parts) => Ok(Const::Tuple(copy_all(alloc, parts.as_slice())?)),
        Const::List(site) => Ok(Const::List(*site)),
        Const::Dict(site) => Ok(Const::Dict(*site)),
    }
}

#[cycle(copy)]
fn copy_all(alloc: Global, values: &[Const]) -> Result<Seq<Const>, NoMem>
    ensures { IfOk result (λ copies. copies ≡ values.now) }
{
    let mut copies = Seq::new(alloc);
    for value in values {
        copies.push(copy_const(alloc, value)?)?;
    }
    Ok(copies)
}

/// A constant, if there is one, once more.
pub fn copy_option(alloc: Global, value: &Option<Const>) -> Result<Option<Const>, NoMem>
    ensures { IfOk result (λ copy. copy ≡ value.now) }
{
    match value {
        None => Ok(None),
        Some(value) => Ok(Some(copy_const(alloc, value)?)),
    }
}

/// Pairs once more.
pub fn copy_pairs(alloc: Global, pairs: &[(Const, Const)]) -> Result<Seq<(Const, Const)>, NoMem>
    ensures { IfOk result (λ copies. copies ≡ pairs.now) }
{
    let mut copies = Seq::new(alloc);
    for pair in pairs {
        copies.push(copy_pair(alloc, pair)?)?;
    }
    Ok(copies)
}

fn copy_pair(alloc: Global, pair: &(Const, Const)) -> Result<(Const, Const), NoMem>
    ensures { IfOk result (λ copy. copy ≡ pair.now) }
{
    let key = copy_const(alloc, &pair.0)?;
    Ok((key, copy_const(alloc, &pair.1)?))
}
