// The static strings: the empty one, those of one byte and their table, `True` and `False`.
ghost use Rattle.std.specs.Prelude.{◌≡◌, ◌++◌, ◌≤◌, IfOk, OnOk, map};
ghost use Rattle.ll_helpers.specs.Statics as spec;

use csub_tree::{CCell, CConst, CStatic};
use ll_code::LlStatic;
use rpy_base::{NoMem, Seq};
use std::alloc::Global;

// The count of items, and the items.
fn counted(alloc: Global, kind: u64, count: i64, items: Seq<CCell>) -> Result<CStatic, NoMem>
    ensures { IfOk result (λ made. made ≡ spec.counted kind count items) }
{
    let cells = Vec::from_array(
        alloc,
        [CCell::Const(CConst::Word(count)), CCell::Braces(items)],
    )?;
    Ok(CStatic {
        kind,
        cells: Seq::from_vec(cells),
    })
}

fn bytes_of(alloc: Global, text: &[u8]) -> Result<Seq<CCell>, NoMem>
    ensures { IfOk result (λ made. made ≡ map spec.byte_cell text.now) }
{
    let mut made = Seq::new(alloc);
    for byte in text {
        made.push(CCell::Const(CConst::Char(*byte)))?;
    }
    Ok(made)
}

fn text(alloc: Global, bytes: &[u8]) -> Result<CStatic, NoMem>
    ensures { IfOk result (λ made. made ≡ spec.text bytes.now) }
{
    let items = bytes_of(alloc, bytes)?;
    counted(alloc, 0, bytes.len() as i64, items)
}

fn push_singles(alloc: Global, count: u64, into: &mut Seq<CStatic>) -> Result<(), NoMem>
    requires { count ≤ 256 }
    ensures { OnOk result (into.new ≡ into.old ++ spec.singles count) }
{
    for byte in 0..count {
        into.push(text(alloc, &[byte as u8])?)?;
    }
    Ok(())
}

fn entries(alloc: Global, count: u64) -> Result<Seq<CCell>, NoMem>
    requires { count ≤ 256 }
    ensures { IfOk result (λ made. made ≡ spec.entries count) }
{
    let mut made = Seq::new(alloc);
    for byte in 0..count {
        made.push(CCell::Const(CConst::Static(0, byte + 1)))?;
    }
    Ok(made)
}

fn table_static(alloc: Global, table: u64) -> Result<CStatic, NoMem>
    ensures { IfOk result (λ made. made ≡ spec.table_static table) }
{
    let items = entries(alloc, 256)?;
    counted(alloc, table, 256, items)
}

/// The static strings, where their table is of this struct.
pub fn texts(alloc: Global, table: u64) -> Result<Seq<LlStatic>, NoMem>
    ensures { IfOk result (λ made. made ≡ spec.texts table) }
{
    let mut made = Seq::new(alloc);
    made.push(text(alloc, b"")?)?;
    push_singles(alloc, 256, &mut made)?;
    made.push(table_static(alloc, table)?)?;
    made.push(text(alloc, b"True")?)?;
    made.push(text(alloc, b"False")?)?;
    Ok(made)
}
