// The cells of a static, which may be nested without bound: a loop with the open lists beside it.
ghost use Rattle.std.specs.Prelude.{◌≡◌, ◌++◌, OnOk, IfOk, Some, None, codes, [], ◌∷◌, map};
ghost use Rattle.csub_tree.specs.Spelling.{constant_text, cell_text, cells_text};
ghost use Rattle.csub_reader.specs.OpenCells.{open_text, pending_text};
ghost use Rattle.csub_tree.specs.declared.tree.CCell.TheVariants as variant;
ghost use Rattle.csub_text.specs.Read as read;
ghost use Rattle.csub_text.specs.Read.{literal, mapped};
ghost use Rattle.csub_text.specs.ReadFile as pure;
ghost use Rattle.csub_reader.specs.Reads.{Reads};
ghost use Rattle.csub_reader.specs.Turns.{Turns, Takes};

use crate::cursor::Cursor;
use crate::fault::Stop;
use crate::names::constant;
use csub_tree::CCell;
use rpy_base::Seq;
use std::alloc::Global;

// A cell is let go by a call for each level within it. Deeper cells than this would want more
// stack than there may be, and so are refused for want of memory.
const MOST_LEVELS: usize = 2_000;

fn empty_braces(alloc: Global, bytes: &mut Cursor<'_>) -> Result<Option<CCell>, Stop>
    ensures spelled { IfOk result (λ cell. bytes.old ≡ pending_text cell ++ bytes.new) }
    ensures reads { Reads (literal (codes "{ }") (Some (variant.Braces [])) bytes.old) result bytes.new }
{
    bytes.expect(b"{ }")?;
    Ok(Some(CCell::Braces(Seq::new(alloc))))
}

fn constant_cell(bytes: &mut Cursor<'_>) -> Result<Option<CCell>, Stop>
    ensures spelled { IfOk result (λ cell. bytes.old ≡ pending_text cell ++ bytes.new) }
    ensures reads { Reads (mapped (λ c. Some (variant.Const c)) (read.constant bytes.old)) result bytes.new }
{
    Ok(Some(CCell::Const(constant(bytes)?)))
}

// A list of cells begins.
fn open_list(
    alloc: Global,
    bytes: &mut Cursor<'_>,
    lists: &mut Seq<Seq<CCell>>,
) -> Result<Option<CCell>, Stop>
    ensures spelled { IfOk result (λ cell. open_text lists.old ++ bytes.old ≡ open_text lists.new ++ (pending_text cell ++ bytes.new)) }
    ensures reads { Turns (literal (codes "{ ") (lists.old ++ [] ∷ [], None) bytes.old) result lists.new bytes.new }
{
    if lists.len() >= MOST_LEVELS {
        return Err(Stop::NoMem);
    }
    bytes.expect(b"{ ")?;
    lists.push(Seq::new(alloc))?;
    Ok(None)
}

// What comes where a cell may begin: a cell, or the start of a list of cells.
#[tactic(auto, unfolding(csub_text::specs::ReadFile::begin))]
fn begin(
    alloc: Global,
    bytes: &mut Cursor<'_>,
    lists: &mut Seq<Seq<CCell>>,
) -> Result<Option<CCell>, Stop>
    ensures spelled { IfOk result (λ cell. open_text lists.old ++ bytes.old ≡ open_text lists.new ++ (pending_text cell ++ bytes.new)) }
    ensures reads { Turns (pure.begin lists.old bytes.old) result lists.new bytes.new }
{
    if bytes.sees(b"{ }") {
        empty_braces(alloc, bytes)
    } else if bytes.sees(b"{") {
        open_list(alloc, bytes, lists)
    } else {
        constant_cell(bytes)
    }
}

fn braces(cells: Seq<CCell>) -> CCell
    ensures spelled { cell_text result ≡ cells_text (map cell_text cells) }
    ensures is { result ≡ variant.Braces cells }
{
    CCell::Braces(cells)
}

// A cell of this list, which another one follows.
fn go_on(
    bytes: &mut Cursor<'_>,
    lists: &mut Seq<Seq<CCell>>,
    cells: Seq<CCell>,
    cell: CCell,
) -> Result<Option<CCell>, Stop>
    ensures spelled { IfOk result (λ next. open_text (lists.old ++ cells ∷ []) ++ (cell_text cell ++ bytes.old) ≡ open_text lists.new ++ (pending_text next ++ bytes.new)) }
    ensures reads { Turns (literal (codes ", ") (lists.old ++ (cells ++ cell ∷ []) ∷ [], None) bytes.old) result lists.new bytes.new }
{
    let mut more = cells;
    more.push(cell)?;
    bytes.expect(b", ")?;
    lists.push(more)?;
    Ok(None)
}

// The last cell of this list, which thereby is a cell of the list around it.
fn end_list(
    bytes: &mut Cursor<'_>,
    lists: &Seq<Seq<CCell>>,
    cells: Seq<CCell>,
    cell: CCell,
) -> Result<CCell, Stop>
    ensures spelled { IfOk result (λ whole. open_text (lists.now ++ cells ∷ []) ++ (cell_text cell ++ bytes.old) ≡ open_text lists.now ++ (cell_text whole ++ bytes.new)) }
    ensures reads { Reads (literal (codes " }") (variant.Braces (cells ++ cell ∷ [])) bytes.old) result bytes.new }
{
    let mut more = cells;
    more.push(cell)?;
    bytes.expect(b" }")?;
    Ok(braces(more))
}

// What comes after a cell of this list: another cell of it, or its end.
#[tactic(auto, unfolding(csub_text::specs::ReadFile::follow))]
fn follow(
    bytes: &mut Cursor<'_>,
    lists: &mut Seq<Seq<CCell>>,
    cells: Seq<CCell>,
    cell: CCell,
) -> Result<Option<CCell>, Stop>
    ensures spelled { IfOk result (λ next. open_text (lists.old ++ cells ∷ []) ++ (cell_text cell ++ bytes.old) ≡ open_text lists.new ++ (pending_text next ++ bytes.new)) }
    ensures reads { Turns (pure.follow lists.old cells cell bytes.old) result lists.new bytes.new }
{
    if bytes.sees(b", ") {
        go_on(bytes, lists, cells, cell)
    } else {
        Ok(Some(end_list(bytes, lists, cells, cell)?))
    }
}

/// The cells of a static, with their braces.
#[tactic(auto, using(crate::proofs::Turns::begin_next, crate::proofs::Turns::follow_next, crate::proofs::Turns::turns_whole, crate::proofs::Turns::turns_bare, crate::proofs::Turns::turns_done, crate::proofs::Turns::begin_fails, crate::proofs::Turns::follow_fails), unfolding(csub_text::specs::ReadFile::cells))]
pub fn cells(alloc: Global, bytes: &mut Cursor<'_>) -> Result<Seq<CCell>, Stop>
    ensures spelled { IfOk result (λ cells. bytes.old ≡ cells_text (map cell_text cells) ++ bytes.new) }
    ensures reads { Reads (pure.cells bytes.old) result bytes.new }
{
    let mut lists = Seq::new(alloc);
    let mut pending = None;
    for _turn in 0..bytes.rest().len() {
        pending = match pending {
            None => begin(alloc, bytes, &mut lists)?,
            Some(cell) => match lists.pop() {
                None => return whole(cell),
                Some(cells) => follow(bytes, &mut lists, cells, cell)?,
            },
        };
    }
    Err(Stop::NoText)
}

// The outermost cell has to be a list.
fn whole(cell: CCell) -> Result<Seq<CCell>, Stop>
    ensures spelled { IfOk result (λ cells. cell_text cell ≡ cells_text (map cell_text cells)) }
    ensures reads { Takes (pure.whole_list cell) result }
{
    match cell {
        CCell::Braces(cells) => Ok(cells),
        CCell::Const(_) => Err(Stop::NoText),
    }
}
