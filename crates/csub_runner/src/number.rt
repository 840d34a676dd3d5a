// The number of a statement, in the order of the text from 1.
ghost use Rattle.std.specs.Prelude.{◌≡◌, ◌+◌, take, sum_by, length, slice_get, IfOk};
ghost use Rattle.csub_tree.specs.Machine.{statements_in as statements_of, blocks_in};

use crate::code::function_at;
use csub_tree::{CFile, CFunction, CStmt};
use rpy_base::{NoMem, Seq};

// A file with so many statements that their count is no u64 does not fit in memory.
fn add(a: u64, b: u64) -> Result<u64, NoMem>
    ensures { IfOk result (λ sum. sum ≡ a + b) }
{
    match a.checked_add(b) {
        Some(sum) => Ok(sum),
        None => Err(NoMem),
    }
}

fn first_blocks(blocks: &[Seq<CStmt>], count: u64) -> &[Seq<CStmt>]
    ensures { result.now ≡ take count blocks.now }
{
    if count < blocks.len() as u64 {
        &blocks[..count as usize]
    } else {
        blocks
    }
}

fn first_functions(functions: &[CFunction], count: u64) -> &[CFunction]
    ensures { result.now ≡ take count functions.now }
{
    if count < functions.len() as u64 {
        &functions[..count as usize]
    } else {
        functions
    }
}

fn statements_in(blocks: &[Seq<CStmt>]) -> Result<u64, NoMem>
    ensures { IfOk result (λ sum. sum ≡ sum_by length blocks.now) }
{
    let mut sum = 0;
    for block in blocks {
        sum = add(sum, block.len() as u64)?;
    }
    Ok(sum)
}

fn statements_of_all(functions: &[CFunction]) -> Result<u64, NoMem>
    ensures { IfOk result (λ sum. sum ≡ sum_by statements_of functions.now) }
{
    let mut sum = 0;
    for function in functions {
        sum = add(sum, statements_in(function.blocks.as_slice())?)?;
    }
    Ok(sum)
}

fn statements_before(file: &CFile, function: u64, block: u64) -> Result<u64, NoMem>
    ensures { IfOk result (λ sum. sum ≡ sum_by length (take block (blocks_in (slice_get file.now.functions function)))) }
{
    match function_at(file, function) {
        Some(found) => statements_in(first_blocks(found.blocks.as_slice(), block)),
        None => Ok(0),
    }
}

/// The number of the statement at a place.
pub fn statement_number(file: &CFile, function: u64, block: u64, at: u64) -> Result<u64, NoMem>
    ensures { IfOk result (λ number. number ≡ sum_by statements_of (take function file.now.functions) + sum_by length (take block (blocks_in (slice_get file.now.functions function))) + at + 1) }
{
    let functions = statements_of_all(first_functions(file.functions.as_slice(), function))?;
    let blocks = statements_before(file, function, block)?;
    let place = add(add(functions, blocks)?, at)?;
    add(place, 1)
}
