// The passes behind the checks, in a row.
ghost use Rattle.std.specs.Prelude.{IfOk};
ghost use Rattle.ll_file.specs.File.{IsOfSome};

use csub_tree::CFile;
use ll_code::LlProgram;
use ll_file::file_of;
use ll_joined::join_blocks;
use rpy_base::NoMem;
use rpy_checked::Checked;
use rpy_resolver::resolved;
use rpy_tree::Program;
use rtyper_program::rtype;
use std::alloc::Global;

/// The low-level program of a program that has passed its checks.
pub fn low_level(alloc: Global, program: &Program, checked: &Checked) -> Result<LlProgram, NoMem> {
    let resolved = resolved(alloc, program)?;
    let typed = rtype(
        alloc,
        &resolved,
        &checked.graphs,
        &checked.annotation,
        &checked.classes,
    )?;
    join_blocks(alloc, typed)
}

/// The C file of a program that has passed its checks, which keeps every rule of C files and means what
/// a low-level program means.
pub fn compile(alloc: Global, program: &Program, checked: &Checked) -> Result<CFile, NoMem>
    ensures { IfOk result IsOfSome }
{
    let typed = low_level(alloc, program, checked)?;
    file_of(alloc, typed)
}
