// The passes behind the low-level program, in a row.
ghost use Rattle.std.specs.Prelude.{◌≡◌, true, IfOk};
ghost use Rattle.ll_code.specs.declared.program.LlStage.TheVariants as stages;
ghost use Rattle.ll_file.specs.File.{CanRaise, IsFile};

use csub_tree::CFile;
use exc_checks::is_raisable;
use exc_transform::make_explicit;
use genc_lower::lower;
use ll_code::{LlProgram, LlStage, well_typed};
use refcount_checks::passes;
use refcount_transform::count;
use rpy_base::NoMem;
use std::alloc::Global;

fn is_raw(stage: LlStage) -> bool
    ensures { result ≡ true → stage ≡ stages.Raw }
{
    match stage {
        LlStage::Raw => true,
        LlStage::Explicit | LlStage::Counted => false,
    }
}

// The tests of the program itself.
fn can_raise(alloc: Global, program: &LlProgram) -> Result<bool, NoMem>
    ensures { IfOk result (λ yes. yes ≡ true → CanRaise program.now) }
{
    let raisable = is_raisable(alloc, program)?;
    Ok(is_raw(program.stage) && well_typed(program) && raisable)
}

/// The C file of a low-level program, which keeps every rule of C files and means what the program means.
///
/// The program is tested first: its types, what lets its exceptions be made explicit, and what then lets
/// its references be counted. No program that `rtype` gives is known to fail a test; there would be
/// nothing to say of its file, and the answer that is always free stands for it.
pub fn file_of(alloc: Global, program: LlProgram) -> Result<CFile, NoMem>
    ensures { IfOk result (IsFile program) }
{
    if !can_raise(alloc, &program)? {
        return Err(NoMem);
    }
    let explicit = make_explicit(alloc, program)?;
    if !passes(alloc, &explicit)? {
        return Err(NoMem);
    }
    let counted = count(alloc, &explicit)?;
    lower(alloc, &counted)
}
