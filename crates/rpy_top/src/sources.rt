// Sources to what is written of their program.
ghost use Rattle.std.specs.Prelude.{◌≡◌, ◌≤◌, ◌<◌, map, length, true, IfOk};
ghost use Rattle.rpy_front.specs.Modules.{are_short};
ghost use Rattle.rpy_words.specs.Command.{are_module_names, is_name, module_name};
ghost use Rattle.rpy_top.specs.Answer.{AnnotatesProgram, ApprovesProgram, BuildsProgram, CompilesProgram, DrawsProgram, Emits, LowersModules, LowersProgram, LowersTo, OnlyBody, ShowsProgram, WritesModules, WritesProgram, WritesTo};

use crate::fault::{TranslateFault, check_fault, front_fault};
use ann_text::annotation_text;
use first_lower::write_program;
use flow_graph::graphs_text;
use genc_writer::write_c;
use ll_code::LlProgram;
use rpy_base::{NoMem, Seq, Text};
use rpy_compiled::{Checked, check, compile, low_level};
use rpy_first::{Body, TranslateFault as FrontFault, first_path};
use rpy_front::{read_modules, refused_name};
use rpy_names::{Named, resolve};
use rpy_tree::Program;
use rpy_words::{Task, module_name};
use std::alloc::Global;

// The body of the only module, where it is of the first path.
fn only_body(alloc: Global, modules: &[Named]) -> Result<Body, FrontFault>
    ensures { OnlyBody modules.now result }
{
    match modules {
        [one] => first_path(alloc, &one.module),
        _ => Err(FrontFault::NotFirst),
    }
}

// The C text of a program that has passed its checks.
fn compiled_text(alloc: Global, program: &Program, checked: &Checked) -> Result<Text, NoMem>
    ensures { IfOk result (λ text. Emits text) }
{
    let file = compile(alloc, program, checked)?;
    write_c(alloc, &file)
}

// The C text of a program by its low-level program, once it has passed its checks.
#[tactic(auto, using(crate::proofs::Translation::refused))]
fn compiled(alloc: Global, program: &Program) -> Result<Text, TranslateFault>
    ensures { CompilesProgram program.now result }
{
    match check(alloc, program) {
        Ok(checked) => {
            let made = compiled_text(alloc, program, &checked);
            drop(checked);
            Ok(made?)
        }
        Err(fault) => Err(check_fault(fault)),
    }
}

// The C text of a program, where its only body was found; else by the passes for all programs.
fn build(
    alloc: Global,
    name: &[u8],
    program: &Program,
    found: Result<Body, FrontFault>,
) -> Result<Text, TranslateFault>
    ensures { BuildsProgram name.now program.now found result }
{
    match found {
        Ok(body) => Ok(write_program(alloc, name, &body)?),
        Err(FrontFault::NotFirst) => compiled(alloc, program),
        Err(_) => Err(TranslateFault::NoMem),
    }
}

// The text of a program's graphs.
#[tactic(auto, using(crate::proofs::Translation::refused))]
fn draw(alloc: Global, program: &Program) -> Result<Text, TranslateFault>
    ensures { ShowsProgram program.now (DrawsProgram program.now) result }
{
    match check(alloc, program) {
        Ok(checked) => {
            let made = graphs_text(alloc, program, &checked.graphs);
            drop(checked);
            Ok(made?)
        }
        Err(fault) => Err(check_fault(fault)),
    }
}

// The text of a program's annotation.
#[tactic(auto, using(crate::proofs::Translation::refused))]
fn annotate(alloc: Global, program: &Program) -> Result<Text, TranslateFault>
    ensures { ShowsProgram program.now (AnnotatesProgram program.now) result }
{
    match check(alloc, program) {
        Ok(checked) => {
            let made = annotation_text(alloc, program, &checked.graphs, &checked.annotation);
            drop(checked);
            Ok(made?)
        }
        Err(fault) => Err(check_fault(fault)),
    }
}

// That a program has types.
#[tactic(auto, using(crate::proofs::Translation::refused))]
fn approve(alloc: Global, program: &Program) -> Result<Text, TranslateFault>
    ensures { ShowsProgram program.now (ApprovesProgram program.now) result }
{
    match check(alloc, program) {
        Ok(checked) => {
            drop(checked);
            Ok(Text::from_bytes(alloc, b"ok\n")?)
        }
        Err(fault) => Err(check_fault(fault)),
    }
}

// What is written of a program, whose only body was asked for.
fn write_of(
    alloc: Global,
    task: Task,
    name: &[u8],
    program: &Program,
    found: Result<Body, FrontFault>,
) -> Result<Text, TranslateFault>
    ensures { WritesProgram task name.now program.now found result }
{
    match task {
        Task::Build => build(alloc, name, program, found),
        Task::Check => approve(alloc, program),
        Task::Annotate => annotate(alloc, program),
        Task::Flow => draw(alloc, program),
    }
}

// What is written of modules, the first of which has this name.
fn write_modules(
    alloc: Global,
    task: Task,
    name: &[u8],
    modules: Seq<Named>,
) -> Result<Text, TranslateFault>
    requires { is_name name.now ≡ true }
    ensures { WritesModules task modules result }
{
    let found = only_body(alloc, modules.as_slice());
    match resolve(alloc, modules) {
        Ok(program) => write_of(alloc, task, name, &program, found),
        Err(refusal) => {
            let fault = refused_name(alloc, refusal.modules.as_slice(), refusal.fault);
            Err(front_fault(fault))
        }
    }
}

/// What is written of sources, each with its module's name.
#[tactic(auto, using(rpy_words::proofs::Files::first_named, crate::proofs::Translation::written))]
pub fn write_sources(
    alloc: Global,
    task: Task,
    sources: &[Text],
    names: &[Text],
) -> Result<Text, TranslateFault>
    requires some { 0 < length sources.now }
    requires few { length sources.now ≤ 64 }
    requires same { length names.now ≡ length sources.now }
    requires named { are_module_names names.now ≡ true }
    requires short { are_short sources.now ≡ true }
    ensures { WritesTo task sources.now names.now result }
{
    match read_modules(alloc, sources, names) {
        Ok(modules) => write_modules(alloc, task, names[0].bytes(), modules),
        Err(fault) => Err(front_fault(fault)),
    }
}

// The low-level program of a program, once it has passed its checks.
#[tactic(auto, using(crate::proofs::Translation::refused))]
fn lower_program(alloc: Global, program: &Program) -> Result<LlProgram, TranslateFault>
    ensures { LowersProgram program.now result }
{
    match check(alloc, program) {
        Ok(checked) => {
            let made = low_level(alloc, program, &checked);
            drop(checked);
            Ok(made?)
        }
        Err(fault) => Err(check_fault(fault)),
    }
}

// The low-level program of modules.
#[tactic(auto, using(crate::proofs::Translation::of_lowered))]
fn lower_modules(alloc: Global, modules: Seq<Named>) -> Result<LlProgram, TranslateFault>
    ensures { LowersModules modules result }
{
    match resolve(alloc, modules) {
        Ok(program) => lower_program(alloc, &program),
        Err(refusal) => {
            let fault = refused_name(alloc, refusal.modules.as_slice(), refusal.fault);
            Err(front_fault(fault))
        }
    }
}

/// The low-level program of sources, each with its module's name.
#[tactic(auto, using(crate::proofs::Translation::lowered_of))]
pub fn lower_sources(
    alloc: Global,
    sources: &[Text],
    names: &[Text],
) -> Result<LlProgram, TranslateFault>
    requires some { 0 < length sources.now }
    requires few { length sources.now ≤ 64 }
    requires same { length names.now ≡ length sources.now }
    requires named { are_module_names names.now ≡ true }
    requires short { are_short sources.now ≡ true }
    ensures { LowersTo sources.now names.now result }
{
    match read_modules(alloc, sources, names) {
        Ok(modules) => lower_modules(alloc, modules),
        Err(fault) => Err(front_fault(fault)),
    }
}

/// The names of the modules that files are.
pub fn names_of(alloc: Global, files: &[Text]) -> Result<Vec<Text>, NoMem>
    ensures { IfOk result (λ names. names.items ≡ map module_name files.now) }
{
    let mut names = Vec::new(alloc);
    for file in files {
        names.push(Text::from_bytes(alloc, module_name(file.bytes()))?)?;
    }
    Ok(names)
}
