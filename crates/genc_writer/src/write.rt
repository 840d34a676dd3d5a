// Functions and files.
ghost use Rattle.std.specs.Prelude.{◌≡◌, ◌+◌, ◌++◌, ◌<◌, ◌^◌, OnOk, IfOk, codes, length};
ghost use Rattle.csub_tree.specs.Spelling.{numbered, local_line, block_text, function_start, function_body, function_text, struct_text, prototype_text, static_text, file_text, file_head};

use crate::names::put_name;
use crate::parts::{put_head, put_parameter, put_prototype, put_static, put_struct};
use crate::statements::put_statements;
use csub_tree::{CFile, CFunction, CPrototype, CStatic, CStmt, CStruct, CType};
use rpy_base::{NoMem, Seq, Text};
use std::alloc::Global;

fn put_local_line(text: &mut Text, k: u64, kind: CType) -> Result<(), NoMem>
    ensures { OnOk result (text.new ≡ text.old ++ local_line k kind) }
{
    text.append(b"    ")?;
    put_parameter(text, k, kind)?;
    text.append(b";\n")
}

fn put_local_lines(text: &mut Text, first: u64, kinds: &[CType]) -> Result<(), NoMem>
    requires { first < 2 ^ 63 }
    ensures { OnOk result (text.new ≡ text.old ++ numbered local_line first kinds.now) }
{
    for i in 0..kinds.len() {
        put_local_line(text, first + i as u64, kinds[i])?;
    }
    Ok(())
}

fn put_block(text: &mut Text, k: u64, statements: &[CStmt]) -> Result<(), NoMem>
    ensures { OnOk result (text.new ≡ text.old ++ block_text k statements.now) }
{
    put_name(text, b"b", k)?;
    text.append(b":\n")?;
    put_statements(text, statements)
}

fn put_blocks(text: &mut Text, blocks: &[Seq<CStmt>]) -> Result<(), NoMem>
    ensures { OnOk result (text.new ≡ text.old ++ numbered block_text 0 blocks.now) }
{
    for i in 0..blocks.len() {
        put_block(text, i as u64, blocks[i].as_slice())?;
    }
    Ok(())
}

fn put_name_line(text: &mut Text, name: &Text) -> Result<(), NoMem>
    ensures { OnOk result (text.new ≡ text.old ++ (codes "/* " ++ name.now ++ codes " */\n")) }
{
    text.append(b"/* ")?;
    text.append(name.bytes())?;
    text.append(b" */\n")
}

// The name, the head and the opening brace.
fn put_start(text: &mut Text, n: u64, function: &CFunction) -> Result<(), NoMem>
    ensures { OnOk result (text.new ≡ text.old ++ function_start n function.now) }
{
    put_name_line(text, &function.name)?;
    put_head(text, n, function.result, function.params.as_slice())?;
    text.append(b"\n{\n")
}

fn put_body(text: &mut Text, function: &CFunction) -> Result<(), NoMem>
    ensures { OnOk result (text.new ≡ text.old ++ function_body function.now) }
{
    let params = function.params.as_slice();
    put_local_lines(text, params.len() as u64, function.locals.as_slice())?;
    put_blocks(text, function.blocks.as_slice())
}

fn put_function(text: &mut Text, n: u64, function: &CFunction) -> Result<(), NoMem>
    ensures { OnOk result (text.new ≡ text.old ++ function_text n function.now) }
{
    put_start(text, n, function)?;
    put_body(text, function)?;
    text.append(b"}\n")
}

fn put_structs(text: &mut Text, items: &[CStruct]) -> Result<(), NoMem>
    ensures { OnOk result (text.new ≡ text.old ++ numbered struct_text 0 items.now) }
{
    for i in 0..items.len() {
        put_struct(text, i as u64, &items[i])?;
    }
    Ok(())
}

fn put_prototypes(text: &mut Text, items: &[CPrototype]) -> Result<(), NoMem>
    ensures { OnOk result (text.new ≡ text.old ++ numbered prototype_text 0 items.now) }
{
    for i in 0..items.len() {
        put_prototype(text, i as u64, &items[i])?;
    }
    Ok(())
}

fn put_statics(text: &mut Text, items: &[CStatic]) -> Result<(), NoMem>
    ensures { OnOk result (text.new ≡ text.old ++ numbered static_text 0 items.now) }
{
    for i in 0..items.len() {
        put_static(text, i as u64, &items[i])?;
    }
    Ok(())
}

fn put_functions(text: &mut Text, items: &[CFunction]) -> Result<(), NoMem>
    ensures { OnOk result (text.new ≡ text.old ++ numbered function_text 0 items.now) }
{
    for i in 0..items.len() {
        put_function(text, i as u64, &items[i])?;
    }
    Ok(())
}

/// The one spelling of a C file.
pub fn write_c(alloc: Global, file: &CFile) -> Result<Text, NoMem>
    ensures { IfOk result (λ text. text ≡ file_text file.now) }
{
    let mut text = Text::from_bytes(alloc, b"/* C-sub 1 */\n#include \"rpy_prim.h\"\n")?;
    put_structs(&mut text, file.structs.as_slice())?;
    put_prototypes(&mut text, file.prototypes.as_slice())?;
    put_statics(&mut text, file.statics.as_slice())?;
    put_functions(&mut text, file.functions.as_slice())?;
    Ok(text)
}
