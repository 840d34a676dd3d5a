// Statics, functions and files.
ghost use Rattle.std.specs.Prelude.{◌≡◌, ◌+◌, ◌++◌, ◌<◌, ◌≤◌, ◌^◌, OnOk, IfOk, IfErr, codes, [], ◌∷◌, length, true, ◌||◌};
ghost use Rattle.std.specs.Fmt.{decimal};
ghost use Rattle.csub_tree.specs.Checked.{IsChecked, first_unchecked, is_name_byte};
ghost use Rattle.csub_text.specs.Read.{stripped, then_stripped, begins, literal, after, and_then, mapped, ended};
ghost use Rattle.csub_text.specs.ReadFile as pure;
ghost use Rattle.csub_reader.specs.Reads.{Reads, ReadsWhole, Strips};
ghost use Rattle.csub_reader.specs.Parts.{none_yet};
ghost use Rattle.csub_reader.specs.Functions.{ReadsHeading, ReadsInsides};
ghost use Rattle.csub_reader.specs.Refused.{IsRefused};
ghost use Rattle.csub_text.specs.Text.{IsText, IsNoText};
ghost use Rattle.csub_tree.specs.Spelling.{numbered, local_line, block_text, function_start, function_body, function_text, struct_text, prototype_text, static_text, cell_text, cells_text, file_text, head, line};

use crate::cells::cells;
use crate::cursor::{Cursor, begins};
use crate::fault::{CFault, Stop};
use crate::lines::dead_line;
use crate::names::{expect_name, name};
use crate::parts::{head, parameter, prototype, struct_text};
use crate::statements::statements;
use csub_tree::{CFile, CFunction, CPrototype, CStatic, CStmt, CStruct, CType, checked};
use rpy_base::{NoMem, Seq, Text};
use std::alloc::Global;

#[tactic(auto, unfolding(csub_text::specs::ReadFile::static_text))]
pub fn static_text(alloc: Global, bytes: &mut Cursor<'_>, n: u64) -> Result<CStatic, Stop>
    ensures spelled { IfOk result (λ item. bytes.old ≡ static_text n item ++ bytes.new) }
    ensures reads { Reads (pure.static_text n bytes.old) result bytes.new }
{
    let kind = name(bytes, b"static struct s")?;
    expect_name(bytes, b" g", n)?;
    bytes.expect(b" = ")?;
    let cells = cells(alloc, bytes)?;
    bytes.expect(b";\n")?;
    Ok(CStatic { kind, cells })
}

fn is_name_byte(b: u8) -> bool
    ensures { result ≡ is_name_byte b }
{
    (b'a' <= b && b <= b'z')
        || (b'A' <= b && b <= b'Z')
        || (b'0' <= b && b <= b'9')
        || b == b'_'
        || b == b'.'
}

// How many letters, digits, `_` and `.` stand at the front.
#[tactic(auto, unfolding(csub_text::specs::ReadFile::name_len))]
fn name_len(bytes: &[u8]) -> usize
    ensures value { result ≡ pure.name_len bytes.now }
    ensures within { result ≤ length bytes.now }
{
    let mut n = 0;
    for b in bytes {
        if !is_name_byte(*b) {
            return n;
        }
        n += 1;
    }
    n
}

// The name of a function, which may be empty.
#[tactic(auto, unfolding(csub_text::specs::ReadFile::function_name))]
fn function_name(alloc: Global, bytes: &mut Cursor<'_>) -> Result<Text, Stop>
    ensures spelled { IfOk result (λ name. bytes.old ≡ name ++ bytes.new) }
    ensures reads { Reads (pure.function_name bytes.old) result bytes.new }
{
    let rest = bytes.rest();
    let name = &rest[..name_len(rest)];
    bytes.expect(name)?;
    Ok(Text::from_bytes(alloc, name)?)
}

#[tactic(auto, unfolding(csub_text::specs::ReadFile::name_line))]
pub fn name_line(alloc: Global, bytes: &mut Cursor<'_>) -> Result<Text, Stop>
    ensures spelled { IfOk result (λ name. bytes.old ≡ (codes "/* " ++ name ++ codes " */\n") ++ bytes.new) }
    ensures reads { Reads (pure.name_line bytes.old) result bytes.new }
{
    bytes.expect(b"/* ")?;
    let name = function_name(alloc, bytes)?;
    bytes.expect(b" */\n")?;
    Ok(name)
}

// What the first three lines of a function say.
#[derive(Drop)]
struct Heading {
    name: Text,
    result: Option<CType>,
    params: Seq<CType>,
}

// The name, the head and the opening brace.
#[tactic(auto, unfolding(csub_text::specs::ReadFile::heading))]
fn start(alloc: Global, bytes: &mut Cursor<'_>, n: u64) -> Result<Heading, Stop>
    ensures spelled { IfOk result (λ s. bytes.old ≡ (line (codes "/* " ++ s.name ++ codes " */") ++ line (head n s.result s.params) ++ line (codes "{")) ++ bytes.new) }
    ensures reads { ReadsHeading (pure.heading n bytes.old) result bytes.new }
{
    let name = name_line(alloc, bytes)?;
    let head_of = head(alloc, bytes, n)?;
    bytes.expect(b"\n")?;
    bytes.expect(b"{\n")?;
    Ok(Heading {
        name,
        result: head_of.result,
        params: head_of.params,
    })
}

#[tactic(auto, unfolding(csub_text::specs::ReadFile::local_line))]
pub fn local_line(bytes: &mut Cursor<'_>, k: u64) -> Result<CType, Stop>
    ensures spelled { IfOk result (λ kind. bytes.old ≡ local_line k kind ++ bytes.new) }
    ensures reads { Reads (pure.local_line k bytes.old) result bytes.new }
{
    bytes.expect(b"    ")?;
    let kind = parameter(bytes, k)?;
    bytes.expect(b";\n")?;
    Ok(kind)
}

#[tactic(auto, using(crate::proofs::Loops::while_stop, crate::proofs::Loops::while_done, crate::proofs::Loops::while_fail), unfolding(csub_text::specs::ReadFile::local_lines))]
fn local_lines(alloc: Global, bytes: &mut Cursor<'_>, first: u64) -> Result<Seq<CType>, Stop>
    requires { first < 2 ^ 63 }
    ensures spelled { IfOk result (λ kinds. bytes.old ≡ numbered local_line first kinds ++ bytes.new) }
    ensures reads { Reads (pure.local_lines first bytes.old) result bytes.new }
{
    let mut kinds = Seq::new(alloc);
    for _turn in 0..bytes.rest().len() {
        if !bytes.sees(b"    ") {
            return Ok(kinds);
        }
        let kind = local_line(bytes, first + kinds.len() as u64)?;
        kinds.push(kind)?;
    }
    Ok(kinds)
}

#[tactic(auto, unfolding(csub_text::specs::ReadFile::block))]
fn block(alloc: Global, bytes: &mut Cursor<'_>, k: u64) -> Result<Seq<CStmt>, Stop>
    ensures spelled { IfOk result (λ stmts. bytes.old ≡ block_text k stmts ++ bytes.new) }
    ensures reads { Reads (pure.block k bytes.old) result bytes.new }
{
    expect_name(bytes, b"b", k)?;
    bytes.expect(b":\n")?;
    statements(alloc, bytes)
}

// Whether nothing was read yet.
fn is_none<T>(items: &[T]) -> bool
    ensures { result ≡ none_yet items.now }
{
    match items {
        [] => true,
        [_, ..] => false,
    }
}

// Whether a block is to be read: the first, or a further one that comes next.
fn another_block(blocks: &Seq<Seq<CStmt>>, bytes: &Cursor<'_>) -> bool
    ensures { result ≡ (none_yet blocks.now || begins (codes "b") bytes.now) }
{
    is_none(blocks.as_slice()) || bytes.sees(b"b")
}

// Whether a function is to be read: the first, or a further one where something comes next.
fn another_function(items: &Seq<CFunction>, bytes: &Cursor<'_>) -> bool
    ensures { result ≡ (none_yet items.now || pure.sees_more bytes.now) }
{
    is_none(items.as_slice()) || !bytes.is_at_end()
}

// One or more blocks.
#[tactic(auto, using(crate::proofs::Loops::some_stop, crate::proofs::Loops::some_done, crate::proofs::Loops::some_fail), unfolding(csub_text::specs::ReadFile::blocks))]
fn blocks(alloc: Global, bytes: &mut Cursor<'_>) -> Result<Seq<Seq<CStmt>>, Stop>
    ensures spelled { IfOk result (λ blocks. bytes.old ≡ numbered block_text 0 blocks ++ bytes.new) }
    ensures reads { Reads (pure.blocks bytes.old) result bytes.new }
{
    let mut blocks = Seq::new(alloc);
    for _turn in 0..bytes.rest().len() {
        if !another_block(&blocks, bytes) {
            return Ok(blocks);
        }
        let stmts = block(alloc, bytes, blocks.len() as u64)?;
        blocks.push(stmts)?;
    }
    Err(Stop::NoText)
}

// The locals and the blocks of a function.
#[derive(Drop)]
struct Insides {
    locals: Seq<CType>,
    blocks: Seq<Seq<CStmt>>,
}

// The locals are numbered on from the parameters.
#[tactic(auto, unfolding(csub_text::specs::ReadFile::insides))]
fn body(alloc: Global, bytes: &mut Cursor<'_>, first: u64) -> Result<Insides, Stop>
    requires { first < 2 ^ 63 }
    ensures spelled { IfOk result (λ b. bytes.old ≡ (numbered local_line first b.locals ++ numbered block_text 0 b.blocks) ++ bytes.new) }
    ensures reads { ReadsInsides (pure.insides first bytes.old) result bytes.new }
{
    let locals = local_lines(alloc, bytes, first)?;
    let blocks = blocks(alloc, bytes)?;
    Ok(Insides { locals, blocks })
}

#[tactic(auto, unfolding(csub_text::specs::ReadFile::function))]
fn function(alloc: Global, bytes: &mut Cursor<'_>, n: u64) -> Result<CFunction, Stop>
    ensures spelled { IfOk result (λ function. bytes.old ≡ function_text n function ++ bytes.new) }
    ensures reads { Reads (pure.function n bytes.old) result bytes.new }
{
    let start = start(alloc, bytes, n)?;
    let first = start.params.as_slice().len() as u64;
    let body = body(alloc, bytes, first)?;
    bytes.expect(b"}\n")?;
    Ok(CFunction {
        name: start.name,
        result: start.result,
        params: start.params,
        locals: body.locals,
        blocks: body.blocks,
    })
}

#[tactic(auto, using(crate::proofs::Loops::while_stop, crate::proofs::Loops::while_done, crate::proofs::Loops::while_fail), unfolding(csub_text::specs::ReadFile::structs))]
fn structs(alloc: Global, bytes: &mut Cursor<'_>) -> Result<Seq<CStruct>, Stop>
    ensures spelled { IfOk result (λ items. bytes.old ≡ numbered struct_text 0 items ++ bytes.new) }
    ensures reads { Reads (pure.structs bytes.old) result bytes.new }
{
    let mut items = Seq::new(alloc);
    for _turn in 0..bytes.rest().len() {
        if !bytes.sees(b"struct ") {
            return Ok(items);
        }
        let item = struct_text(alloc, bytes, items.len() as u64)?;
        items.push(item)?;
    }
    Ok(items)
}

// Whether the next line is of a static, and not of a prototype with a pointer as its result.
fn sees_static(bytes: &[u8]) -> bool
    ensures { result ≡ pure.sees_static bytes.now }
{
    let mut start = Cursor::new(bytes);
    name(&mut start, b"static struct s").is_ok() && start.sees(b" g")
}

// Whether the next line is the head of a function.
pub fn sees_prototype(bytes: &[u8]) -> bool
    ensures { result ≡ pure.sees_prototype bytes.now }
{
    begins(bytes, b"static ") && !sees_static(bytes)
}

#[tactic(auto, using(crate::proofs::Loops::while_stop, crate::proofs::Loops::while_done, crate::proofs::Loops::while_fail), unfolding(csub_text::specs::ReadFile::prototypes))]
fn prototypes(alloc: Global, bytes: &mut Cursor<'_>) -> Result<Seq<CPrototype>, Stop>
    ensures spelled { IfOk result (λ items. bytes.old ≡ numbered prototype_text 0 items ++ bytes.new) }
    ensures reads { Reads (pure.prototypes bytes.old) result bytes.new }
{
    let mut items = Seq::new(alloc);
    for _turn in 0..bytes.rest().len() {
        if !sees_prototype(bytes.rest()) {
            return Ok(items);
        }
        let item = prototype(alloc, bytes, items.len() as u64)?;
        items.push(item)?;
    }
    Ok(items)
}

#[tactic(auto, using(crate::proofs::Loops::while_stop, crate::proofs::Loops::while_done, crate::proofs::Loops::while_fail), unfolding(csub_text::specs::ReadFile::statics))]
fn statics(alloc: Global, bytes: &mut Cursor<'_>) -> Result<Seq<CStatic>, Stop>
    ensures spelled { IfOk result (λ items. bytes.old ≡ numbered static_text 0 items ++ bytes.new) }
    ensures reads { Reads (pure.statics bytes.old) result bytes.new }
{
    let mut items = Seq::new(alloc);
    for _turn in 0..bytes.rest().len() {
        if !bytes.sees(b"static ") {
            return Ok(items);
        }
        let item = static_text(alloc, bytes, items.len() as u64)?;
        items.push(item)?;
    }
    Ok(items)
}

// One or more functions, up to the end.
#[tactic(auto, using(crate::proofs::Loops::some_stop, crate::proofs::Loops::some_done, crate::proofs::Loops::some_fail), unfolding(csub_text::specs::ReadFile::functions))]
fn functions(alloc: Global, bytes: &mut Cursor<'_>) -> Result<Seq<CFunction>, Stop>
    ensures spelled { IfOk result (λ items. bytes.old ≡ numbered function_text 0 items ++ bytes.new) }
    ensures reads { Reads (pure.functions bytes.old) result bytes.new }
{
    let mut items = Seq::new(alloc);
    for _turn in 0..bytes.rest().len() {
        if !another_function(&items, bytes) {
            return Ok(items);
        }
        let item = function(alloc, bytes, items.len() as u64)?;
        items.push(item)?;
    }
    Err(Stop::NoText)
}

// A line of its own, and another one.
fn two_lines(bytes: &mut Cursor<'_>, first: &[u8], second: &[u8]) -> Result<(), Stop>
    ensures spelled { OnOk result (bytes.old ≡ (first.now ++ second.now) ++ bytes.new) }
    ensures reads { Strips (then_stripped (stripped first.now bytes.old) second.now) result bytes.new }
{
    bytes.expect(first)?;
    bytes.expect(second)
}

// All declarations, after two lines at the head.
#[tactic(auto, unfolding(csub_text::specs::ReadFile::declarations))]
fn file_after(
    alloc: Global,
    bytes: &mut Cursor<'_>,
    first: &[u8],
    second: &[u8],
) -> Result<CFile, Stop>
    ensures spelled { IfOk result (λ c. bytes.old ≡ (first.now ++ second.now ++ numbered struct_text 0 c.structs ++ numbered prototype_text 0 c.prototypes ++ numbered static_text 0 c.statics ++ numbered function_text 0 c.functions) ++ bytes.new) }
    ensures reads { Reads (after (stripped first.now bytes.old) (λ i. after (stripped second.now i) pure.declarations)) result bytes.new }
{
    two_lines(bytes, first, second)?;
    let structs = structs(alloc, bytes)?;
    let prototypes = prototypes(alloc, bytes)?;
    let statics = statics(alloc, bytes)?;
    let functions = functions(alloc, bytes)?;
    Ok(CFile {
        structs,
        prototypes,
        statics,
        functions,
    })
}

#[tactic(auto, unfolding(csub_text::specs::ReadFile::file))]
fn file(alloc: Global, bytes: &mut Cursor<'_>) -> Result<CFile, Stop>
    ensures spelled { IfOk result (λ file. bytes.old ≡ file_text file ++ bytes.new) }
    ensures reads { Reads (pure.file bytes.old) result bytes.new }
{
    file_after(
        alloc,
        bytes,
        b"/* C-sub 1 */\n",
        b"#include \"rpy_prim.h\"\n",
    )
}

// A file, after which nothing is left.
#[tactic(auto, unfolding(csub_text::specs::ReadFile::whole))]
fn whole(alloc: Global, bytes: &mut Cursor<'_>) -> Result<CFile, Stop>
    ensures spelled { IfOk result (λ file. bytes.old ≡ file_text file) }
    ensures reads { ReadsWhole (pure.whole bytes.old) result }
{
    let file = file(alloc, bytes)?;
    if bytes.is_at_end() {
        Ok(file)
    } else {
        Err(Stop::NoText)
    }
}

// Why bytes are refused that are the text of no file.
fn refusal(alloc: Global, text: &Text) -> CFault
    requires { IsNoText text.now }
    ensures { IsRefused text.now result }
{
    match dead_line(alloc, text) {
        Ok(line) => CFault::NotText(line),
        Err(NoMem) => CFault::NoMem,
    }
}

/// The file that a text spells, whether or not it keeps the further rules of a C file. It is
/// refused exactly where the bytes are the text of no file, but that memory may fail.
#[tactic(auto, using(csub_text::proofs::Files::none_whole, csub_text::proofs::Files::whole_text))]
pub fn read_text(alloc: Global, text: &Text) -> Result<CFile, CFault>
    ensures spelled { IfOk result (λ file. text.now ≡ file_text file) }
    ensures text { IfOk result (λ file. IsText text.now file) }
    ensures refused { IfErr result (λ fault. IsRefused text.now fault) }
{
    let mut bytes = Cursor::new(text.bytes());
    match whole(alloc, &mut bytes) {
        Ok(file) => Ok(file),
        Err(Stop::NoText) => Err(refusal(alloc, text)),
        Err(Stop::NoMem) => Err(CFault::NoMem),
    }
}

/// The file that a text spells, which keeps the rules of a C file.
pub fn read_c(alloc: Global, text: &Text) -> Result<CFile, CFault>
    ensures spelled { IfOk result (λ file. text.now ≡ file_text file) }
    ensures text { IfOk result (λ file. IsText text.now file) }
    ensures checked { IfOk result (λ file. IsChecked file) }
    ensures refused { IfErr result (λ fault. IsRefused text.now fault) }
{
    let file = read_text(alloc, text)?;
    match checked(&file) {
        Ok(()) => Ok(file),
        Err(declaration) => Err(CFault::NotChecked(declaration)),
    }
}
