// Structs, heads of functions and prototypes.
ghost use Rattle.std.specs.Prelude.{◌≡◌, ◌+◌, ◌++◌, ◌<◌, ◌^◌, OnOk, IfOk, Some, codes, [], ◌∷◌, length};
ghost use Rattle.std.specs.Fmt.{decimal};
ghost use Rattle.csub_text.specs.Read as read;
ghost use Rattle.csub_text.specs.Read.{stripped, begins, literal, after, and_then, mapped, ended};
ghost use Rattle.csub_text.specs.ReadFile as pure;
ghost use Rattle.csub_reader.specs.Reads.{Reads, Strips};
ghost use Rattle.csub_tree.specs.Spelling.{before_name, numbered, base_line, first_field, field_line, items_line, struct_text, parameter, more_parameter, parameters, head, prototype_text, line, inner_line};

use crate::cursor::Cursor;
use crate::fault::Stop;
use crate::names::{before_name, expect_name, name, result_before_name};
use csub_tree::{CPrototype, CStruct, CType};
use rpy_base::Seq;
use std::alloc::Global;

// Whether the next line is `    struct sN a0;`.
pub fn sees_base_line(bytes: &[u8]) -> bool
    ensures { result ≡ pure.sees_base_line bytes.now }
{
    let mut start = Cursor::new(bytes);
    name(&mut start, b"    struct s").is_ok() && start.sees(b" a0;\n")
}

// The inline base, with the start of its line.
fn base_line_from(bytes: &mut Cursor<'_>) -> Result<Option<u64>, Stop>
    ensures spelled { IfOk result (λ base. bytes.old ≡ base_line base ++ bytes.new) }
    ensures reads { Reads (mapped Some (ended (read.name (codes "    struct s") bytes.old) (codes " a0;\n"))) result bytes.new }
{
    let m = name(bytes, b"    struct s")?;
    bytes.expect(b" a0;\n")?;
    Ok(Some(m))
}

#[tactic(auto, unfolding(csub_text::specs::ReadFile::base_line))]
fn base_line(bytes: &mut Cursor<'_>) -> Result<Option<u64>, Stop>
    ensures spelled { IfOk result (λ base. bytes.old ≡ base_line base ++ bytes.new) }
    ensures reads { Reads (pure.base_line bytes.old) result bytes.new }
{
    if sees_base_line(bytes.rest()) {
        base_line_from(bytes)
    } else {
        Ok(None)
    }
}

fn first_of(base: Option<u64>) -> u64
    ensures value { result ≡ first_field base }
    ensures small { result < 2 }
{
    match base {
        None => 0,
        Some(_) => 1,
    }
}

// Whether the next line is `    TYPE aN;`, and not `    TYPE items[];`.
pub fn sees_field_line(bytes: &[u8]) -> bool
    ensures { result ≡ pure.sees_field_line bytes.now }
{
    let mut start = Cursor::new(bytes);
    start.expect(b"    ").is_ok() && before_name(&mut start).is_ok() && start.sees(b"a")
}

#[tactic(auto, unfolding(csub_text::specs::ReadFile::field_line))]
pub fn field_line(bytes: &mut Cursor<'_>, k: u64) -> Result<CType, Stop>
    ensures spelled { IfOk result (λ kind. bytes.old ≡ field_line k kind ++ bytes.new) }
    ensures reads { Reads (pure.field_line k bytes.old) result bytes.new }
{
    bytes.expect(b"    ")?;
    let kind = before_name(bytes)?;
    expect_name(bytes, b"a", k)?;
    bytes.expect(b";\n")?;
    Ok(kind)
}

#[tactic(auto, using(crate::proofs::Loops::while_stop, crate::proofs::Loops::while_done, crate::proofs::Loops::while_fail), unfolding(csub_text::specs::ReadFile::field_lines))]
fn field_lines(alloc: Global, bytes: &mut Cursor<'_>, first: u64) -> Result<Seq<CType>, Stop>
    requires { first < 2 }
    ensures spelled { IfOk result (λ kinds. bytes.old ≡ numbered field_line first kinds ++ bytes.new) }
    ensures reads { Reads (pure.field_lines first bytes.old) result bytes.new }
{
    let mut kinds = Seq::new(alloc);
    for _turn in 0..bytes.rest().len() {
        if !sees_field_line(bytes.rest()) {
            return Ok(kinds);
        }
        let kind = field_line(bytes, first + kinds.len() as u64)?;
        kinds.push(kind)?;
    }
    Ok(kinds)
}

fn items_line_from(bytes: &mut Cursor<'_>) -> Result<Option<CType>, Stop>
    ensures spelled { IfOk result (λ items. bytes.old ≡ items_line items ++ bytes.new) }
    ensures reads { Reads (after (stripped (codes "    ") bytes.old) (λ j. mapped Some (ended (read.before_name j) (codes "items[];\n")))) result bytes.new }
{
    bytes.expect(b"    ")?;
    let kind = before_name(bytes)?;
    bytes.expect(b"items[];\n")?;
    Ok(Some(kind))
}

#[tactic(auto, unfolding(csub_text::specs::ReadFile::items_line))]
fn items_line(bytes: &mut Cursor<'_>) -> Result<Option<CType>, Stop>
    ensures spelled { IfOk result (λ items. bytes.old ≡ items_line items ++ bytes.new) }
    ensures reads { Reads (pure.items_line bytes.old) result bytes.new }
{
    if bytes.sees(b"    ") {
        items_line_from(bytes)
    } else {
        Ok(None)
    }
}

/// Struct n.
#[tactic(auto, unfolding(csub_text::specs::ReadFile::struct_text))]
pub fn struct_text(alloc: Global, bytes: &mut Cursor<'_>, n: u64) -> Result<CStruct, Stop>
    ensures spelled { IfOk result (λ item. bytes.old ≡ struct_text n item ++ bytes.new) }
    ensures reads { Reads (pure.struct_text n bytes.old) result bytes.new }
{
    expect_name(bytes, b"struct s", n)?;
    bytes.expect(b" {\n")?;
    let base = base_line(bytes)?;
    let fields = field_lines(alloc, bytes, first_of(base))?;
    let items = items_line(bytes)?;
    bytes.expect(b"};\n")?;
    Ok(CStruct {
        base,
        fields,
        items,
    })
}

/// A type and a variable of this number.
#[tactic(auto, unfolding(csub_text::specs::ReadFile::parameter))]
pub fn parameter(bytes: &mut Cursor<'_>, k: u64) -> Result<CType, Stop>
    ensures spelled { IfOk result (λ kind. bytes.old ≡ parameter k kind ++ bytes.new) }
    ensures reads { Reads (pure.parameter k bytes.old) result bytes.new }
{
    let kind = before_name(bytes)?;
    expect_name(bytes, b"v", k)?;
    Ok(kind)
}

#[tactic(auto, unfolding(csub_text::specs::ReadFile::more_parameter))]
fn more_parameter(bytes: &mut Cursor<'_>, k: u64) -> Result<CType, Stop>
    ensures spelled { IfOk result (λ kind. bytes.old ≡ more_parameter k kind ++ bytes.new) }
    ensures reads { Reads (pure.more_parameter k bytes.old) result bytes.new }
{
    bytes.expect(b", ")?;
    parameter(bytes, k)
}

// The parameters after the first, which is given.
#[tactic(auto, using(crate::proofs::Loops::while_stop, crate::proofs::Loops::while_done, crate::proofs::Loops::while_fail))]
fn parameters_from(alloc: Global, bytes: &mut Cursor<'_>, first: CType) -> Result<Seq<CType>, Stop>
    ensures spelled { IfOk result (λ kinds. parameter 0 first ++ bytes.old ≡ parameters kinds ++ bytes.new) }
    ensures reads { Reads (mapped (λ ts. first ∷ ts) (pure.parts_while (begins (codes ", ")) pure.more_parameter (length bytes.old) 1 bytes.old)) result bytes.new }
{
    let mut kinds = Seq::new(alloc);
    kinds.push(first)?;
    for _turn in 0..bytes.rest().len() {
        if !bytes.sees(b", ") {
            return Ok(kinds);
        }
        let kind = more_parameter(bytes, kinds.len() as u64)?;
        kinds.push(kind)?;
    }
    Ok(kinds)
}

#[tactic(auto, unfolding(csub_text::specs::ReadFile::parameters))]
fn parameters(alloc: Global, bytes: &mut Cursor<'_>) -> Result<Seq<CType>, Stop>
    ensures spelled { IfOk result (λ kinds. bytes.old ≡ parameters kinds ++ bytes.new) }
    ensures reads { Reads (pure.parameters bytes.old) result bytes.new }
{
    if bytes.sees(b"void") {
        bytes.expect(b"void")?;
        return Ok(Seq::new(alloc));
    }
    let first = parameter(bytes, 0)?;
    parameters_from(alloc, bytes, first)
}

/// The head of function n.
#[tactic(auto, unfolding(csub_text::specs::ReadFile::head))]
pub fn head(alloc: Global, bytes: &mut Cursor<'_>, n: u64) -> Result<CPrototype, Stop>
    ensures spelled { IfOk result (λ head_of. bytes.old ≡ head n head_of.result head_of.params ++ bytes.new) }
    ensures reads { Reads (pure.head n bytes.old) result bytes.new }
{
    bytes.expect(b"static ")?;
    let result = result_before_name(bytes)?;
    expect_name(bytes, b"f", n)?;
    bytes.expect(b"(")?;
    let params = parameters(alloc, bytes)?;
    bytes.expect(b")")?;
    Ok(CPrototype { result, params })
}

#[tactic(auto, unfolding(csub_text::specs::ReadFile::prototype))]
pub fn prototype(alloc: Global, bytes: &mut Cursor<'_>, n: u64) -> Result<CPrototype, Stop>
    ensures spelled { IfOk result (λ prototype. bytes.old ≡ prototype_text n prototype ++ bytes.new) }
    ensures reads { Reads (pure.prototype n bytes.old) result bytes.new }
{
    let prototype = head(alloc, bytes, n)?;
    bytes.expect(b";\n")?;
    Ok(prototype)
}
