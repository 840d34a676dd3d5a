// The first line of a refused text that no C text has there.
ghost use Rattle.std.specs.Prelude.{◌≡◌, ◌+◌, ◌++◌, ◌==◌, ◌&&◌, ◌≤◌, IfOk, cond, codes, length, true};
ghost use Rattle.csub_text.specs.Read.{begins, literal, mapped};
ghost use Rattle.csub_text.specs.ReadFile as of;
ghost use Rattle.csub_text.specs.Lines.{line_len, block_line};
ghost use Rattle.csub_text.specs.ReadLine as pure;
ghost use Rattle.csub_text.specs.Text.{IsNoText, IsDead, has_line};
ghost use Rattle.csub_text.specs.declared.places.Place.TheVariants as place;
ghost use Rattle.csub_reader.specs.Reads.{Reads};
ghost use Rattle.csub_reader.specs.Follows.{Counts, Gives, Goes, Follows};

use crate::cursor::Cursor;
use crate::fault::Stop;
use crate::names::{before_name, expect_name, name};
use crate::parts::{field_line, head, prototype, sees_base_line, sees_field_line};
use crate::read::{local_line, name_line, sees_prototype, static_text};
use crate::statements::{is_end, statement_line};
use csub_text::Place;
use rpy_base::{NoMem, Text};
use std::alloc::Global;

// More than 2^64 lines would want more memory than there is.
fn next(n: u64) -> Result<u64, Stop>
    ensures { Counts n result }
{
    n.checked_add(1).ok_or(Stop::NoMem)
}

#[tactic(auto, unfolding(csub_text::specs::ReadLine::at_function))]
fn at_function(alloc: Global, bytes: &mut Cursor<'_>, n: u64) -> Result<Place, Stop>
    ensures reads { Reads (pure.at_function n bytes.old) result bytes.new }
    ensures fits { Goes (place.Functions n) bytes.old result bytes.new }
{
    name_line(alloc, bytes)?;
    Ok(Place::Named(n))
}

fn static_line(alloc: Global, bytes: &mut Cursor<'_>, n: u64) -> Result<Place, Stop>
    ensures reads { Reads (mapped (λ g. place.Statics (n + 1)) (of.static_text n bytes.old)) result bytes.new }
    ensures fits { Goes (place.Statics n) bytes.old result bytes.new }
{
    static_text(alloc, bytes, n)?;
    Ok(Place::Statics(next(n)?))
}

#[tactic(auto, unfolding(csub_text::specs::ReadLine::at_static))]
fn at_static(alloc: Global, bytes: &mut Cursor<'_>, n: u64) -> Result<Place, Stop>
    ensures reads { Reads (pure.at_static n bytes.old) result bytes.new }
    ensures fits { Goes (place.Statics n) bytes.old result bytes.new }
{
    if bytes.sees(b"static ") {
        static_line(alloc, bytes, n)
    } else {
        at_function(alloc, bytes, 0)
    }
}

fn prototype_line(alloc: Global, bytes: &mut Cursor<'_>, n: u64) -> Result<Place, Stop>
    ensures reads { Reads (mapped (λ p. place.Prototypes (n + 1)) (of.prototype n bytes.old)) result bytes.new }
    ensures fits { Goes (place.Prototypes n) bytes.old result bytes.new }
{
    prototype(alloc, bytes, n)?;
    Ok(Place::Prototypes(next(n)?))
}

#[tactic(auto, unfolding(csub_text::specs::ReadLine::at_prototype))]
fn at_prototype(alloc: Global, bytes: &mut Cursor<'_>, n: u64) -> Result<Place, Stop>
    ensures reads { Reads (pure.at_prototype n bytes.old) result bytes.new }
    ensures fits { Goes (place.Prototypes n) bytes.old result bytes.new }
{
    if sees_prototype(bytes.rest()) {
        prototype_line(alloc, bytes, n)
    } else {
        at_static(alloc, bytes, 0)
    }
}

#[tactic(auto, unfolding(csub_text::specs::ReadLine::struct_start))]
fn struct_start(bytes: &mut Cursor<'_>, n: u64) -> Result<Place, Stop>
    ensures reads { Reads (pure.struct_start n bytes.old) result bytes.new }
    ensures fits { Goes (place.Structs n) bytes.old result bytes.new }
{
    expect_name(bytes, b"struct s", n)?;
    bytes.expect(b" {\n")?;
    Ok(Place::Fields(n, 0))
}

#[tactic(auto, unfolding(csub_text::specs::ReadLine::at_struct))]
fn at_struct(alloc: Global, bytes: &mut Cursor<'_>, n: u64) -> Result<Place, Stop>
    ensures reads { Reads (pure.at_struct n bytes.old) result bytes.new }
    ensures fits { Goes (place.Structs n) bytes.old result bytes.new }
{
    if bytes.sees(b"struct ") {
        struct_start(bytes, n)
    } else {
        at_prototype(alloc, bytes, 0)
    }
}

fn struct_end(bytes: &mut Cursor<'_>, n: u64) -> Result<Place, Stop>
    ensures reads { Reads (literal (codes "};\n") (place.Structs (n + 1)) bytes.old) result bytes.new }
    ensures spelled { IfOk result (λ next. (next ≡ place.Structs (n + 1)) × (bytes.old ≡ codes "};\n" ++ bytes.new)) }
{
    bytes.expect(b"};\n")?;
    Ok(Place::Structs(next(n)?))
}

fn fields_end(bytes: &mut Cursor<'_>, n: u64, k: u64) -> Result<Place, Stop>
    ensures reads { Reads (literal (codes "};\n") (place.Structs (n + 1)) bytes.old) result bytes.new }
    ensures fits { Goes (place.Fields n k) bytes.old result bytes.new }
{
    struct_end(bytes, n)
}

#[tactic(auto, unfolding(csub_text::specs::ReadLine::items_line))]
fn items_line(bytes: &mut Cursor<'_>, n: u64, k: u64) -> Result<Place, Stop>
    ensures reads { Reads (pure.items_line n bytes.old) result bytes.new }
    ensures fits { Goes (place.Fields n k) bytes.old result bytes.new }
{
    bytes.expect(b"    ")?;
    before_name(bytes)?;
    bytes.expect(b"items[];\n")?;
    Ok(Place::Items(n))
}

#[tactic(auto, unfolding(csub_text::specs::ReadLine::items_or_end))]
fn items_or_end(bytes: &mut Cursor<'_>, n: u64, k: u64) -> Result<Place, Stop>
    ensures reads { Reads (pure.items_or_end n bytes.old) result bytes.new }
    ensures fits { Goes (place.Fields n k) bytes.old result bytes.new }
{
    if bytes.sees(b"    ") {
        items_line(bytes, n, k)
    } else {
        fields_end(bytes, n, k)
    }
}

fn next_field(bytes: &mut Cursor<'_>, n: u64, k: u64) -> Result<Place, Stop>
    ensures reads { Reads (mapped (λ t. place.Fields n (k + 1)) (of.field_line k bytes.old)) result bytes.new }
    ensures fits { Goes (place.Fields n k) bytes.old result bytes.new }
{
    field_line(bytes, k)?;
    Ok(Place::Fields(n, next(k)?))
}

#[tactic(auto, unfolding(csub_text::specs::ReadLine::no_base))]
fn no_base(bytes: &mut Cursor<'_>, n: u64, k: u64) -> Result<Place, Stop>
    ensures reads { Reads (pure.no_base n k bytes.old) result bytes.new }
    ensures fits { Goes (place.Fields n k) bytes.old result bytes.new }
{
    if sees_field_line(bytes.rest()) {
        next_field(bytes, n, k)
    } else {
        items_or_end(bytes, n, k)
    }
}

#[tactic(auto, unfolding(csub_text::specs::ReadLine::base_line))]
fn base_line(bytes: &mut Cursor<'_>, n: u64) -> Result<Place, Stop>
    ensures reads { Reads (pure.base_line n bytes.old) result bytes.new }
    ensures fits { Goes (place.Fields n 0) bytes.old result bytes.new }
{
    name(bytes, b"    struct s")?;
    bytes.expect(b" a0;\n")?;
    Ok(Place::Fields(n, 1))
}

#[tactic(auto, unfolding(csub_text::specs::ReadLine::at_field))]
fn at_field(bytes: &mut Cursor<'_>, n: u64, k: u64) -> Result<Place, Stop>
    ensures reads { Reads (pure.at_field n k bytes.old) result bytes.new }
    ensures fits { Goes (place.Fields n k) bytes.old result bytes.new }
{
    if k == 0 && sees_base_line(bytes.rest()) {
        base_line(bytes, n)
    } else {
        no_base(bytes, n, k)
    }
}

#[tactic(auto, unfolding(csub_text::specs::ReadLine::at_head))]
fn at_head(alloc: Global, bytes: &mut Cursor<'_>, n: u64) -> Result<Place, Stop>
    ensures reads { Reads (pure.at_head n bytes.old) result bytes.new }
    ensures fits { Goes (place.Named n) bytes.old result bytes.new }
{
    let head_of = head(alloc, bytes, n)?;
    bytes.expect(b"\n")?;
    Ok(Place::Headed(n, head_of.params.len() as u64))
}

#[tactic(auto, unfolding(csub_text::specs::ReadLine::block_start))]
fn block_start(bytes: &mut Cursor<'_>, n: u64, b: u64) -> Result<Place, Stop>
    ensures reads { Reads (pure.block_start n b bytes.old) result bytes.new }
    ensures spelled { IfOk result (λ next. (next ≡ place.Statements n b) × (bytes.old ≡ block_line b ++ bytes.new)) }
{
    expect_name(bytes, b"b", b)?;
    bytes.expect(b":\n")?;
    Ok(Place::Statements(n, b))
}

fn next_local(bytes: &mut Cursor<'_>, n: u64, k: u64) -> Result<Place, Stop>
    ensures reads { Reads (mapped (λ t. place.Locals n (k + 1)) (of.local_line k bytes.old)) result bytes.new }
    ensures fits { Goes (place.Locals n k) bytes.old result bytes.new }
{
    local_line(bytes, k)?;
    Ok(Place::Locals(n, next(k)?))
}

#[tactic(auto, unfolding(csub_text::specs::ReadLine::at_local))]
fn at_local(bytes: &mut Cursor<'_>, n: u64, k: u64) -> Result<Place, Stop>
    ensures reads { Reads (pure.at_local n k bytes.old) result bytes.new }
    ensures fits { Goes (place.Locals n k) bytes.old result bytes.new }
{
    if bytes.sees(b"    ") {
        next_local(bytes, n, k)
    } else {
        block_start(bytes, n, 0)
    }
}

// The place after a statement, by whether it ends its block.
fn after_statement(ends: bool, n: u64, b: u64) -> Result<Place, Stop>
    ensures { Gives (cond ends (place.Blocks n (b + 1)) (place.Statements n b)) result }
{
    if ends {
        Ok(Place::Blocks(n, next(b)?))
    } else {
        Ok(Place::Statements(n, b))
    }
}

#[tactic(auto, unfolding(csub_text::specs::ReadLine::at_statement))]
fn at_statement(alloc: Global, bytes: &mut Cursor<'_>, n: u64, b: u64) -> Result<Place, Stop>
    ensures reads { Reads (pure.at_statement n b bytes.old) result bytes.new }
    ensures fits { Goes (place.Statements n b) bytes.old result bytes.new }
{
    let s = statement_line(alloc, bytes)?;
    after_statement(is_end(&s), n, b)
}

fn function_end(bytes: &mut Cursor<'_>, n: u64) -> Result<Place, Stop>
    ensures reads { Reads (literal (codes "}\n") (place.Functions (n + 1)) bytes.old) result bytes.new }
    ensures spelled { IfOk result (λ next. (next ≡ place.Functions (n + 1)) × (bytes.old ≡ codes "}\n" ++ bytes.new)) }
{
    bytes.expect(b"}\n")?;
    Ok(Place::Functions(next(n)?))
}

#[tactic(auto, unfolding(csub_text::specs::ReadLine::at_block))]
fn at_block(bytes: &mut Cursor<'_>, n: u64, b: u64) -> Result<Place, Stop>
    ensures reads { Reads (pure.at_block n b bytes.old) result bytes.new }
    ensures fits { Goes (place.Blocks n b) bytes.old result bytes.new }
{
    if bytes.sees(b"b") {
        block_start(bytes, n, b)
    } else {
        function_end(bytes, n)
    }
}

// A line that is always the same.
fn fixed(bytes: &mut Cursor<'_>, line: &[u8], next: Place) -> Result<Place, Stop>
    ensures reads { Reads (literal line.now next bytes.old) result bytes.new }
    ensures spelled { IfOk result (λ q. (q ≡ next) × (bytes.old ≡ line.now ++ bytes.new)) }
{
    bytes.expect(line)?;
    Ok(next)
}

fn read_line(alloc: Global, bytes: &mut Cursor<'_>, at: Place) -> Result<Place, Stop>
    ensures reads { Reads (pure.read_line at bytes.old) result bytes.new }
    ensures fits { Goes at bytes.old result bytes.new }
{
    match at {
        Place::Start => fixed(bytes, b"/* C-sub 1 */\n", Place::Include),
        Place::Include => fixed(bytes, b"#include \"rpy_prim.h\"\n", Place::Structs(0)),
        Place::Structs(n) => at_struct(alloc, bytes, n),
        Place::Fields(n, k) => at_field(bytes, n, k),
        Place::Items(n) => struct_end(bytes, n),
        Place::Prototypes(n) => at_prototype(alloc, bytes, n),
        Place::Statics(n) => at_static(alloc, bytes, n),
        Place::Functions(n) => at_function(alloc, bytes, n),
        Place::Named(n) => at_head(alloc, bytes, n),
        Place::Headed(n, k) => fixed(bytes, b"{\n", Place::Locals(n, k)),
        Place::Locals(n, k) => at_local(bytes, n, k),
        Place::Statements(n, b) => at_statement(alloc, bytes, n, b),
        Place::Blocks(n, b) => at_block(bytes, n, b),
    }
}

// The place after a line.
fn follow(alloc: Global, at: Place, line: &[u8]) -> Result<Place, Stop>
    ensures { Follows at line.now result }
{
    let mut bytes = Cursor::new(line);
    match read_line(alloc, &mut bytes, at) {
        Ok(next) => {
            if bytes.is_at_end() {
                Ok(next)
            } else {
                Err(Stop::NoText)
            }
        }
        Err(fault) => Err(fault),
    }
}

fn has_line(bytes: &[u8]) -> bool
    ensures { result ≡ has_line bytes.now }
{
    for b in bytes {
        if *b == b'\n' {
            return true;
        }
    }
    false
}

#[tactic(auto, unfolding(csub_text::specs::Lines::line_len))]
fn line_len(bytes: &[u8]) -> usize
    ensures value { result ≡ line_len bytes.now }
    ensures within { result ≤ length bytes.now }
{
    let mut n = 0;
    for b in bytes {
        n += 1;
        if *b == b'\n' {
            return n;
        }
    }
    n
}

/// The first line such that no C text begins with the lines up to it, counted from 1, of bytes that
/// are no C text.
pub fn dead_line(alloc: Global, text: &Text) -> Result<u64, NoMem>
    requires { IsNoText text.now }
    ensures { IfOk result (λ k. IsDead text.now k) }
{
    let mut rest = text.bytes();
    let mut at = Place::Start;
    let mut lines = 0u64;
    while has_line(rest) {
        let (line, more) = rest.split_at(line_len(rest));
        match follow(alloc, at, line) {
            Ok(next) => at = next,
            Err(Stop::NoText) => return Ok(lines + 1),
            Err(Stop::NoMem) => return Err(NoMem),
        }
        rest = more;
        lines += 1;
    }
    Ok(lines + 1)
}
