// Names, numbers, types, constants and operands. A number is read as the one whose decimal comes
// next, so that each has one spelling.
ghost use Rattle.std.specs.Prelude.{◌≡◌, ◌+◌, ◌*◌, ◌^◌, ◌<◌, ◌++◌, OnOk, IfOk, codes, negsuc};
ghost use Rattle.std.specs.Option.{SomeIff};
ghost use Rattle.csub_tree.specs.declared.tree.CConst.TheVariants as const;
ghost use Rattle.csub_text.specs.Read as pure;
ghost use Rattle.csub_text.specs.Read.{stripped, literal, after, and_then, mapped, lead};
ghost use Rattle.csub_reader.specs.Reads.{Reads, Finds, Strips};
ghost use Rattle.std.specs.Fmt.{decimal, signed_decimal};
ghost use Rattle.csub_tree.specs.Spelling.{struct_name, variable_name, before_name, result_before_name, type_alone, result_alone, word, cast, constant_text, operand_text};

use crate::cursor::Cursor;
use crate::fault::Stop;
use csub_tree::{CConst, COperand, CType};
use itoa::Buffer;

fn is_digit(b: u8) -> bool
    ensures { result ≡ pure.is_digit b }
{
    b'0' <= b && b <= b'9'
}

fn longer(n: u64, digit: u8) -> Option<u64>
    ensures { SomeIff result (n * 10 + digit < 2 ^ 64) (n * 10 + digit) }
{
    n.checked_mul(10)?.checked_add(u64::from(digit))
}

// What the digits at the front are, where that is below 2^64. Where there are none, it is 0.
#[tactic(auto, using(crate::proofs::Digits::lead_turn, crate::proofs::Digits::lead_stop, crate::proofs::Digits::lead_past, crate::proofs::Digits::lead_all), unfolding(csub_text::specs::Read::lead))]
fn digits(bytes: &[u8]) -> Option<u64>
    ensures { SomeIff result (lead 0 bytes.now < 2 ^ 64) (lead 0 bytes.now) }
{
    let mut n = 0;
    for b in bytes {
        if !is_digit(*b) {
            return Some(n);
        }
        n = longer(n, b.wrapping_sub(b'0'))?;
    }
    Some(n)
}

/// Goes past this number.
pub fn expect_number(bytes: &mut Cursor<'_>, n: u64) -> Result<(), Stop>
    ensures spelled { OnOk result (bytes.old ≡ decimal n ++ bytes.new) }
    ensures reads { Strips (stripped (decimal n) bytes.old) result bytes.new }
{
    let mut buffer = Buffer::new();
    bytes.expect(buffer.format(n).as_bytes())
}

/// A decimal without leading zero, below 2^64.
#[tactic(auto, unfolding(csub_text::specs::Read::number_below, csub_text::specs::Read::expect_number))]
pub fn number(bytes: &mut Cursor<'_>) -> Result<u64, Stop>
    ensures spelled { IfOk result (λ n. bytes.old ≡ decimal n ++ bytes.new) }
    ensures reads { Finds (pure.number_below (2 ^ 64) bytes.old) result bytes.new }
{
    let Some(n) = digits(bytes.rest()) else {
        return Err(Stop::NoText);
    };
    expect_number(bytes, n)?;
    Ok(n)
}

/// A letter, or more before the number, and a number.
pub fn name(bytes: &mut Cursor<'_>, letter: &[u8]) -> Result<u64, Stop>
    ensures spelled { IfOk result (λ n. bytes.old ≡ (letter.now ++ decimal n) ++ bytes.new) }
    ensures reads { Finds (pure.name letter.now bytes.old) result bytes.new }
{
    bytes.expect(letter)?;
    number(bytes)
}

/// Goes past this name.
#[tactic(auto, using(crate::proofs::Strip::strips_fail, crate::proofs::Strip::strips_on))]
pub fn expect_name(bytes: &mut Cursor<'_>, letter: &[u8], n: u64) -> Result<(), Stop>
    ensures spelled { OnOk result (bytes.old ≡ (letter.now ++ decimal n) ++ bytes.new) }
    ensures reads { Strips (stripped (letter.now ++ decimal n) bytes.old) result bytes.new }
{
    bytes.expect(letter)?;
    expect_number(bytes, n)
}

#[tactic(auto, unfolding(csub_text::specs::Read::pointer))]
fn pointer(bytes: &mut Cursor<'_>) -> Result<CType, Stop>
    ensures spelled { IfOk result (λ kind. bytes.old ≡ before_name kind ++ bytes.new) }
    ensures reads { Finds (pure.pointer bytes.old) result bytes.new }
{
    let n = name(bytes, b"struct s")?;
    bytes.expect(b" *")?;
    Ok(CType::Ptr(n))
}

/// A type before a name.
#[tactic(auto, unfolding(csub_text::specs::Read::before_name))]
pub fn before_name(bytes: &mut Cursor<'_>) -> Result<CType, Stop>
    ensures spelled { IfOk result (λ kind. bytes.old ≡ before_name kind ++ bytes.new) }
    ensures reads { Finds (pure.before_name bytes.old) result bytes.new }
{
    if bytes.sees(b"Signed ") {
        bytes.expect(b"Signed ")?;
        Ok(CType::Signed)
    } else if bytes.sees(b"Char ") {
        bytes.expect(b"Char ")?;
        Ok(CType::Char)
    } else if bytes.sees(b"Bool ") {
        bytes.expect(b"Bool ")?;
        Ok(CType::Bool)
    } else if bytes.sees(b"Fn ") {
        bytes.expect(b"Fn ")?;
        Ok(CType::Fn)
    } else {
        pointer(bytes)
    }
}

/// A cast to a pointer.
#[tactic(auto, unfolding(csub_text::specs::Read::cast))]
pub fn cast(bytes: &mut Cursor<'_>) -> Result<u64, Stop>
    ensures spelled { IfOk result (λ n. bytes.old ≡ cast n ++ bytes.new) }
    ensures reads { Finds (pure.cast bytes.old) result bytes.new }
{
    let n = name(bytes, b"(struct s")?;
    bytes.expect(b" *)")?;
    Ok(n)
}

/// The type of a result before a name.
#[tactic(auto, unfolding(csub_text::specs::Read::result_before_name))]
pub fn result_before_name(bytes: &mut Cursor<'_>) -> Result<Option<CType>, Stop>
    ensures spelled { IfOk result (λ kind. bytes.old ≡ result_before_name kind ++ bytes.new) }
    ensures reads { Reads (pure.result_before_name bytes.old) result bytes.new }
{
    if bytes.sees(b"void ") {
        bytes.expect(b"void ")?;
        Ok(None)
    } else {
        Ok(Some(before_name(bytes)?))
    }
}

#[tactic(auto, unfolding(csub_text::specs::Read::pointer))]
fn pointer_alone(bytes: &mut Cursor<'_>) -> Result<CType, Stop>
    ensures spelled { IfOk result (λ kind. bytes.old ≡ type_alone kind ++ bytes.new) }
    ensures reads { Reads (pure.pointer bytes.old) result bytes.new }
{
    let n = name(bytes, b"struct s")?;
    bytes.expect(b" *")?;
    Ok(CType::Ptr(n))
}

/// A type by itself.
#[tactic(auto, unfolding(csub_text::specs::Read::type_alone))]
pub fn type_alone(bytes: &mut Cursor<'_>) -> Result<CType, Stop>
    ensures spelled { IfOk result (λ kind. bytes.old ≡ type_alone kind ++ bytes.new) }
    ensures reads { Reads (pure.type_alone bytes.old) result bytes.new }
{
    if bytes.sees(b"Signed") {
        bytes.expect(b"Signed")?;
        Ok(CType::Signed)
    } else if bytes.sees(b"Char") {
        bytes.expect(b"Char")?;
        Ok(CType::Char)
    } else if bytes.sees(b"Bool") {
        bytes.expect(b"Bool")?;
        Ok(CType::Bool)
    } else if bytes.sees(b"Fn") {
        bytes.expect(b"Fn")?;
        Ok(CType::Fn)
    } else {
        pointer_alone(bytes)
    }
}

/// The type of a result by itself.
#[tactic(auto, unfolding(csub_text::specs::Read::result_alone))]
pub fn result_alone(bytes: &mut Cursor<'_>) -> Result<Option<CType>, Stop>
    ensures spelled { IfOk result (λ kind. bytes.old ≡ result_alone kind ++ bytes.new) }
    ensures reads { Reads (pure.result_alone bytes.old) result bytes.new }
{
    if bytes.sees(b"void") {
        bytes.expect(b"void")?;
        Ok(None)
    } else {
        Ok(Some(type_alone(bytes)?))
    }
}

// The word that the sign and the digits at the front are, where it is one.
#[tactic(auto, unfolding(csub_text::specs::Read::word_value))]
fn word_value(bytes: &[u8]) -> Option<i64>
    ensures { result ≡ pure.word_value bytes.now }
{
    match bytes {
        [b'-', rest @ ..] => 0i64.checked_sub(i64::try_from(digits(rest)?).ok()?),
        _ => i64::try_from(digits(bytes)?).ok(),
    }
}

#[tactic(auto, using(crate::proofs::Strip::strips_fail, crate::proofs::Strip::strips_on))]
fn expect_decimal_word(bytes: &mut Cursor<'_>, z: i64) -> Result<(), Stop>
    ensures spelled { OnOk result (bytes.old ≡ (signed_decimal z ++ codes "L") ++ bytes.new) }
    ensures reads { Strips (stripped (signed_decimal z ++ codes "L") bytes.old) result bytes.new }
{
    let mut buffer = Buffer::new();
    bytes.expect(buffer.format(z).as_bytes())?;
    bytes.expect(b"L")
}

// The smallest word has a spelling of its own.
fn expect_word(bytes: &mut Cursor<'_>, z: i64) -> Result<(), Stop>
    ensures spelled { OnOk result (bytes.old ≡ word z ++ bytes.new) }
    ensures reads { Strips (stripped (word z) bytes.old) result bytes.new }
{
    if z == i64::MIN {
        bytes.expect(b"RPY_MIN")
    } else {
        expect_decimal_word(bytes, z)
    }
}

#[tactic(auto, unfolding(csub_text::specs::Read::decimal_word))]
fn decimal_word(bytes: &mut Cursor<'_>) -> Result<CConst, Stop>
    ensures spelled { IfOk result (λ constant. bytes.old ≡ constant_text constant ++ bytes.new) }
    ensures reads { Reads (mapped const.Word (pure.decimal_word bytes.old)) result bytes.new }
{
    let Some(z) = word_value(bytes.rest()) else {
        return Err(Stop::NoText);
    };
    expect_word(bytes, z)?;
    Ok(CConst::Word(z))
}

fn smallest_word(bytes: &mut Cursor<'_>) -> Result<CConst, Stop>
    ensures spelled { IfOk result (λ constant. bytes.old ≡ constant_text constant ++ bytes.new) }
    ensures reads { Reads (literal (codes "RPY_MIN") (const.Word (negsuc 9223372036854775807)) bytes.old) result bytes.new }
{
    expect_word(bytes, i64::MIN)?;
    Ok(CConst::Word(i64::MIN))
}

// A decimal without leading zero, at most 255.
#[tactic(auto, unfolding(csub_text::specs::Read::number_below, csub_text::specs::Read::expect_number))]
fn byte(bytes: &mut Cursor<'_>) -> Result<u8, Stop>
    ensures spelled { IfOk result (λ n. bytes.old ≡ decimal n ++ bytes.new) }
    ensures reads { Reads (pure.number_below 256 bytes.old) result bytes.new }
{
    let Some(n) = digits(bytes.rest()) else {
        return Err(Stop::NoText);
    };
    let Ok(byte) = u8::try_from(n) else {
        return Err(Stop::NoText);
    };
    expect_number(bytes, u64::from(byte))?;
    Ok(byte)
}

fn char_constant(bytes: &mut Cursor<'_>) -> Result<CConst, Stop>
    ensures spelled { IfOk result (λ constant. bytes.old ≡ constant_text constant ++ bytes.new) }
    ensures reads { Reads (after (stripped (codes "(Char)") bytes.old) (λ j. mapped const.Char (pure.number_below 256 j))) result bytes.new }
{
    bytes.expect(b"(Char)")?;
    Ok(CConst::Char(byte(bytes)?))
}

fn static_constant(bytes: &mut Cursor<'_>) -> Result<CConst, Stop>
    ensures spelled { IfOk result (λ constant. bytes.old ≡ constant_text constant ++ bytes.new) }
    ensures reads { Reads (and_then (pure.cast bytes.old) (λ s j. mapped (const.Static s) (pure.name (codes "&g") j))) result bytes.new }
{
    let kind = cast(bytes)?;
    let n = name(bytes, b"&g")?;
    Ok(CConst::Static(kind, n))
}

// A constant that is cast.
#[tactic(auto, unfolding(csub_text::specs::Read::cast_constant))]
fn cast_constant(bytes: &mut Cursor<'_>) -> Result<CConst, Stop>
    ensures spelled { IfOk result (λ constant. bytes.old ≡ constant_text constant ++ bytes.new) }
    ensures reads { Reads (pure.cast_constant bytes.old) result bytes.new }
{
    if bytes.sees(b"(Char)") {
        char_constant(bytes)
    } else if bytes.sees(b"(Fn)") {
        Ok(CConst::Fun(name(bytes, b"(Fn)f")?))
    } else {
        static_constant(bytes)
    }
}

#[tactic(auto, unfolding(csub_text::specs::Read::constant))]
pub fn constant(bytes: &mut Cursor<'_>) -> Result<CConst, Stop>
    ensures spelled { IfOk result (λ constant. bytes.old ≡ constant_text constant ++ bytes.new) }
    ensures reads { Reads (pure.constant bytes.old) result bytes.new }
{
    if bytes.sees(b"(") {
        cast_constant(bytes)
    } else if bytes.sees(b"RPY_TRUE") {
        bytes.expect(b"RPY_TRUE")?;
        Ok(CConst::Bool(true))
    } else if bytes.sees(b"RPY_FALSE") {
        bytes.expect(b"RPY_FALSE")?;
        Ok(CConst::Bool(false))
    } else if bytes.sees(b"RPY_MIN") {
        smallest_word(bytes)
    } else if bytes.sees(b"NULL") {
        bytes.expect(b"NULL")?;
        Ok(CConst::Null)
    } else {
        decimal_word(bytes)
    }
}

#[tactic(auto, unfolding(csub_text::specs::Read::operand))]
pub fn operand(bytes: &mut Cursor<'_>) -> Result<COperand, Stop>
    ensures spelled { IfOk result (λ operand. bytes.old ≡ operand_text operand ++ bytes.new) }
    ensures reads { Reads (pure.operand bytes.old) result bytes.new }
{
    if bytes.sees(b"v") {
        Ok(COperand::Var(name(bytes, b"v")?))
    } else {
        Ok(COperand::Const(constant(bytes)?))
    }
}
