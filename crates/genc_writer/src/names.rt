// Names, numbers, types, constants and operands.
ghost use Rattle.std.specs.Prelude.{◌≡◌, ◌++◌, OnOk, codes};
ghost use Rattle.std.specs.Fmt.{decimal, signed_decimal};
ghost use Rattle.csub_tree.specs.Spelling.{struct_name, variable_name, before_name, result_before_name, type_alone, result_alone, word, cast, constant_text, operand_text};

use csub_tree::{CConst, COperand, CType};
use itoa::Buffer;
use rpy_base::{NoMem, Text};

pub fn put_number(text: &mut Text, n: u64) -> Result<(), NoMem>
    ensures { OnOk result (text.new ≡ text.old ++ decimal n) }
{
    let mut buffer = Buffer::new();
    text.append(buffer.format(n).as_bytes())
}

/// A letter and a number.
pub fn put_name(text: &mut Text, letter: &[u8], n: u64) -> Result<(), NoMem>
    ensures { OnOk result (text.new ≡ text.old ++ (letter.now ++ decimal n)) }
{
    text.append(letter)?;
    put_number(text, n)
}

fn put_pointer(text: &mut Text, n: u64) -> Result<(), NoMem>
    ensures { OnOk result (text.new ≡ text.old ++ (codes "struct " ++ struct_name n ++ codes " *")) }
{
    text.append(b"struct s")?;
    put_number(text, n)?;
    text.append(b" *")
}

/// A type before a name.
pub fn put_before_name(text: &mut Text, kind: CType) -> Result<(), NoMem>
    ensures { OnOk result (text.new ≡ text.old ++ before_name kind) }
{
    match kind {
        CType::Signed => text.append(b"Signed "),
        CType::Char => text.append(b"Char "),
        CType::Bool => text.append(b"Bool "),
        CType::Fn => text.append(b"Fn "),
        CType::Ptr(n) => put_pointer(text, n),
    }
}

pub fn put_result_before_name(text: &mut Text, result_type: Option<CType>) -> Result<(), NoMem>
    ensures { OnOk result (text.new ≡ text.old ++ result_before_name result_type) }
{
    match result_type {
        None => text.append(b"void "),
        Some(kind) => put_before_name(text, kind),
    }
}

/// A type by itself.
pub fn put_type_alone(text: &mut Text, kind: CType) -> Result<(), NoMem>
    ensures { OnOk result (text.new ≡ text.old ++ type_alone kind) }
{
    match kind {
        CType::Signed => text.append(b"Signed"),
        CType::Char => text.append(b"Char"),
        CType::Bool => text.append(b"Bool"),
        CType::Fn => text.append(b"Fn"),
        CType::Ptr(n) => put_pointer(text, n),
    }
}

pub fn put_result_alone(text: &mut Text, result_type: Option<CType>) -> Result<(), NoMem>
    ensures { OnOk result (text.new ≡ text.old ++ result_alone result_type) }
{
    match result_type {
        None => text.append(b"void"),
        Some(kind) => put_type_alone(text, kind),
    }
}

fn put_decimal_word(text: &mut Text, z: i64) -> Result<(), NoMem>
    ensures { OnOk result (text.new ≡ text.old ++ (signed_decimal z ++ codes "L")) }
{
    let mut buffer = Buffer::new();
    text.append(buffer.format(z).as_bytes())?;
    text.append(b"L")
}

fn put_word(text: &mut Text, z: i64) -> Result<(), NoMem>
    ensures { OnOk result (text.new ≡ text.old ++ word z) }
{
    if z == i64::MIN {
        text.append(b"RPY_MIN")
    } else {
        put_decimal_word(text, z)
    }
}

pub fn put_cast(text: &mut Text, n: u64) -> Result<(), NoMem>
    ensures { OnOk result (text.new ≡ text.old ++ cast n) }
{
    text.append(b"(struct s")?;
    put_number(text, n)?;
    text.append(b" *)")
}

fn put_bool(text: &mut Text, b: bool) -> Result<(), NoMem>
    ensures { OnOk result (text.new ≡ text.old ++ constant_text (CConst.Bool b)) }
{
    if b {
        text.append(b"RPY_TRUE")
    } else {
        text.append(b"RPY_FALSE")
    }
}

fn put_char(text: &mut Text, n: u8) -> Result<(), NoMem>
    ensures { OnOk result (text.new ≡ text.old ++ (codes "(Char)" ++ decimal n)) }
{
    put_name(text, b"(Char)", u64::from(n))
}

fn put_static(text: &mut Text, s: u64, g: u64) -> Result<(), NoMem>
    ensures { OnOk result (text.new ≡ text.old ++ constant_text (CConst.Static s g)) }
{
    put_cast(text, s)?;
    put_name(text, b"&g", g)
}

pub fn put_constant(text: &mut Text, constant: CConst) -> Result<(), NoMem>
    ensures { OnOk result (text.new ≡ text.old ++ constant_text constant) }
{
    match constant {
        CConst::Word(z) => put_word(text, z),
        CConst::Char(n) => put_char(text, n),
        CConst::Bool(b) => put_bool(text, b),
        CConst::Null => text.append(b"NULL"),
        CConst::Static(s, g) => put_static(text, s, g),
        CConst::Fun(f) => put_name(text, b"(Fn)f", f),
    }
}

pub fn put_operand(text: &mut Text, operand: COperand) -> Result<(), NoMem>
    ensures { OnOk result (text.new ≡ text.old ++ operand_text operand) }
{
    match operand {
        COperand::Var(v) => put_name(text, b"v", v),
        COperand::Const(constant) => put_constant(text, constant),
    }
}
