// Statements.
ghost use Rattle.std.specs.Prelude.{◌≡◌, ◌++◌, OnOk, codes, take, length};
ghost use Rattle.std.specs.List.{flat_map};
ghost use Rattle.std.specs.Fmt.{decimal};
ghost use Rattle.csub_tree.specs.Spelling.{variable_name, block_name, field_name, function_name, unary_name, binary_name, target, target_if_any, looked_into, item_of, listed, listed_or_void, more, operand_text, type_alone, arguments, callee, return_text, statement_text, statement_line, cast, struct_name};

use crate::names::{put_cast, put_name, put_number, put_operand, put_result_alone, put_type_alone};
use csub_tree::{CBinary, COperand, CStmt, CType, CUnary};
use rpy_base::{NoMem, Seq, Text};

fn name_of_unary(op: CUnary) -> &'static [u8]
    ensures { result.now ≡ unary_name op }
{
    match op {
        CUnary::Neg => b"RPY_NEG",
        CUnary::Inv => b"RPY_INV",
        CUnary::Not => b"RPY_NOT",
        CUnary::C2S => b"RPY_C2S",
        CUnary::S2C => b"RPY_S2C",
        CUnary::B2S => b"RPY_B2S",
    }
}

fn name_of_binary(op: CBinary) -> &'static [u8]
    ensures { result.now ≡ binary_name op }
{
    match op {
        CBinary::Add => b"RPY_ADD",
        CBinary::Sub => b"RPY_SUB",
        CBinary::Mul => b"RPY_MUL",
        CBinary::Div => b"RPY_DIV",
        CBinary::Mod => b"RPY_MOD",
        CBinary::Shl => b"RPY_SHL",
        CBinary::Shr => b"RPY_SHR",
        CBinary::And => b"RPY_AND",
        CBinary::Or => b"RPY_OR",
        CBinary::Xor => b"RPY_XOR",
        CBinary::AddOvf => b"RPY_ADD_OVF",
        CBinary::SubOvf => b"RPY_SUB_OVF",
        CBinary::MulOvf => b"RPY_MUL_OVF",
        CBinary::ShlOvf => b"RPY_SHL_OVF",
        CBinary::Eq => b"RPY_EQ",
        CBinary::Ne => b"RPY_NE",
        CBinary::Lt => b"RPY_LT",
        CBinary::Le => b"RPY_LE",
        CBinary::Gt => b"RPY_GT",
        CBinary::Ge => b"RPY_GE",
        CBinary::Beq => b"RPY_BEQ",
        CBinary::Peq => b"RPY_PEQ",
        CBinary::Feq => b"RPY_FEQ",
    }
}

fn put_target(text: &mut Text, v: u64) -> Result<(), NoMem>
    ensures { OnOk result (text.new ≡ text.old ++ target v) }
{
    put_name(text, b"v", v)?;
    text.append(b" = ")
}

fn put_target_if_any(text: &mut Text, v: Option<u64>) -> Result<(), NoMem>
    ensures { OnOk result (text.new ≡ text.old ++ target_if_any v) }
{
    match v {
        None => Ok(()),
        Some(v) => put_target(text, v),
    }
}

fn put_looked_into(text: &mut Text, s: u64, v: u64) -> Result<(), NoMem>
    ensures { OnOk result (text.new ≡ text.old ++ looked_into s v) }
{
    text.append(b"(")?;
    put_cast(text, s)?;
    put_name(text, b"v", v)?;
    text.append(b")->")
}

fn put_item_of(text: &mut Text, s: u64, v: u64, i: COperand) -> Result<(), NoMem>
    ensures { OnOk result (text.new ≡ text.old ++ item_of s v i) }
{
    put_looked_into(text, s, v)?;
    text.append(b"items[")?;
    put_operand(text, i)?;
    text.append(b"]")
}

fn put_more_operand(text: &mut Text, x: COperand) -> Result<(), NoMem>
    ensures { OnOk result (text.new ≡ text.old ++ more operand_text x) }
{
    text.append(b", ")?;
    put_operand(text, x)
}

fn put_more_operands(text: &mut Text, xs: &[COperand]) -> Result<(), NoMem>
    ensures { OnOk result (text.new ≡ text.old ++ flat_map (more operand_text) xs.now) }
{
    for x in xs {
        put_more_operand(text, *x)?;
    }
    Ok(())
}

fn put_operands(text: &mut Text, xs: &[COperand]) -> Result<(), NoMem>
    ensures { OnOk result (text.new ≡ text.old ++ listed operand_text xs.now) }
{
    match xs {
        [] => Ok(()),
        [first, rest @ ..] => {
            put_operand(text, *first)?;
            put_more_operands(text, rest)
        }
    }
}

fn put_arguments(text: &mut Text, xs: &[COperand]) -> Result<(), NoMem>
    ensures { OnOk result (text.new ≡ text.old ++ arguments xs.now) }
{
    text.append(b"(")?;
    put_operands(text, xs)?;
    text.append(b")")
}

fn put_more_type(text: &mut Text, kind: CType) -> Result<(), NoMem>
    ensures { OnOk result (text.new ≡ text.old ++ more type_alone kind) }
{
    text.append(b", ")?;
    put_type_alone(text, kind)
}

fn put_more_types(text: &mut Text, kinds: &[CType]) -> Result<(), NoMem>
    ensures { OnOk result (text.new ≡ text.old ++ flat_map (more type_alone) kinds.now) }
{
    for kind in kinds {
        put_more_type(text, *kind)?;
    }
    Ok(())
}

fn put_types(text: &mut Text, kinds: &[CType]) -> Result<(), NoMem>
    ensures { OnOk result (text.new ≡ text.old ++ listed_or_void type_alone kinds.now) }
{
    match kinds {
        [] => text.append(b"void"),
        [first, rest @ ..] => {
            put_type_alone(text, *first)?;
            put_more_types(text, rest)
        }
    }
}

fn put_callee(
    text: &mut Text,
    result_type: Option<CType>,
    kinds: &[CType],
    v: u64,
) -> Result<(), NoMem>
    ensures { OnOk result (text.new ≡ text.old ++ callee result_type kinds.now v) }
{
    text.append(b"((")?;
    put_result_alone(text, result_type)?;
    text.append(b" (*)(")?;
    put_types(text, kinds)?;
    text.append(b"))")?;
    put_name(text, b"v", v)?;
    text.append(b")")
}

fn put_unary(text: &mut Text, a: u64, op: CUnary, x: COperand) -> Result<(), NoMem>
    ensures { OnOk result (text.new ≡ text.old ++ statement_text (CStmt.Unary a op x)) }
{
    put_target(text, a)?;
    text.append(name_of_unary(op))?;
    text.append(b"(")?;
    put_operand(text, x)?;
    text.append(b");")
}

fn put_binary(text: &mut Text, a: u64, op: CBinary, x: COperand, y: COperand) -> Result<(), NoMem>
    ensures { OnOk result (text.new ≡ text.old ++ statement_text (CStmt.Binary a op x y)) }
{
    put_target(text, a)?;
    text.append(name_of_binary(op))?;
    text.append(b"(")?;
    put_operand(text, x)?;
    put_more_operand(text, y)?;
    text.append(b");")
}

fn put_set(text: &mut Text, a: u64, x: COperand) -> Result<(), NoMem>
    ensures { OnOk result (text.new ≡ text.old ++ statement_text (CStmt.Set a x)) }
{
    put_target(text, a)?;
    put_operand(text, x)?;
    text.append(b";")
}

fn put_get_field(text: &mut Text, a: u64, s: u64, b: u64, k: u64) -> Result<(), NoMem>
    ensures { OnOk result (text.new ≡ text.old ++ statement_text (CStmt.GetField a s b k)) }
{
    put_target(text, a)?;
    put_looked_into(text, s, b)?;
    put_name(text, b"a", k)?;
    text.append(b";")
}

fn put_set_field(text: &mut Text, s: u64, b: u64, k: u64, x: COperand) -> Result<(), NoMem>
    ensures { OnOk result (text.new ≡ text.old ++ statement_text (CStmt.SetField s b k x)) }
{
    put_looked_into(text, s, b)?;
    put_name(text, b"a", k)?;
    text.append(b" = ")?;
    put_operand(text, x)?;
    text.append(b";")
}

fn put_get_item(text: &mut Text, a: u64, s: u64, b: u64, i: COperand) -> Result<(), NoMem>
    ensures { OnOk result (text.new ≡ text.old ++ statement_text (CStmt.GetItem a s b i)) }
{
    put_target(text, a)?;
    put_item_of(text, s, b, i)?;
    text.append(b";")
}

fn put_set_item(text: &mut Text, s: u64, b: u64, i: COperand, x: COperand) -> Result<(), NoMem>
    ensures { OnOk result (text.new ≡ text.old ++ statement_text (CStmt.SetItem s b i x)) }
{
    put_item_of(text, s, b, i)?;
    text.append(b" = ")?;
    put_operand(text, x)?;
    text.append(b";")
}

fn put_new(text: &mut Text, a: u64, m: u64, s: u64) -> Result<(), NoMem>
    ensures { OnOk result (text.new ≡ text.old ++ statement_text (CStmt.New a m s)) }
{
    put_target(text, a)?;
    put_cast(text, m)?;
    put_name(text, b"RPY_NEW(struct s", s)?;
    text.append(b");")
}

fn put_new_array(text: &mut Text, a: u64, m: u64, s: u64, x: COperand) -> Result<(), NoMem>
    ensures { OnOk result (text.new ≡ text.old ++ statement_text (CStmt.NewArray a m s x)) }
{
    put_target(text, a)?;
    put_cast(text, m)?;
    put_name(text, b"RPY_NEWARRAY(struct s", s)?;
    put_more_operand(text, x)?;
    text.append(b");")
}

fn put_call(text: &mut Text, a: Option<u64>, f: u64, xs: &Seq<COperand>) -> Result<(), NoMem>
    ensures { OnOk result (text.new ≡ text.old ++ statement_text (CStmt.Call a f xs.now)) }
{
    put_target_if_any(text, a)?;
    put_name(text, b"f", f)?;
    put_arguments(text, xs.as_slice())?;
    text.append(b";")
}

fn put_call_fn(
    text: &mut Text,
    a: Option<u64>,
    result_type: Option<CType>,
    kinds: &Seq<CType>,
    b: u64,
    xs: &Seq<COperand>,
) -> Result<(), NoMem>
    ensures { OnOk result (text.new ≡ text.old ++ statement_text (CStmt.CallFn a result_type kinds.now b xs.now)) }
{
    put_target_if_any(text, a)?;
    put_callee(text, result_type, kinds.as_slice(), b)?;
    put_arguments(text, xs.as_slice())?;
    text.append(b";")
}

// A cast of what a call gives.
fn put_cast_call(text: &mut Text, a: u64, s: u64, call: &[u8]) -> Result<(), NoMem>
    ensures { OnOk result (text.new ≡ text.old ++ (target a ++ cast s ++ call.now)) }
{
    put_target(text, a)?;
    put_cast(text, s)?;
    text.append(call)
}

fn put_exc_type(text: &mut Text, a: u64, s: u64) -> Result<(), NoMem>
    ensures { OnOk result (text.new ≡ text.old ++ statement_text (CStmt.ExcType a s)) }
{
    put_cast_call(text, a, s, b"RPY_EXC_TYPE();")
}

fn put_exc_value(text: &mut Text, a: u64, s: u64) -> Result<(), NoMem>
    ensures { OnOk result (text.new ≡ text.old ++ statement_text (CStmt.ExcValue a s)) }
{
    put_cast_call(text, a, s, b"RPY_EXC_VALUE();")
}

// A call with two variables.
fn put_two_variables(text: &mut Text, start: &[u8], a: u64, b: u64) -> Result<(), NoMem>
    ensures { OnOk result (text.new ≡ text.old ++ (start.now ++ variable_name a ++ codes ", " ++ variable_name b ++ codes ");")) }
{
    text.append(start)?;
    put_name(text, b"v", a)?;
    put_name(text, b", v", b)?;
    text.append(b");")
}

fn put_exc_set(text: &mut Text, a: u64, b: u64) -> Result<(), NoMem>
    ensures { OnOk result (text.new ≡ text.old ++ statement_text (CStmt.ExcSet a b)) }
{
    put_two_variables(text, b"RPY_EXC_SET(", a, b)
}

fn put_argc(text: &mut Text, a: u64) -> Result<(), NoMem>
    ensures { OnOk result (text.new ≡ text.old ++ statement_text (CStmt.Argc a)) }
{
    put_target(text, a)?;
    text.append(b"RPY_ARGC();")
}

// A variable that is given what a call of one operand gives.
fn put_target_around(text: &mut Text, a: u64, start: &[u8], x: COperand) -> Result<(), NoMem>
    ensures { OnOk result (text.new ≡ text.old ++ (target a ++ start.now ++ operand_text x ++ codes ");")) }
{
    put_target(text, a)?;
    text.append(start)?;
    put_operand(text, x)?;
    text.append(b");")
}

fn put_arg_len(text: &mut Text, a: u64, x: COperand) -> Result<(), NoMem>
    ensures { OnOk result (text.new ≡ text.old ++ statement_text (CStmt.ArgLen a x)) }
{
    put_target_around(text, a, b"RPY_ARGLEN(", x)
}

fn put_arg(text: &mut Text, a: u64, x: COperand, y: COperand) -> Result<(), NoMem>
    ensures { OnOk result (text.new ≡ text.old ++ statement_text (CStmt.Arg a x y)) }
{
    put_target(text, a)?;
    text.append(b"RPY_ARG(")?;
    put_operand(text, x)?;
    put_more_operand(text, y)?;
    text.append(b");")
}

// A statement with one operand in brackets.
fn put_around(text: &mut Text, start: &[u8], x: COperand) -> Result<(), NoMem>
    ensures { OnOk result (text.new ≡ text.old ++ (start.now ++ operand_text x ++ codes ");")) }
{
    text.append(start)?;
    put_operand(text, x)?;
    text.append(b");")
}

// A statement with one number in it.
fn put_number_within(text: &mut Text, start: &[u8], n: u64, end: &[u8]) -> Result<(), NoMem>
    ensures { OnOk result (text.new ≡ text.old ++ (start.now ++ decimal n ++ end.now)) }
{
    put_name(text, start, n)?;
    text.append(end)
}

fn put_if(text: &mut Text, a: u64, b: u64, c: u64) -> Result<(), NoMem>
    ensures { OnOk result (text.new ≡ text.old ++ statement_text (CStmt.If a b c)) }
{
    put_name(text, b"if (v", a)?;
    put_name(text, b") goto b", b)?;
    put_name(text, b"; else goto b", c)?;
    text.append(b";")
}

fn put_return(text: &mut Text, x: Option<COperand>) -> Result<(), NoMem>
    ensures { OnOk result (text.new ≡ text.old ++ return_text x) }
{
    match x {
        None => text.append(b"return;"),
        Some(x) => {
            text.append(b"return ")?;
            put_operand(text, x)?;
            text.append(b";")
        }
    }
}

pub fn put_statement(text: &mut Text, statement: &CStmt) -> Result<(), NoMem>
    ensures { OnOk result (text.new ≡ text.old ++ statement_text statement.now) }
{
    match statement {
        CStmt::Set(a, x) => put_set(text, *a, *x),
        CStmt::Unary(a, op, x) => put_unary(text, *a, *op, *x),
        CStmt::Binary(a, op, x, y) => put_binary(text, *a, *op, *x, *y),
        CStmt::GetField(a, s, b, k) => put_get_field(text, *a, *s, *b, *k),
        CStmt::SetField(s, b, k, x) => put_set_field(text, *s, *b, *k, *x),
        CStmt::GetItem(a, s, b, i) => put_get_item(text, *a, *s, *b, *i),
        CStmt::SetItem(s, b, i, x) => put_set_item(text, *s, *b, *i, *x),
        CStmt::New(a, m, s) => put_new(text, *a, *m, *s),
        CStmt::NewArray(a, m, s, x) => put_new_array(text, *a, *m, *s, *x),
        CStmt::Free(a) => put_number_within(text, b"RPY_FREE(v", *a, b");"),
        CStmt::Step(x) => put_around(text, b"RPY_STEP(", *x),
        CStmt::Call(a, f, xs) => put_call(text, *a, *f, xs),
        CStmt::CallFn(a, result_type, kinds, b, xs) => {
            put_call_fn(text, *a, *result_type, kinds, *b, xs)
        }
        CStmt::ExcType(a, s) => put_exc_type(text, *a, *s),
        CStmt::ExcValue(a, s) => put_exc_value(text, *a, *s),
        CStmt::ExcSet(a, b) => put_exc_set(text, *a, *b),
        CStmt::ExcClear => text.append(b"RPY_EXC_CLEAR();"),
        CStmt::Argc(a) => put_argc(text, *a),
        CStmt::ArgLen(a, x) => put_arg_len(text, *a, *x),
        CStmt::Arg(a, x, y) => put_arg(text, *a, *x, *y),
        CStmt::Put(x) => put_around(text, b"RPY_PUT(", *x),
        CStmt::Goto(b) => put_number_within(text, b"goto b", *b, b";"),
        CStmt::If(a, b, c) => put_if(text, *a, *b, *c),
        CStmt::Return(x) => put_return(text, *x),
        CStmt::Fail(n) => put_number_within(text, b"RPY_FAIL(", u64::from(*n), b");"),
        CStmt::Raised(a) => put_number_within(text, b"RPY_RAISED(v", *a, b");"),
    }
}

fn put_statement_line(text: &mut Text, statement: &CStmt) -> Result<(), NoMem>
    ensures { OnOk result (text.new ≡ text.old ++ statement_line statement.now) }
{
    text.append(b"    ")?;
    put_statement(text, statement)?;
    text.append(b"\n")
}

pub fn put_statements(text: &mut Text, statements: &[CStmt]) -> Result<(), NoMem>
    ensures { OnOk result (text.new ≡ text.old ++ flat_map statement_line statements.now) }
{
    for statement in statements {
        put_statement_line(text, statement)?;
    }
    Ok(())
}
