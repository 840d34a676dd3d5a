// Statements.
ghost use Rattle.std.specs.Prelude.{◌≡◌, ◌^◌, ◌++◌, OnOk, IfOk, codes, Some, None, [], ◌∷◌, length};
ghost use Rattle.csub_tree.specs.declared.tree.CConst.TheVariants as const;
ghost use Rattle.csub_tree.specs.declared.tree.COperand.TheVariants as oper;
ghost use Rattle.csub_tree.specs.declared.tree.CStmt.TheVariants as stmt;
ghost use Rattle.csub_text.specs.Read as read;
ghost use Rattle.csub_text.specs.Read.{stripped, literal, after, and_then, mapped, ended};
ghost use Rattle.csub_text.specs.ReadStatement as pure;
ghost use Rattle.csub_reader.specs.Reads.{Reads, Strips};
ghost use Rattle.csub_reader.specs.Callee.{ReadsCallee};
ghost use Rattle.csub_text.specs.ReadFile as of_file;
ghost use Rattle.csub_tree.specs.Checked.{ends_block};
ghost use Rattle.std.specs.List.{flat_map};
ghost use Rattle.std.specs.Fmt.{decimal};
ghost use Rattle.csub_tree.specs.Spelling.{variable_name, block_name, field_name, function_name, unary_name, binary_name, target, target_if_any, looked_into, item_of, listed, listed_or_void, more, operand_text, type_alone, result_alone, arguments, callee, return_text, statement_text, statement_line, cast, struct_name};

use crate::cursor::Cursor;
use crate::fault::Stop;
use crate::names::{cast, name, number, operand, result_alone, type_alone};
use csub_tree::{CBinary, CConst, COperand, CStmt, CType, CUnary};
use rpy_base::Seq;
use std::alloc::Global;

const UNARY: [CUnary; 6] = [
    CUnary::Neg,
    CUnary::Inv,
    CUnary::Not,
    CUnary::C2S,
    CUnary::S2C,
    CUnary::B2S,
];

const BINARY: [CBinary; 23] = [
    CBinary::Add,
    CBinary::Sub,
    CBinary::Mul,
    CBinary::Div,
    CBinary::Mod,
    CBinary::Shl,
    CBinary::Shr,
    CBinary::And,
    CBinary::Or,
    CBinary::Xor,
    CBinary::AddOvf,
    CBinary::SubOvf,
    CBinary::MulOvf,
    CBinary::ShlOvf,
    CBinary::Eq,
    CBinary::Ne,
    CBinary::Lt,
    CBinary::Le,
    CBinary::Gt,
    CBinary::Ge,
    CBinary::Beq,
    CBinary::Peq,
    CBinary::Feq,
];

fn name_of_unary(op: CUnary) -> &'static [u8]
    ensures { result.now ≡ unary_name op }
{
    match op {
        CUnary::Neg => b"RPY_NEG",
        CUnary::Inv => b"RPY_INV",
        CUnary::Not => b"RPY_NOT",
        CUnary::C2S => b"RPY_C2S",
        CUnary::S2C => b"RPY_S2C",
        CUnary::B2S => b"RPY_B2S",
    }
}

fn name_of_binary(op: CBinary) -> &'static [u8]
    ensures { result.now ≡ binary_name op }
{
    match op {
        CBinary::Add => b"RPY_ADD",
        CBinary::Sub => b"RPY_SUB",
        CBinary::Mul => b"RPY_MUL",
        CBinary::Div => b"RPY_DIV",
        CBinary::Mod => b"RPY_MOD",
        CBinary::Shl => b"RPY_SHL",
        CBinary::Shr => b"RPY_SHR",
        CBinary::And => b"RPY_AND",
        CBinary::Or => b"RPY_OR",
        CBinary::Xor => b"RPY_XOR",
        CBinary::AddOvf => b"RPY_ADD_OVF",
        CBinary::SubOvf => b"RPY_SUB_OVF",
        CBinary::MulOvf => b"RPY_MUL_OVF",
        CBinary::ShlOvf => b"RPY_SHL_OVF",
        CBinary::Eq => b"RPY_EQ",
        CBinary::Ne => b"RPY_NE",
        CBinary::Lt => b"RPY_LT",
        CBinary::Le => b"RPY_LE",
        CBinary::Gt => b"RPY_GT",
        CBinary::Ge => b"RPY_GE",
        CBinary::Beq => b"RPY_BEQ",
        CBinary::Peq => b"RPY_PEQ",
        CBinary::Feq => b"RPY_FEQ",
    }
}

// Whether this name and a bracket come next.
fn sees_call(bytes: &Cursor<'_>, name: &[u8]) -> bool
    ensures { result ≡ pure.sees_call name.now bytes.now }
{
    let mut start = Cursor::new(bytes.rest());
    start.expect(name).is_ok() && start.sees(b"(")
}

// The first of these whose name and a bracket come next.
fn first_unary(ops: &[CUnary], bytes: &Cursor<'_>) -> Option<CUnary>
    ensures { result ≡ pure.first_called unary_name ops.now bytes.now }
{
    for op in ops {
        if sees_call(bytes, name_of_unary(*op)) {
            return Some(*op);
        }
    }
    None
}

#[tactic(auto, unfolding(csub_text::specs::ReadStatement::next_unary))]
fn next_unary(bytes: &Cursor<'_>) -> Option<CUnary>
    ensures { result ≡ pure.next_unary bytes.now }
{
    first_unary(&UNARY, bytes)
}

// The first of these whose name and a bracket come next.
fn first_binary(ops: &[CBinary], bytes: &Cursor<'_>) -> Option<CBinary>
    ensures { result ≡ pure.first_called binary_name ops.now bytes.now }
{
    for op in ops {
        if sees_call(bytes, name_of_binary(*op)) {
            return Some(*op);
        }
    }
    None
}

#[tactic(auto, unfolding(csub_text::specs::ReadStatement::next_binary))]
fn next_binary(bytes: &Cursor<'_>) -> Option<CBinary>
    ensures { result ≡ pure.next_binary bytes.now }
{
    first_binary(&BINARY, bytes)
}

fn more_operand(bytes: &mut Cursor<'_>) -> Result<COperand, Stop>
    ensures spelled { IfOk result (λ x. bytes.old ≡ more operand_text x ++ bytes.new) }
    ensures reads { Reads (pure.more_item read.operand bytes.old) result bytes.new }
{
    bytes.expect(b", ")?;
    operand(bytes)
}

// The operands after the first, which is given.
#[tactic(auto, using(crate::proofs::Loops::rest_stop, crate::proofs::Loops::rest_done, crate::proofs::Loops::rest_fail))]
fn operands_from(
    alloc: Global,
    bytes: &mut Cursor<'_>,
    first: COperand,
) -> Result<Seq<COperand>, Stop>
    ensures spelled { IfOk result (λ xs. operand_text first ++ bytes.old ≡ listed operand_text xs ++ bytes.new) }
    ensures reads { Reads (mapped (λ xs. first ∷ xs) (pure.rest_of read.operand (length bytes.old) bytes.old)) result bytes.new }
{
    let mut xs = Seq::new(alloc);
    xs.push(first)?;
    for _turn in 0..bytes.rest().len() {
        if !bytes.sees(b", ") {
            return Ok(xs);
        }
        let x = more_operand(bytes)?;
        xs.push(x)?;
    }
    Ok(xs)
}

#[tactic(auto, unfolding(csub_text::specs::ReadStatement::operands))]
fn operands(alloc: Global, bytes: &mut Cursor<'_>) -> Result<Seq<COperand>, Stop>
    ensures spelled { IfOk result (λ xs. bytes.old ≡ listed operand_text xs ++ bytes.new) }
    ensures reads { Reads (pure.operands bytes.old) result bytes.new }
{
    if bytes.sees(b")") {
        return Ok(Seq::new(alloc));
    }
    let first = operand(bytes)?;
    operands_from(alloc, bytes, first)
}

// The operands of a call, in brackets.
#[tactic(auto, unfolding(csub_text::specs::ReadStatement::arguments))]
fn arguments(alloc: Global, bytes: &mut Cursor<'_>) -> Result<Seq<COperand>, Stop>
    ensures spelled { IfOk result (λ xs. bytes.old ≡ arguments xs ++ bytes.new) }
    ensures reads { Reads (pure.arguments bytes.old) result bytes.new }
{
    bytes.expect(b"(")?;
    let xs = operands(alloc, bytes)?;
    bytes.expect(b")")?;
    Ok(xs)
}

fn more_type(bytes: &mut Cursor<'_>) -> Result<CType, Stop>
    ensures spelled { IfOk result (λ kind. bytes.old ≡ more type_alone kind ++ bytes.new) }
    ensures reads { Reads (pure.more_item read.type_alone bytes.old) result bytes.new }
{
    bytes.expect(b", ")?;
    type_alone(bytes)
}

// The types after the first, which is given.
#[tactic(auto, using(crate::proofs::Loops::rest_stop, crate::proofs::Loops::rest_done, crate::proofs::Loops::rest_fail))]
fn types_from(alloc: Global, bytes: &mut Cursor<'_>, first: CType) -> Result<Seq<CType>, Stop>
    ensures spelled { IfOk result (λ kinds. type_alone first ++ bytes.old ≡ listed_or_void type_alone kinds ++ bytes.new) }
    ensures reads { Reads (mapped (λ xs. first ∷ xs) (pure.rest_of read.type_alone (length bytes.old) bytes.old)) result bytes.new }
{
    let mut kinds = Seq::new(alloc);
    kinds.push(first)?;
    for _turn in 0..bytes.rest().len() {
        if !bytes.sees(b", ") {
            return Ok(kinds);
        }
        let kind = more_type(bytes)?;
        kinds.push(kind)?;
    }
    Ok(kinds)
}

#[tactic(auto, unfolding(csub_text::specs::ReadStatement::types))]
fn types(alloc: Global, bytes: &mut Cursor<'_>) -> Result<Seq<CType>, Stop>
    ensures spelled { IfOk result (λ kinds. bytes.old ≡ listed_or_void type_alone kinds ++ bytes.new) }
    ensures reads { Reads (pure.types bytes.old) result bytes.new }
{
    if bytes.sees(b"void") {
        bytes.expect(b"void")?;
        return Ok(Seq::new(alloc));
    }
    let first = type_alone(bytes)?;
    types_from(alloc, bytes, first)
}

#[tactic(auto, unfolding(csub_text::specs::ReadStatement::set))]
fn set(bytes: &mut Cursor<'_>, a: u64) -> Result<CStmt, Stop>
    ensures spelled { IfOk result (λ s. target a ++ bytes.old ≡ statement_text s ++ bytes.new) }
    ensures reads { Reads (pure.set a bytes.old) result bytes.new }
{
    let x = operand(bytes)?;
    bytes.expect(b";")?;
    Ok(CStmt::Set(a, x))
}

#[tactic(auto, unfolding(csub_text::specs::ReadStatement::unary))]
fn unary(bytes: &mut Cursor<'_>, a: u64, op: CUnary) -> Result<CStmt, Stop>
    ensures spelled { IfOk result (λ s. target a ++ bytes.old ≡ statement_text s ++ bytes.new) }
    ensures reads { Reads (pure.unary a op bytes.old) result bytes.new }
{
    bytes.expect(name_of_unary(op))?;
    bytes.expect(b"(")?;
    let x = operand(bytes)?;
    bytes.expect(b");")?;
    Ok(CStmt::Unary(a, op, x))
}

#[tactic(auto, unfolding(csub_text::specs::ReadStatement::binary))]
fn binary(bytes: &mut Cursor<'_>, a: u64, op: CBinary) -> Result<CStmt, Stop>
    ensures spelled { IfOk result (λ s. target a ++ bytes.old ≡ statement_text s ++ bytes.new) }
    ensures reads { Reads (pure.binary a op bytes.old) result bytes.new }
{
    bytes.expect(name_of_binary(op))?;
    bytes.expect(b"(")?;
    let x = operand(bytes)?;
    let y = more_operand(bytes)?;
    bytes.expect(b");")?;
    Ok(CStmt::Binary(a, op, x, y))
}

// A block that is looked into: the struct of the cast and the variable.
#[tactic(auto, unfolding(csub_text::specs::ReadStatement::looked_into))]
fn looked_into(bytes: &mut Cursor<'_>) -> Result<(u64, u64), Stop>
    ensures spelled { IfOk result (λ p. bytes.old ≡ looked_into p.0 p.1 ++ bytes.new) }
    ensures reads { Reads (pure.looked_into bytes.old) result bytes.new }
{
    bytes.expect(b"(")?;
    let s = cast(bytes)?;
    let v = name(bytes, b"v")?;
    bytes.expect(b")->")?;
    Ok((s, v))
}

// The index of an item, with the brackets.
#[tactic(auto, unfolding(csub_text::specs::ReadStatement::index))]
fn index(bytes: &mut Cursor<'_>) -> Result<COperand, Stop>
    ensures spelled { IfOk result (λ i. bytes.old ≡ (codes "items[" ++ operand_text i ++ codes "]") ++ bytes.new) }
    ensures reads { Reads (pure.index bytes.old) result bytes.new }
{
    bytes.expect(b"items[")?;
    let i = operand(bytes)?;
    bytes.expect(b"]")?;
    Ok(i)
}

fn get_field(bytes: &mut Cursor<'_>, a: u64, s: u64, b: u64) -> Result<CStmt, Stop>
    ensures spelled { IfOk result (λ stmt. (target a ++ looked_into s b) ++ bytes.old ≡ statement_text stmt ++ bytes.new) }
    ensures reads { Reads (mapped (stmt.GetField a s b) (ended (read.name (codes "a") bytes.old) (codes ";"))) result bytes.new }
{
    let k = name(bytes, b"a")?;
    bytes.expect(b";")?;
    Ok(CStmt::GetField(a, s, b, k))
}

fn get_item(bytes: &mut Cursor<'_>, a: u64, s: u64, b: u64) -> Result<CStmt, Stop>
    ensures spelled { IfOk result (λ stmt. (target a ++ looked_into s b) ++ bytes.old ≡ statement_text stmt ++ bytes.new) }
    ensures reads { Reads (mapped (stmt.GetItem a s b) (ended (pure.index bytes.old) (codes ";"))) result bytes.new }
{
    let i = index(bytes)?;
    bytes.expect(b";")?;
    Ok(CStmt::GetItem(a, s, b, i))
}

// A variable that is given a field or an item.
#[tactic(auto, unfolding(csub_text::specs::ReadStatement::get))]
fn get(bytes: &mut Cursor<'_>, a: u64) -> Result<CStmt, Stop>
    ensures spelled { IfOk result (λ s. target a ++ bytes.old ≡ statement_text s ++ bytes.new) }
    ensures reads { Reads (pure.get a bytes.old) result bytes.new }
{
    let (s, b) = looked_into(bytes)?;
    if bytes.sees(b"a") {
        get_field(bytes, a, s, b)
    } else {
        get_item(bytes, a, s, b)
    }
}

#[tactic(auto, unfolding(csub_text::specs::ReadStatement::set_field))]
fn set_field(bytes: &mut Cursor<'_>, s: u64, b: u64) -> Result<CStmt, Stop>
    ensures spelled { IfOk result (λ stmt. looked_into s b ++ bytes.old ≡ statement_text stmt ++ bytes.new) }
    ensures reads { Reads (pure.set_field s b bytes.old) result bytes.new }
{
    let k = name(bytes, b"a")?;
    bytes.expect(b" = ")?;
    let x = operand(bytes)?;
    bytes.expect(b";")?;
    Ok(CStmt::SetField(s, b, k, x))
}

#[tactic(auto, unfolding(csub_text::specs::ReadStatement::set_item))]
fn set_item(bytes: &mut Cursor<'_>, s: u64, b: u64) -> Result<CStmt, Stop>
    ensures spelled { IfOk result (λ stmt. looked_into s b ++ bytes.old ≡ statement_text stmt ++ bytes.new) }
    ensures reads { Reads (pure.set_item s b bytes.old) result bytes.new }
{
    let i = index(bytes)?;
    bytes.expect(b" = ")?;
    let x = operand(bytes)?;
    bytes.expect(b";")?;
    Ok(CStmt::SetItem(s, b, i, x))
}

// A field or an item that is given a value.
#[tactic(auto, unfolding(csub_text::specs::ReadStatement::put_in))]
fn put_in(bytes: &mut Cursor<'_>) -> Result<CStmt, Stop>
    ensures spelled { IfOk result (λ s. bytes.old ≡ statement_text s ++ bytes.new) }
    ensures reads { Reads (pure.put_in bytes.old) result bytes.new }
{
    let (s, b) = looked_into(bytes)?;
    if bytes.sees(b"a") {
        set_field(bytes, s, b)
    } else {
        set_item(bytes, s, b)
    }
}

#[tactic(auto, unfolding(csub_text::specs::ReadStatement::new_block))]
fn new_block(bytes: &mut Cursor<'_>, a: u64, m: u64) -> Result<CStmt, Stop>
    ensures spelled { IfOk result (λ s. (target a ++ cast m) ++ bytes.old ≡ statement_text s ++ bytes.new) }
    ensures reads { Reads (pure.new_block a m bytes.old) result bytes.new }
{
    let s = name(bytes, b"RPY_NEW(struct s")?;
    bytes.expect(b");")?;
    Ok(CStmt::New(a, m, s))
}

// The struct and the operand of a call that gives a block.
fn sized(bytes: &mut Cursor<'_>, start: &[u8]) -> Result<(u64, COperand), Stop>
    ensures spelled { IfOk result (λ p. bytes.old ≡ (start.now ++ struct_name p.0 ++ codes ", " ++ operand_text p.1 ++ codes ");") ++ bytes.new) }
    ensures reads { Reads (after (stripped start.now bytes.old) (λ i. and_then (read.name (codes "s") i) (λ s j. mapped (λ x. (s, x)) (ended (pure.more_item read.operand j) (codes ");"))))) result bytes.new }
{
    bytes.expect(start)?;
    let s = name(bytes, b"s")?;
    let x = more_operand(bytes)?;
    bytes.expect(b");")?;
    Ok((s, x))
}

#[tactic(auto, unfolding(csub_text::specs::ReadStatement::new_array))]
fn new_array(bytes: &mut Cursor<'_>, a: u64, m: u64) -> Result<CStmt, Stop>
    ensures spelled { IfOk result (λ s. (target a ++ cast m) ++ bytes.old ≡ statement_text s ++ bytes.new) }
    ensures reads { Reads (pure.new_array a m bytes.old) result bytes.new }
{
    let made = sized(bytes, b"RPY_NEWARRAY(struct ")?;
    Ok(CStmt::NewArray(a, m, made.0, made.1))
}

// A variable that is given a static.
#[tactic(auto, unfolding(csub_text::specs::ReadStatement::set_static))]
fn set_static(bytes: &mut Cursor<'_>, a: u64, m: u64) -> Result<CStmt, Stop>
    ensures spelled { IfOk result (λ s. (target a ++ cast m) ++ bytes.old ≡ statement_text s ++ bytes.new) }
    ensures reads { Reads (pure.set_static a m bytes.old) result bytes.new }
{
    let g = name(bytes, b"&g")?;
    bytes.expect(b";")?;
    Ok(CStmt::Set(a, COperand::Const(CConst::Static(m, g))))
}

// What is cast, which has to be this.
fn cast_target_of(bytes: &mut Cursor<'_>, a: u64, m: u64, call: &[u8]) -> Result<(), Stop>
    ensures spelled { OnOk result ((target a ++ cast m) ++ bytes.old ≡ (target a ++ cast m ++ call.now) ++ bytes.new) }
    ensures reads { Strips (stripped (call.now) bytes.old) result bytes.new }
{
    bytes.expect(call)
}

// What comes after a cast to a pointer.
#[tactic(auto, unfolding(csub_text::specs::ReadStatement::after_cast))]
fn after_cast(bytes: &mut Cursor<'_>, a: u64, m: u64) -> Result<CStmt, Stop>
    ensures spelled { IfOk result (λ s. (target a ++ cast m) ++ bytes.old ≡ statement_text s ++ bytes.new) }
    ensures reads { Reads (pure.after_cast a m bytes.old) result bytes.new }
{
    if bytes.sees(b"RPY_NEW(") {
        new_block(bytes, a, m)
    } else if bytes.sees(b"RPY_NEWARRAY(") {
        new_array(bytes, a, m)
    } else if bytes.sees(b"RPY_EXC_TYPE") {
        cast_target_of(bytes, a, m, b"RPY_EXC_TYPE();")?;
        Ok(CStmt::ExcType(a, m))
    } else if bytes.sees(b"RPY_EXC_VALUE") {
        cast_target_of(bytes, a, m, b"RPY_EXC_VALUE();")?;
        Ok(CStmt::ExcValue(a, m))
    } else {
        set_static(bytes, a, m)
    }
}

#[tactic(auto, unfolding(csub_text::specs::ReadStatement::cast_of))]
fn cast_of(bytes: &mut Cursor<'_>, a: u64) -> Result<CStmt, Stop>
    ensures spelled { IfOk result (λ s. target a ++ bytes.old ≡ statement_text s ++ bytes.new) }
    ensures reads { Reads (pure.cast_of a bytes.old) result bytes.new }
{
    let m = cast(bytes)?;
    after_cast(bytes, a, m)
}

#[tactic(auto, unfolding(csub_text::specs::ReadStatement::call))]
fn call(alloc: Global, bytes: &mut Cursor<'_>, a: Option<u64>) -> Result<CStmt, Stop>
    ensures spelled { IfOk result (λ s. target_if_any a ++ bytes.old ≡ statement_text s ++ bytes.new) }
    ensures reads { Reads (pure.call a bytes.old) result bytes.new }
{
    let f = name(bytes, b"f")?;
    let xs = arguments(alloc, bytes)?;
    bytes.expect(b";")?;
    Ok(CStmt::Call(a, f, xs))
}

// The result, the types and the variable of a call of what a variable holds.
#[derive(Drop)]
struct IndirectCall {
    result: Option<CType>,
    kinds: Seq<CType>,
    variable: u64,
}

#[tactic(auto, unfolding(csub_text::specs::ReadStatement::callee))]
fn callee(alloc: Global, bytes: &mut Cursor<'_>) -> Result<IndirectCall, Stop>
    ensures spelled { IfOk result (λ f. bytes.old ≡ callee f.result f.kinds f.variable ++ bytes.new) }
    ensures reads { ReadsCallee (pure.callee bytes.old) result bytes.new }
{
    bytes.expect(b"((")?;
    let result = result_alone(bytes)?;
    bytes.expect(b" (*)(")?;
    let kinds = types(alloc, bytes)?;
    bytes.expect(b"))")?;
    let variable = name(bytes, b"v")?;
    bytes.expect(b")")?;
    Ok(IndirectCall {
        result,
        kinds,
        variable,
    })
}

#[tactic(auto, unfolding(csub_text::specs::ReadStatement::call_fn))]
fn call_fn(alloc: Global, bytes: &mut Cursor<'_>, a: Option<u64>) -> Result<CStmt, Stop>
    ensures spelled { IfOk result (λ s. target_if_any a ++ bytes.old ≡ statement_text s ++ bytes.new) }
    ensures reads { Reads (pure.call_fn a bytes.old) result bytes.new }
{
    let f = callee(alloc, bytes)?;
    let xs = arguments(alloc, bytes)?;
    bytes.expect(b";")?;
    Ok(CStmt::CallFn(a, f.result, f.kinds, f.variable, xs))
}

// Whether a block that is looked into comes next: `((struct sN *)v`.
fn sees_looked_into(bytes: &[u8]) -> bool
    ensures { result ≡ pure.sees_looked_into bytes.now }
{
    let mut start = Cursor::new(bytes);
    start.expect(b"(").is_ok() && cast(&mut start).is_ok()
}

// What a variable is given, which has to be this.
fn target_of(bytes: &mut Cursor<'_>, a: u64, call: &[u8]) -> Result<(), Stop>
    ensures spelled { OnOk result (target a ++ bytes.old ≡ (target a ++ call.now) ++ bytes.new) }
    ensures reads { Strips (stripped (call.now) bytes.old) result bytes.new }
{
    bytes.expect(call)
}

fn argc(bytes: &mut Cursor<'_>, a: u64) -> Result<CStmt, Stop>
    ensures spelled { IfOk result (λ s. target a ++ bytes.old ≡ statement_text s ++ bytes.new) }
    ensures reads { Reads (literal (codes "RPY_ARGC();") (stmt.Argc a) bytes.old) result bytes.new }
{
    target_of(bytes, a, b"RPY_ARGC();")?;
    Ok(CStmt::Argc(a))
}

// What a variable is given, with one operand in brackets.
fn target_around(bytes: &mut Cursor<'_>, a: u64, start: &[u8]) -> Result<COperand, Stop>
    ensures spelled { IfOk result (λ x. target a ++ bytes.old ≡ (target a ++ start.now ++ operand_text x ++ codes ");") ++ bytes.new) }
    ensures reads { Reads (pure.around start.now bytes.old) result bytes.new }
{
    bytes.expect(start)?;
    let x = operand(bytes)?;
    bytes.expect(b");")?;
    Ok(x)
}

#[tactic(auto, unfolding(csub_text::specs::ReadStatement::arg_len))]
fn arg_len(bytes: &mut Cursor<'_>, a: u64) -> Result<CStmt, Stop>
    ensures spelled { IfOk result (λ s. target a ++ bytes.old ≡ statement_text s ++ bytes.new) }
    ensures reads { Reads (pure.arg_len a bytes.old) result bytes.new }
{
    Ok(CStmt::ArgLen(a, target_around(bytes, a, b"RPY_ARGLEN(")?))
}

#[tactic(auto, unfolding(csub_text::specs::ReadStatement::arg))]
fn arg(bytes: &mut Cursor<'_>, a: u64) -> Result<CStmt, Stop>
    ensures spelled { IfOk result (λ s. target a ++ bytes.old ≡ statement_text s ++ bytes.new) }
    ensures reads { Reads (pure.arg a bytes.old) result bytes.new }
{
    bytes.expect(b"RPY_ARG(")?;
    let x = operand(bytes)?;
    let y = more_operand(bytes)?;
    bytes.expect(b");")?;
    Ok(CStmt::Arg(a, x, y))
}

// A variable that is given an argument statement's value, or an operand.
#[tactic(auto, unfolding(csub_text::specs::ReadStatement::argument_or_set))]
fn argument_or_set(bytes: &mut Cursor<'_>, a: u64) -> Result<CStmt, Stop>
    ensures spelled { IfOk result (λ s. target a ++ bytes.old ≡ statement_text s ++ bytes.new) }
    ensures reads { Reads (pure.argument_or_set a bytes.old) result bytes.new }
{
    if bytes.sees(b"RPY_ARGC(") {
        argc(bytes, a)
    } else if bytes.sees(b"RPY_ARGLEN(") {
        arg_len(bytes, a)
    } else if bytes.sees(b"RPY_ARG(") {
        arg(bytes, a)
    } else {
        set(bytes, a)
    }
}

// What follows `vA = ` where it begins with `RPY_`.
#[tactic(auto, unfolding(csub_text::specs::ReadStatement::operation))]
fn operation(bytes: &mut Cursor<'_>, a: u64) -> Result<CStmt, Stop>
    ensures spelled { IfOk result (λ s. target a ++ bytes.old ≡ statement_text s ++ bytes.new) }
    ensures reads { Reads (pure.operation a bytes.old) result bytes.new }
{
    if let Some(op) = next_binary(bytes) {
        return binary(bytes, a, op);
    }
    if let Some(op) = next_unary(bytes) {
        return unary(bytes, a, op);
    }
    argument_or_set(bytes, a)
}

// What follows `vA = `.
#[tactic(auto, unfolding(csub_text::specs::ReadStatement::after_target))]
fn after_target(alloc: Global, bytes: &mut Cursor<'_>, a: u64) -> Result<CStmt, Stop>
    ensures spelled { IfOk result (λ s. target a ++ bytes.old ≡ statement_text s ++ bytes.new) }
    ensures reads { Reads (pure.after_target a bytes.old) result bytes.new }
{
    if bytes.sees(b"RPY_") {
        operation(bytes, a)
    } else if bytes.sees(b"f") {
        call(alloc, bytes, Some(a))
    } else if sees_looked_into(bytes.rest()) {
        get(bytes, a)
    } else if bytes.sees(b"((") {
        call_fn(alloc, bytes, Some(a))
    } else if bytes.sees(b"(struct ") {
        cast_of(bytes, a)
    } else {
        set(bytes, a)
    }
}

#[tactic(auto, unfolding(csub_text::specs::ReadStatement::assignment))]
fn assignment(alloc: Global, bytes: &mut Cursor<'_>) -> Result<CStmt, Stop>
    ensures spelled { IfOk result (λ s. bytes.old ≡ statement_text s ++ bytes.new) }
    ensures reads { Reads (pure.assignment bytes.old) result bytes.new }
{
    let a = name(bytes, b"v")?;
    bytes.expect(b" = ")?;
    after_target(alloc, bytes, a)
}

// A statement with one number in it.
fn number_within(bytes: &mut Cursor<'_>, start: &[u8], end: &[u8]) -> Result<u64, Stop>
    ensures spelled { IfOk result (λ n. bytes.old ≡ (start.now ++ decimal n ++ end.now) ++ bytes.new) }
    ensures reads { Reads (ended (read.name start.now bytes.old) end.now) result bytes.new }
{
    let n = name(bytes, start)?;
    bytes.expect(end)?;
    Ok(n)
}

// A statement with one operand in brackets.
fn around(bytes: &mut Cursor<'_>, start: &[u8]) -> Result<COperand, Stop>
    ensures spelled { IfOk result (λ x. bytes.old ≡ (start.now ++ operand_text x ++ codes ");") ++ bytes.new) }
    ensures reads { Reads (pure.around start.now bytes.old) result bytes.new }
{
    bytes.expect(start)?;
    let x = operand(bytes)?;
    bytes.expect(b");")?;
    Ok(x)
}

#[tactic(auto, unfolding(csub_text::specs::ReadStatement::exc_set))]
fn exc_set(bytes: &mut Cursor<'_>) -> Result<CStmt, Stop>
    ensures spelled { IfOk result (λ s. bytes.old ≡ statement_text s ++ bytes.new) }
    ensures reads { Reads (pure.exc_set bytes.old) result bytes.new }
{
    let a = name(bytes, b"RPY_EXC_SET(v")?;
    let b = name(bytes, b", v")?;
    bytes.expect(b");")?;
    Ok(CStmt::ExcSet(a, b))
}

fn exc_clear(bytes: &mut Cursor<'_>) -> Result<CStmt, Stop>
    ensures spelled { IfOk result (λ s. bytes.old ≡ statement_text s ++ bytes.new) }
    ensures reads { Reads (literal (codes "RPY_EXC_CLEAR();") stmt.ExcClear bytes.old) result bytes.new }
{
    bytes.expect(b"RPY_EXC_CLEAR();")?;
    Ok(CStmt::ExcClear)
}

// Which of IndexError, ZeroDivisionError, ValueError, AttributeError and NegativeSlice it is, from
// 1 to 5.
fn fail_code(bytes: &mut Cursor<'_>) -> Result<u32, Stop>
    ensures spelled { IfOk result (λ code. bytes.old ≡ decimal code ++ bytes.new) }
    ensures reads { Reads (pure.fail_code bytes.old) result bytes.new }
{
    let n = number(bytes)?;
    if n < 1 || n > 5 {
        return Err(Stop::NoText);
    }
    Ok(n as u32)
}

#[tactic(auto, unfolding(csub_text::specs::ReadStatement::fail))]
fn fail(bytes: &mut Cursor<'_>) -> Result<CStmt, Stop>
    ensures spelled { IfOk result (λ s. bytes.old ≡ statement_text s ++ bytes.new) }
    ensures reads { Reads (pure.fail bytes.old) result bytes.new }
{
    bytes.expect(b"RPY_FAIL(")?;
    let code = fail_code(bytes)?;
    bytes.expect(b");")?;
    Ok(CStmt::Fail(code))
}

// A statement that begins with `RPY_`.
#[tactic(auto, unfolding(csub_text::specs::ReadStatement::primitive))]
fn primitive(bytes: &mut Cursor<'_>) -> Result<CStmt, Stop>
    ensures spelled { IfOk result (λ s. bytes.old ≡ statement_text s ++ bytes.new) }
    ensures reads { Reads (pure.primitive bytes.old) result bytes.new }
{
    if bytes.sees(b"RPY_FREE(") {
        Ok(CStmt::Free(number_within(bytes, b"RPY_FREE(v", b");")?))
    } else if bytes.sees(b"RPY_STEP(") {
        Ok(CStmt::Step(around(bytes, b"RPY_STEP(")?))
    } else if bytes.sees(b"RPY_PUT(") {
        Ok(CStmt::Put(around(bytes, b"RPY_PUT(")?))
    } else if bytes.sees(b"RPY_EXC_SET(") {
        exc_set(bytes)
    } else if bytes.sees(b"RPY_EXC_CLEAR(") {
        exc_clear(bytes)
    } else if bytes.sees(b"RPY_FAIL(") {
        fail(bytes)
    } else {
        Ok(CStmt::Raised(number_within(bytes, b"RPY_RAISED(v", b");")?))
    }
}

// A block's name, after this start.
fn block_after(bytes: &mut Cursor<'_>, start: &[u8]) -> Result<u64, Stop>
    ensures spelled { IfOk result (λ n. bytes.old ≡ (start.now ++ block_name n) ++ bytes.new) }
    ensures reads { Reads (after (stripped start.now bytes.old) (λ i. read.name (codes "b") i)) result bytes.new }
{
    bytes.expect(start)?;
    name(bytes, b"b")
}

// The two blocks of an `if`, after the variable.
fn two_blocks(
    bytes: &mut Cursor<'_>,
    before: &[u8],
    between: &[u8],
    end: &[u8],
) -> Result<(u64, u64), Stop>
    ensures spelled { IfOk result (λ p. bytes.old ≡ (before.now ++ block_name p.0 ++ between.now ++ block_name p.1 ++ end.now) ++ bytes.new) }
    ensures reads { Reads (after (stripped before.now bytes.old) (λ i. and_then (ended (read.name (codes "b") i) between.now) (λ b j. mapped (λ c. (b, c)) (ended (read.name (codes "b") j) end.now)))) result bytes.new }
{
    let b = block_after(bytes, before)?;
    let c = block_after(bytes, between)?;
    bytes.expect(end)?;
    Ok((b, c))
}

// A variable and two blocks.
fn branch(
    bytes: &mut Cursor<'_>,
    start: &[u8],
    before: &[u8],
    between: &[u8],
    end: &[u8],
) -> Result<(u64, u64, u64), Stop>
    ensures spelled { IfOk result (λ p. bytes.old ≡ (start.now ++ decimal p.0 ++ before.now ++ block_name p.1 ++ between.now ++ block_name p.2 ++ end.now) ++ bytes.new) }
    ensures reads { Reads (and_then (ended (read.name start.now bytes.old) before.now) (λ a i. and_then (ended (read.name (codes "b") i) between.now) (λ b j. mapped (λ c. (a, b, c)) (ended (read.name (codes "b") j) end.now)))) result bytes.new }
{
    let a = name(bytes, start)?;
    let (b, c) = two_blocks(bytes, before, between, end)?;
    Ok((a, b, c))
}

#[tactic(auto, unfolding(csub_text::specs::ReadStatement::jump_if))]
fn jump_if(bytes: &mut Cursor<'_>) -> Result<CStmt, Stop>
    ensures spelled { IfOk result (λ s. bytes.old ≡ statement_text s ++ bytes.new) }
    ensures reads { Reads (pure.jump_if bytes.old) result bytes.new }
{
    let (a, b, c) = branch(bytes, b"if (v", b") goto ", b"; else goto ", b";")?;
    Ok(CStmt::If(a, b, c))
}

fn return_value(bytes: &mut Cursor<'_>) -> Result<CStmt, Stop>
    ensures spelled { IfOk result (λ s. bytes.old ≡ statement_text s ++ bytes.new) }
    ensures reads { Reads (after (stripped (codes "return ") bytes.old) (λ j. mapped (λ x. stmt.Return (Some x)) (ended (read.operand j) (codes ";")))) result bytes.new }
{
    bytes.expect(b"return ")?;
    let x = operand(bytes)?;
    bytes.expect(b";")?;
    Ok(CStmt::Return(Some(x)))
}

fn return_nothing(bytes: &mut Cursor<'_>) -> Result<CStmt, Stop>
    ensures spelled { IfOk result (λ s. bytes.old ≡ statement_text s ++ bytes.new) }
    ensures reads { Reads (literal (codes "return;") (stmt.Return None) bytes.old) result bytes.new }
{
    bytes.expect(b"return;")?;
    Ok(CStmt::Return(None))
}

// A jump or a return.
#[tactic(auto, unfolding(csub_text::specs::ReadStatement::jump))]
fn jump(bytes: &mut Cursor<'_>) -> Result<CStmt, Stop>
    ensures spelled { IfOk result (λ s. bytes.old ≡ statement_text s ++ bytes.new) }
    ensures reads { Reads (pure.jump bytes.old) result bytes.new }
{
    if bytes.sees(b"goto ") {
        Ok(CStmt::Goto(number_within(bytes, b"goto b", b";")?))
    } else if bytes.sees(b"if ") {
        jump_if(bytes)
    } else if bytes.sees(b"return;") {
        return_nothing(bytes)
    } else {
        return_value(bytes)
    }
}

// A statement that begins with two brackets.
#[tactic(auto, unfolding(csub_text::specs::ReadStatement::bracketed))]
fn bracketed(alloc: Global, bytes: &mut Cursor<'_>) -> Result<CStmt, Stop>
    ensures spelled { IfOk result (λ s. bytes.old ≡ statement_text s ++ bytes.new) }
    ensures reads { Reads (pure.bracketed bytes.old) result bytes.new }
{
    if sees_looked_into(bytes.rest()) {
        put_in(bytes)
    } else {
        call_fn(alloc, bytes, None)
    }
}

#[tactic(auto, unfolding(csub_text::specs::ReadStatement::statement))]
fn statement(alloc: Global, bytes: &mut Cursor<'_>) -> Result<CStmt, Stop>
    ensures spelled { IfOk result (λ s. bytes.old ≡ statement_text s ++ bytes.new) }
    ensures reads { Reads (pure.statement bytes.old) result bytes.new }
{
    if bytes.sees(b"v") {
        assignment(alloc, bytes)
    } else if bytes.sees(b"RPY_") {
        primitive(bytes)
    } else if bytes.sees(b"((") {
        bracketed(alloc, bytes)
    } else if bytes.sees(b"f") {
        call(alloc, bytes, None)
    } else {
        jump(bytes)
    }
}

pub fn statement_line(alloc: Global, bytes: &mut Cursor<'_>) -> Result<CStmt, Stop>
    ensures spelled { IfOk result (λ s. bytes.old ≡ statement_line s ++ bytes.new) }
    ensures reads { Reads (of_file.statement_line bytes.old) result bytes.new }
{
    bytes.expect(b"    ")?;
    let s = statement(alloc, bytes)?;
    bytes.expect(b"\n")?;
    Ok(s)
}

/// Whether a block ends with it.
pub fn is_end(s: &CStmt) -> bool
    ensures { result ≡ ends_block s.now }
{
    match s {
        CStmt::Goto(_)
        | CStmt::If(_, _, _)
        | CStmt::Return(_)
        | CStmt::Fail(_)
        | CStmt::Raised(_) => true,
        _ => false,
    }
}

#[tactic(auto, using(crate::proofs::Loops::statements_last, crate::proofs::Loops::statements_fail, crate::proofs::Loops::statements_done))]
/// The statements of a block, of which the last ends it.
pub fn statements(alloc: Global, bytes: &mut Cursor<'_>) -> Result<Seq<CStmt>, Stop>
    ensures spelled { IfOk result (λ stmts. bytes.old ≡ flat_map statement_line stmts ++ bytes.new) }
    ensures reads { Reads (of_file.statements (length bytes.old) bytes.old) result bytes.new }
{
    let mut stmts = Seq::new(alloc);
    for _turn in 0..bytes.rest().len() {
        let s = statement_line(alloc, bytes)?;
        let last = is_end(&s);
        stmts.push(s)?;
        if last {
            return Ok(stmts);
        }
    }
    Err(Stop::NoText)
}
