// A program of the first path to a C file.
ghost use Rattle.std.specs.Prelude.{◌≡◌, ◌++◌, ◌∷◌, [], ◌+◌, Some, None, OnOk, IfOk, pos, negsuc, drop, codes, replicate};
ghost use Rattle.first_lower.specs.Lower as spec;
ghost use Rattle.rpy_first.specs.Program.{expr_of, operator};

use csub_tree::{CBinary, CConst, CFile, CFunction, COperand, CPrototype, CStmt, CType};
use rpy_base::{NoMem, Seq, Text};
use rpy_first::{Arith, Body, Line, Sum};
use std::alloc::Global;

fn operation(op: Arith) -> CBinary
    ensures { result ≡ spec.operation (operator op) }
{
    match op {
        Arith::Add => CBinary::Add,
        Arith::Sub => CBinary::Sub,
        Arith::Mul => CBinary::Mul,
    }
}

fn number(z: i64) -> COperand
    ensures { result ≡ spec.number z }
{
    COperand::Const(CConst::Word(z))
}

// Where a value is, and the first variable that is free then.
#[derive(Clone, Copy)]
struct Place {
    value: COperand,
    free: u64,
}

fn lower_sum(sum: &Sum, free: u64, into: &mut Seq<CStmt>) -> Result<Place, NoMem>
    ensures statements { OnOk result (into.new ≡ into.old ++ (spec.expr_code (expr_of sum.now) free).statements) }
    ensures place { IfOk result (λ place. place ≡ spec.place_in (spec.expr_code (expr_of sum.now) free)) }
{
    match sum {
        Sum::Word(z) => Ok(Place {
            value: number(*z),
            free,
        }),
        Sum::Local(i) => Ok(Place {
            value: COperand::Var(*i),
            free,
        }),
        Sum::Binary(op, a, b) => {
            let left = lower_sum(a.get(), free, into)?;
            let right = lower_sum(b.get(), left.free, into)?;
            lower_binary(*op, left.value, right, into)
        }
    }
}

fn lower_binary(
    op: Arith,
    left: COperand,
    right: Place,
    into: &mut Seq<CStmt>,
) -> Result<Place, NoMem>
    ensures statements { OnOk result (into.new ≡ into.old ++ CStmt.Binary right.free (spec.operation (operator op)) left right.value ∷ []) }
    ensures place { IfOk result (λ place. place ≡ record { value = COperand.Var right.free; free = right.free + 1 }) }
{
    let Some(free) = right.free.checked_add(1) else {
        return Err(NoMem);
    };
    into.push(CStmt::Binary(right.free, operation(op), left, right.value))?;
    Ok(Place {
        value: COperand::Var(right.free),
        free,
    })
}

// The statements that use a line's value.
fn push_use(alloc: Global, line: &Line, value: COperand, into: &mut Seq<CStmt>) -> Result<(), NoMem>
    ensures { OnOk result (into.new ≡ into.old ++ spec.use_of line.now value) }
{
    match line {
        Line::Assign(i, _) => into.push(CStmt::Set(*i, value)),
        Line::Print(_) => push_print(alloc, value, into),
    }
}

fn push_print(alloc: Global, value: COperand, into: &mut Seq<CStmt>) -> Result<(), NoMem>
    ensures { OnOk result (into.new ≡ into.old ++ CStmt.Call None 1 (value ∷ []) ∷ CStmt.Put (spec.number (pos 10)) ∷ []) }
{
    into.push(CStmt::Call(None, 1, operands(alloc, value)?))?;
    into.push(CStmt::Put(number(10)))
}

fn operands(alloc: Global, value: COperand) -> Result<Seq<COperand>, NoMem>
    ensures { IfOk result (λ xs. xs ≡ value ∷ []) }
{
    let mut xs = Seq::new(alloc);
    xs.push(value)?;
    Ok(xs)
}

fn sum_of(line: &Line) -> &Sum
    ensures { result.now ≡ spec.sum_of line.now }
{
    match line {
        Line::Assign(_, sum) => sum,
        Line::Print(sum) => sum,
    }
}

fn lower_line(alloc: Global, line: &Line, free: u64, into: &mut Seq<CStmt>) -> Result<u64, NoMem>
    ensures statements { OnOk result (into.new ≡ into.old ++ spec.line_statements line.now (spec.expr_code (expr_of (spec.sum_of line.now)) free)) }
    ensures free { IfOk result (λ after. after ≡ (spec.expr_code (expr_of (spec.sum_of line.now)) free).free) }
{
    let place = lower_sum(sum_of(line), free, into)?;
    push_use(alloc, line, place.value, into)?;
    Ok(place.free)
}

fn lower_lines(alloc: Global, body: &Body, into: &mut Seq<CStmt>) -> Result<Place, NoMem>
    ensures statements { OnOk result (into.new ≡ into.old ++ (spec.lines_code body.now.lines body.now.result body.now.locals).statements) }
    ensures place { IfOk result (λ place. place ≡ spec.place_in (spec.lines_code body.now.lines body.now.result body.now.locals)) }
{
    let mut free = body.locals;
    for line in body.lines.as_slice() {
        free = lower_line(alloc, line, free, into)?;
    }
    lower_sum(&body.result, free, into)
}

fn signed(alloc: Global, count: u64) -> Result<Seq<CType>, NoMem>
    ensures { IfOk result (λ kinds. kinds ≡ replicate count CType.Signed) }
{
    let mut kinds = Seq::new(alloc);
    for _ in 0..count {
        kinds.push(CType::Signed)?;
    }
    Ok(kinds)
}

fn entry(alloc: Global, name: Text, body: &Body) -> Result<CFunction, NoMem>
    ensures { IfOk result (λ made. made ≡ spec.entry_of name (spec.lines_code body.now.lines body.now.result body.now.locals)) }
{
    let mut statements = Seq::new(alloc);
    statements.push(CStmt::Step(number(1)))?;
    let place = lower_lines(alloc, body, &mut statements)?;
    statements.push(CStmt::Return(Some(place.value)))?;
    let mut blocks = Seq::new(alloc);
    blocks.push(statements)?;
    Ok(CFunction {
        name,
        result: Some(CType::Signed),
        params: Seq::new(alloc),
        locals: signed(alloc, place.free)?,
        blocks,
    })
}

fn call(alloc: Global, function: u64, value: COperand) -> Result<CStmt, NoMem>
    ensures { IfOk result (λ made. made ≡ CStmt.Call None function (value ∷ [])) }
{
    Ok(CStmt::Call(None, function, operands(alloc, value)?))
}

fn binary(into: u64, op: CBinary, x: u64, y: i64) -> CStmt
    ensures { result ≡ CStmt.Binary into op (COperand.Var x) (spec.number y) }
{
    CStmt::Binary(into, op, COperand::Var(x), number(y))
}

fn two(alloc: Global, a: CStmt, b: CStmt) -> Result<Seq<CStmt>, NoMem>
    ensures { IfOk result (λ block. block ≡ a ∷ b ∷ []) }
{
    let mut block = Seq::new(alloc);
    block.push(a)?;
    block.push(b)?;
    Ok(block)
}

fn three(alloc: Global, a: CStmt, b: CStmt, c: CStmt) -> Result<Seq<CStmt>, NoMem>
    ensures { IfOk result (λ block. block ≡ a ∷ b ∷ c ∷ []) }
{
    let mut block = two(alloc, a, b)?;
    block.push(c)?;
    Ok(block)
}

fn four(alloc: Global, a: CStmt, b: CStmt, c: CStmt, d: CStmt) -> Result<Seq<CStmt>, NoMem>
    ensures { IfOk result (λ block. block ≡ a ∷ b ∷ c ∷ d ∷ []) }
{
    let mut block = three(alloc, a, b, c)?;
    block.push(d)?;
    Ok(block)
}

// A function that takes a word, with a truth value and a word as locals.
fn printer(alloc: Global, name: &[u8], blocks: Seq<Seq<CStmt>>) -> Result<CFunction, NoMem>
    ensures { IfOk result (λ made. made ≡ spec.printer_of name.now blocks) }
{
    let mut params = Seq::new(alloc);
    params.push(CType::Signed)?;
    let mut locals = Seq::new(alloc);
    locals.push(CType::Bool)?;
    locals.push(CType::Signed)?;
    Ok(CFunction {
        name: Text::from_bytes(alloc, name)?,
        result: None,
        params,
        locals,
        blocks,
    })
}

fn last_digit(alloc: Global, rest: CStmt, digit: CStmt) -> Result<Seq<CStmt>, NoMem>
    ensures { IfOk result (λ block. block ≡ rest ∷ digit ∷ CStmt.Put (COperand.Var 2) ∷ CStmt.Return None ∷ []) }
{
    four(
        alloc,
        rest,
        digit,
        CStmt::Put(COperand::Var(2)),
        CStmt::Return(None),
    )
}

fn print_digits(alloc: Global) -> Result<CFunction, NoMem>
    ensures { IfOk result (λ made. made ≡ spec.print_digits) }
{
    let mut blocks = Seq::new(alloc);
    blocks.push(two(alloc, binary(1, CBinary::Lt, 0, 10), CStmt::If(1, 2, 1))?)?;
    let before = call(alloc, 0, COperand::Var(2))?;
    blocks.push(three(
        alloc,
        binary(2, CBinary::Div, 0, 10),
        before,
        CStmt::Goto(2),
    )?)?;
    blocks.push(last_digit(
        alloc,
        binary(2, CBinary::Mod, 0, 10),
        binary(2, CBinary::Add, 2, 48),
    )?)?;
    printer(alloc, b"print_digits", blocks)
}

fn negative_blocks(alloc: Global, blocks: &mut Seq<Seq<CStmt>>) -> Result<(), NoMem>
    ensures { OnOk result (blocks.new ≡ blocks.old ++ spec.below_zero) }
{
    let minus = CStmt::Put(number(45));
    let before = binary(2, CBinary::Div, 0, -10);
    let none = binary(1, CBinary::Eq, 2, 0);
    blocks.push(four(alloc, minus, before, none, CStmt::If(1, 3, 2))?)?;
    let call_before = call(alloc, 0, COperand::Var(2))?;
    blocks.push(two(alloc, call_before, CStmt::Goto(3))?)?;
    let digit = CStmt::Binary(2, CBinary::Sub, number(48), COperand::Var(2));
    blocks.push(last_digit(alloc, binary(2, CBinary::Mod, 0, -10), digit)?)?;
    Ok(())
}

fn print_word(alloc: Global) -> Result<CFunction, NoMem>
    ensures { IfOk result (λ made. made ≡ spec.print_word) }
{
    let mut blocks = Seq::new(alloc);
    blocks.push(two(alloc, binary(1, CBinary::Lt, 0, 0), CStmt::If(1, 1, 4))?)?;
    negative_blocks(alloc, &mut blocks)?;
    let digits = call(alloc, 0, COperand::Var(0))?;
    blocks.push(two(alloc, digits, CStmt::Return(None))?)?;
    printer(alloc, b"print_word", blocks)
}

fn printer_prototype(alloc: Global) -> Result<CPrototype, NoMem>
    ensures { IfOk result (λ made. made ≡ spec.printer) }
{
    let mut params = Seq::new(alloc);
    params.push(CType::Signed)?;
    Ok(CPrototype {
        result: None,
        params,
    })
}

fn prototypes(alloc: Global) -> Result<Seq<CPrototype>, NoMem>
    ensures { IfOk result (λ made. made ≡ spec.printer ∷ spec.printer ∷ spec.entry_prototype ∷ []) }
{
    let mut all = Seq::new(alloc);
    all.push(printer_prototype(alloc)?)?;
    all.push(printer_prototype(alloc)?)?;
    all.push(CPrototype {
        result: Some(CType::Signed),
        params: Seq::new(alloc),
    })?;
    Ok(all)
}

/// The C file of a program, whose last function has this name.
pub fn lower(alloc: Global, name: Text, body: &Body) -> Result<CFile, NoMem>
    ensures { IfOk result (λ file. file ≡ spec.lowered name body.now) }
{
    let mut functions = Seq::new(alloc);
    functions.push(print_digits(alloc)?)?;
    functions.push(print_word(alloc)?)?;
    functions.push(entry(alloc, name, body)?)?;
    Ok(CFile {
        structs: Seq::new(alloc),
        prototypes: prototypes(alloc)?,
        statics: Seq::new(alloc),
        functions,
    })
}
