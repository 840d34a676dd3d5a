// The programs that modules of the first path are.
ghost use Rattle.std.specs.Prelude.{◌≡◌, ◌++◌, ◌∷◌, [], length, Some, None, IfOk, IfErr, OnOk, Option};
ghost use Rattle.std.specs.Option.{option_copied};
ghost use Rattle.rpy_first.specs.Gives.{Gives};
ghost use Rattle.rpy_first.specs.FirstPath as spec;
ghost use Rattle.rpy_tree.specs.declared.syntax.Stmt.{out-Stmt};
ghost use Rattle.rpy_tree.specs.declared.syntax.Member.{out-Member};

use crate::body::{Arith, Body, Line, Sum};
use crate::bound::is_bound;
use crate::fault::TranslateFault;
use rpy_base::{Own, Seq, Text};
use rpy_tree::{BinOp, Expr, Function, Member, Module, Param, Stmt, Target};
use std::alloc::Global;

// The number of the first name of these that is the same.
fn place_of(names: &[Text], name: &[u8]) -> Option<u64>
    ensures { result ≡ spec.place_of names.now name.now }
{
    for i in 0..names.len() {
        if names[i].bytes() == name {
            return Some(i as u64);
        }
    }
    None
}

fn is_constant(name: &[u8]) -> bool
    ensures { result ≡ spec.is_constant name.now }
{
    name == b"None".as_slice() || name == b"True".as_slice() || name == b"False".as_slice()
}

// Whether a name is the parameter or a constant's.
fn is_reserved(parameter: &[u8], name: &[u8]) -> bool
    ensures { result ≡ spec.is_reserved parameter.now name.now }
{
    name == parameter || is_constant(name)
}

fn local(parameter: &[u8], names: &[Text], name: &[u8]) -> Result<Sum, TranslateFault>
    ensures { Gives (spec.local parameter.now names.now name.now) result }
{
    if is_reserved(parameter, name) {
        return Err(TranslateFault::NotFirst);
    }
    match place_of(names, name) {
        Some(place) => Ok(Sum::Local(place)),
        None => Err(TranslateFault::NotFirst),
    }
}

fn arith_of(op: BinOp) -> Option<Arith>
    ensures { result ≡ spec.arith_of op }
{
    match op {
        BinOp::Add => Some(Arith::Add),
        BinOp::Sub => Some(Arith::Sub),
        BinOp::Mul => Some(Arith::Mul),
        BinOp::Div
        | BinOp::FloorDiv
        | BinOp::Mod
        | BinOp::Shl
        | BinOp::Shr
        | BinOp::BitAnd
        | BinOp::BitOr
        | BinOp::BitXor => None,
    }
}

fn both(alloc: Global, op: Option<Arith>, a: Sum, b: Sum) -> Result<Sum, TranslateFault>
    ensures { Gives (spec.both op (Some a) (Some b)) result }
{
    match op {
        Some(op) => Ok(Sum::Binary(op, Own::new(alloc, a)?, Own::new(alloc, b)?)),
        None => Err(TranslateFault::NotFirst),
    }
}

// The sum that an expression is.
#[tactic(auto, using(crate::proofs::Sums::sum_int, crate::proofs::Sums::sum_name, crate::proofs::Sums::sum_binary, crate::proofs::Sums::sum_str, crate::proofs::Sums::sum_unary, crate::proofs::Sums::sum_compare, crate::proofs::Sums::sum_logic, crate::proofs::Sums::sum_not, crate::proofs::Sums::sum_call, crate::proofs::Sums::sum_attr, crate::proofs::Sums::sum_index, crate::proofs::Sums::sum_slice, crate::proofs::Sums::sum_tuple, crate::proofs::Sums::sum_list, crate::proofs::Sums::sum_dict, crate::proofs::Sums::sum_comp))]
fn sum_of(
    alloc: Global,
    parameter: &[u8],
    names: &[Text],
    tree: &Expr,
) -> Result<Sum, TranslateFault>
    ensures { Gives (spec.sum_of parameter.now names.now tree.now) result }
{
    match tree {
        Expr::Int(_, z) => Ok(Sum::Word(*z)),
        Expr::Name(_, name) => local(parameter, names, name.bytes()),
        Expr::Binary(_, op, a, b) => {
            let left = sum_of(alloc, parameter, names, a.get())?;
            let right = sum_of(alloc, parameter, names, b.get())?;
            both(alloc, arith_of(*op), left, right)
        }
        Expr::Str(_, _) => Err(TranslateFault::NotFirst),
        Expr::Unary(_, _, _) => Err(TranslateFault::NotFirst),
        Expr::Compare(_, _, _, _) => Err(TranslateFault::NotFirst),
        Expr::Logic(_, _, _, _) => Err(TranslateFault::NotFirst),
        Expr::Not(_, _) => Err(TranslateFault::NotFirst),
        Expr::Call(_, _, _) => Err(TranslateFault::NotFirst),
        Expr::Attr(_, _, _) => Err(TranslateFault::NotFirst),
        Expr::Index(_, _, _) => Err(TranslateFault::NotFirst),
        Expr::Slice(_, _, _, _) => Err(TranslateFault::NotFirst),
        Expr::Tuple(_, _) => Err(TranslateFault::NotFirst),
        Expr::List(_, _) => Err(TranslateFault::NotFirst),
        Expr::Dict(_, _) => Err(TranslateFault::NotFirst),
        Expr::Comp(_, _, _, _, _) => Err(TranslateFault::NotFirst),
    }
}

// The one name that is bound.
fn name_of(targets: &[Target]) -> Option<&Text>
    ensures { option_copied result ≡ spec.name_of targets.now }
{
    match targets {
        [Target::Name(_, name)] => Some(name),
        _ => None,
    }
}

/// What a statement binds, prints or returns.
#[derive(Drop)]
pub enum Read {
    Assign(Text, Sum),
    Print(Sum),
    Return(Sum),
}

fn binding(
    alloc: Global,
    parameter: &[u8],
    names: &[Text],
    targets: &[Target],
    tree: &Expr,
) -> Result<Read, TranslateFault>
    ensures { Gives (spec.bound parameter.now (spec.name_of targets.now) (spec.sum_of parameter.now names.now tree.now)) result }
{
    let value = sum_of(alloc, parameter, names, tree)?;
    match name_of(targets) {
        Some(name) => {
            if is_reserved(parameter, name.bytes()) {
                Err(TranslateFault::NotFirst)
            } else {
                Ok(Read::Assign(name.copy(alloc)?, value))
            }
        }
        None => Err(TranslateFault::NotFirst),
    }
}

fn read_statement(
    alloc: Global,
    parameter: &[u8],
    names: &[Text],
    statement: &Stmt,
) -> Result<Read, TranslateFault>
    ensures { Gives (spec.read_statement parameter.now names.now statement.now) result }
{
    match statement {
        Stmt::Assign(_, targets, tree) => {
            binding(alloc, parameter, names, targets.as_slice(), tree)
        }
        Stmt::Print(_, trees) => match trees.as_slice() {
            [tree] => Ok(Read::Print(sum_of(alloc, parameter, names, tree)?)),
            _ => Err(TranslateFault::NotFirst),
        },
        Stmt::Return(_, Some(tree)) => Ok(Read::Return(sum_of(alloc, parameter, names, tree)?)),
        _ => Err(TranslateFault::NotFirst),
    }
}

// The local of a name, which is bound where it is not yet.
fn bind(names: &mut Seq<Text>, name: Text) -> Result<u64, TranslateFault>
    ensures local { IfOk result (λ local. local ≡ spec.local_or_new names.old (spec.place_of names.old name)) }
    ensures names { OnOk result (names.new ≡ spec.names_with names.old name (spec.place_of names.old name)) }
    ensures memory { IfErr result (λ fault. fault ≡ TranslateFault.NoMem) }
{
    match place_of(names.as_slice(), name.bytes()) {
        Some(place) => Ok(place),
        None => {
            let place = names.len() as u64;
            names.push(name)?;
            Ok(place)
        }
    }
}

fn push(lines: &mut Seq<Line>, line: Line) -> Result<(), TranslateFault>
    ensures lines { OnOk result (lines.new ≡ lines.old ++ line ∷ []) }
    ensures memory { IfErr result (λ fault. fault ≡ TranslateFault.NoMem) }
{
    lines.push(line)?;
    Ok(())
}

// A body that ends with a return.
fn finished(
    lines: Seq<Line>,
    names: &[Text],
    sum: Sum,
    rest: &[Stmt],
) -> Result<Body, TranslateFault>
    ensures { Gives (spec.finished lines names.now sum rest.now) result }
{
    match rest {
        [] => Ok(Body {
            lines,
            result: sum,
            locals: names.len() as u64,
        }),
        [_, ..] => Err(TranslateFault::NotFirst),
    }
}

#[tactic(auto, unfolding(crate::specs::FirstPath::body_of))]
fn body_of(alloc: Global, parameter: &[u8], statements: &[Stmt]) -> Result<Body, TranslateFault>
    ensures { Gives (spec.body_of parameter.now statements.now [] []) result }
{
    let mut lines = Seq::new(alloc);
    let mut names = Seq::new(alloc);
    let mut rest = statements;
    while let [statement, after @ ..] = rest {
        rest = after;
        match read_statement(alloc, parameter, names.as_slice(), statement)? {
            Read::Return(sum) => return finished(lines, names.as_slice(), sum, rest),
            Read::Print(sum) => push(&mut lines, Line::Print(sum))?,
            Read::Assign(name, sum) => {
                let place = bind(&mut names, name)?;
                push(&mut lines, Line::Assign(place, sum))?;
            }
        }
    }
    Err(TranslateFault::NotFirst)
}

// The one parameter of a function.
fn parameter_of(star: bool, params: &[Param]) -> Option<&Text>
    ensures { option_copied result ≡ spec.parameter_of star params.now }
{
    if star {
        return None;
    }
    match params {
        [param] => plain(&param.name, &param.default),
        _ => None,
    }
}

// The name of a parameter without default that is no constant's.
fn plain<'a>(name: &'a Text, default: &Option<Expr>) -> Option<&'a Text>
    ensures { option_copied result ≡ spec.plain name.now default.now }
{
    match default {
        Some(_) => None,
        None => {
            if is_constant(name.bytes()) {
                None
            } else {
                Some(name)
            }
        }
    }
}

fn function_body(alloc: Global, function: &Function) -> Result<Body, TranslateFault>
    ensures { Gives (spec.function_body function.now) result }
{
    if function.name.bytes() != b"entry_point".as_slice() {
        return Err(TranslateFault::NotFirst);
    }
    match parameter_of(function.star, function.params.as_slice()) {
        Some(parameter) => body_of(alloc, parameter.bytes(), function.body.as_slice()),
        None => Err(TranslateFault::NotFirst),
    }
}

fn members_body(alloc: Global, members: &[Member]) -> Result<Body, TranslateFault>
    ensures { Gives (spec.members_body members.now) result }
{
    match members {
        [Member::Def(function)] => function_body(alloc, function),
        _ => Err(TranslateFault::NotFirst),
    }
}

/// The program that a module of the first path is.
pub fn first_path(alloc: Global, tree: &Module) -> Result<Body, TranslateFault>
    ensures { Gives (spec.first_path tree.now) result }
{
    let whole = members_body(alloc, tree.members.as_slice())?;
    if is_bound(&whole) {
        Ok(whole)
    } else {
        Err(TranslateFault::NotFirst)
    }
}
