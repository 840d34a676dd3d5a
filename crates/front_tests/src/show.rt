// Trees as text, for tests: each node with its number, no deeper than asked for.
use rpy_base::{Own, Seq, Text};
use rpy_tree::{Clause, Expr, Function, Member, Module, NodeId, Param, Stmt, Target};
use std::alloc::AllocError;
use std::fmt::Write;

fn push_text(out: &mut String, text: &Text) -> Result<(), AllocError> {
    for byte in text.bytes() {
        out.push(char::from(*byte))?;
    }
    Ok(())
}

fn push_name(out: &mut String, name: &Text, node: NodeId) -> Result<(), AllocError> {
    push_text(out, name)?;
    write!(out, "#{node}")
}

fn push_path(out: &mut String, names: &Seq<Text>) -> Result<(), AllocError> {
    for name in names.as_slice() {
        out.push('.')?;
        push_text(out, name)?;
    }
    Ok(())
}

#[cycle(expr)]
fn push_exprs(out: &mut String, all: &Seq<Expr>, depth: u32) -> Result<(), AllocError> {
    if depth == 0 {
        return Ok(());
    }
    for e in all.as_slice() {
        out.push(' ')?;
        push_expr(out, e, depth - 1)?;
    }
    out.push(')')
}

#[cycle(expr)]
fn push_pair(out: &mut String, a: &Expr, b: &Expr, depth: u32) -> Result<(), AllocError> {
    if depth == 0 {
        return Ok(());
    }
    out.push(' ')?;
    push_expr(out, a, depth - 1)?;
    out.push(' ')?;
    push_expr(out, b, depth - 1)?;
    out.push(')')
}

#[cycle(expr)]
fn push_option(out: &mut String, e: &Option<Own<Expr>>, depth: u32) -> Result<(), AllocError> {
    if depth == 0 {
        return Ok(());
    }
    match e {
        Some(e) => {
            out.push(' ')?;
            push_expr(out, e.get(), depth - 1)
        }
        None => out.push_str(" _"),
    }
}

#[cycle(expr)]
fn push_expr(out: &mut String, e: &Expr, depth: u32) -> Result<(), AllocError> {
    if depth == 0 {
        return Ok(());
    }
    let depth = depth - 1;
    match e {
        Expr::Int(node, n) => write!(out, "{n}#{node}"),
        Expr::Str(node, text) => {
            out.push('\'')?;
            push_name(out, text, *node)
        }
        Expr::Name(node, name) => push_name(out, name, *node),
        Expr::Unary(node, op, a) => {
            write!(out, "({op:?}#{node} ")?;
            push_expr(out, a.get(), depth)?;
            out.push(')')
        }
        Expr::Binary(node, op, a, b) => {
            write!(out, "({op:?}#{node}")?;
            push_pair(out, a.get(), b.get(), depth)
        }
        Expr::Compare(node, op, a, b) => {
            write!(out, "({op:?}#{node}")?;
            push_pair(out, a.get(), b.get(), depth)
        }
        Expr::Logic(node, and, a, b) => {
            write!(out, "({}#{node}", if *and { "And" } else { "Or" })?;
            push_pair(out, a.get(), b.get(), depth)
        }
        Expr::Not(node, a) => {
            write!(out, "(Not#{node} ")?;
            push_expr(out, a.get(), depth)?;
            out.push(')')
        }
        Expr::Call(node, f, args) => {
            write!(out, "(Call#{node} ")?;
            push_expr(out, f.get(), depth)?;
            push_exprs(out, args, depth)
        }
        Expr::Attr(node, a, name) => {
            write!(out, "(Attr#{node} ")?;
            push_expr(out, a.get(), depth)?;
            out.push(' ')?;
            push_text(out, name)?;
            out.push(')')
        }
        Expr::Index(node, a, i) => {
            write!(out, "(Index#{node}")?;
            push_pair(out, a.get(), i.get(), depth)
        }
        Expr::Slice(node, a, from, to) => {
            write!(out, "(Slice#{node} ")?;
            push_expr(out, a.get(), depth)?;
            push_option(out, from, depth)?;
            push_option(out, to, depth)?;
            out.push(')')
        }
        Expr::Tuple(node, all) => {
            write!(out, "(Tuple#{node}")?;
            push_exprs(out, all, depth)
        }
        Expr::List(node, all) => {
            write!(out, "(List#{node}")?;
            push_exprs(out, all, depth)
        }
        Expr::Dict(node, pairs) => {
            write!(out, "(Dict#{node}")?;
            for pair in pairs.as_slice() {
                out.push(' ')?;
                push_expr(out, &pair.0, depth)?;
                out.push(' ')?;
                push_expr(out, &pair.1, depth)?;
            }
            out.push(')')
        }
        Expr::Comp(node, item, target, subject, condition) => {
            write!(out, "(Comp#{node} ")?;
            push_expr(out, item.get(), depth)?;
            out.push(' ')?;
            push_target(out, target.get(), depth)?;
            out.push(' ')?;
            push_expr(out, subject.get(), depth)?;
            push_option(out, condition, depth)?;
            out.push(')')
        }
    }
}

#[cycle(expr)]
fn push_target(out: &mut String, target: &Target, depth: u32) -> Result<(), AllocError> {
    if depth == 0 {
        return Ok(());
    }
    let depth = depth - 1;
    match target {
        Target::Name(node, name) => push_name(out, name, *node),
        Target::Attr(node, a, name) => {
            write!(out, "(Attr#{node} ")?;
            push_expr(out, a, depth)?;
            out.push(' ')?;
            push_text(out, name)?;
            out.push(')')
        }
        Target::Item(node, a, i) => {
            write!(out, "(Item#{node}")?;
            push_pair(out, a, i, depth)
        }
        Target::Tuple(node, all) => {
            write!(out, "(Tuple#{node}")?;
            for part in all.as_slice() {
                out.push(' ')?;
                push_target(out, part, depth)?;
            }
            out.push(')')
        }
    }
}

#[cycle(stmt)]
fn push_block(out: &mut String, block: &Seq<Stmt>, depth: u32) -> Result<(), AllocError> {
    if depth == 0 {
        return Ok(());
    }
    out.push_str(" [")?;
    for stmt in block.as_slice() {
        push_stmt(out, stmt, depth - 1)?;
    }
    out.push(']')
}

#[cycle(stmt)]
fn push_clause(out: &mut String, clause: &Clause, depth: u32) -> Result<(), AllocError> {
    if depth == 0 {
        return Ok(());
    }
    write!(out, " (Clause#{}", clause.node)?;
    if clause.bare {
        out.push('*')?;
    }
    for class in clause.classes.as_slice() {
        out.push(' ')?;
        push_path(out, class)?;
    }
    if let Some(name) = &clause.bind {
        out.push_str(" as ")?;
        push_text(out, name)?;
    }
    push_block(out, &clause.body, depth - 1)?;
    out.push(')')
}

/// A statement without blocks.
fn push_simple(out: &mut String, stmt: &Stmt) -> Result<(), AllocError> {
    match stmt {
        Stmt::Pass(node) => write!(out, "(Pass#{node})"),
        Stmt::Break(node) => write!(out, "(Break#{node})"),
        Stmt::Continue(node) => write!(out, "(Continue#{node})"),
        Stmt::Return(node, None) => write!(out, "(Return#{node})"),
        Stmt::Return(node, Some(e)) => {
            write!(out, "(Return#{node} ")?;
            push_expr(out, e, 50)?;
            out.push(')')
        }
        Stmt::Raise(node, e) => {
            write!(out, "(Raise#{node} ")?;
            push_expr(out, e, 50)?;
            out.push(')')
        }
        Stmt::Assert(node, e) => {
            write!(out, "(Assert#{node} ")?;
            push_expr(out, e, 50)?;
            out.push(')')
        }
        Stmt::Del(node, a, i) => {
            write!(out, "(Del#{node}")?;
            push_pair(out, a, i, 50)
        }
        Stmt::Print(node, all) => {
            write!(out, "(Print#{node}")?;
            push_exprs(out, all, 50)
        }
        Stmt::Assign(node, targets, e) => {
            write!(out, "(Assign#{node} ")?;
            for target in targets.as_slice() {
                push_target(out, target, 50)?;
                out.push(' ')?;
            }
            push_expr(out, e, 50)?;
            out.push(')')
        }
        Stmt::Aug(node, target, op, e) => {
            write!(out, "({op:?}Assign#{node} ")?;
            push_target(out, target, 50)?;
            out.push(' ')?;
            push_expr(out, e, 50)?;
            out.push(')')
        }
        Stmt::Expr(node, e) => {
            write!(out, "(Expr#{node} ")?;
            push_expr(out, e, 50)?;
            out.push(')')
        }
        _ => Ok(()),
    }
}

#[cycle(stmt)]
fn push_stmt(out: &mut String, stmt: &Stmt, depth: u32) -> Result<(), AllocError> {
    if depth == 0 {
        return Ok(());
    }
    let depth = depth - 1;
    match stmt {
        Stmt::If(node, arms, other) => {
            write!(out, "(If#{node}")?;
            for arm in arms.as_slice() {
                out.push(' ')?;
                push_expr(out, &arm.0, 50)?;
                push_block(out, &arm.1, depth)?;
            }
            push_block(out, other, depth)?;
            out.push(')')
        }
        Stmt::While(node, test, body) => {
            write!(out, "(While#{node} ")?;
            push_expr(out, test, 50)?;
            push_block(out, body, depth)?;
            out.push(')')
        }
        Stmt::For(node, target, subject, body) => {
            write!(out, "(For#{node} ")?;
            push_target(out, target, 50)?;
            out.push(' ')?;
            push_expr(out, subject, 50)?;
            push_block(out, body, depth)?;
            out.push(')')
        }
        Stmt::Try(node, body, clauses, other, last) => {
            write!(out, "(Try#{node}")?;
            push_block(out, body, depth)?;
            for clause in clauses.as_slice() {
                push_clause(out, clause, depth)?;
            }
            push_block(out, other, depth)?;
            if let Some(last) = last {
                push_block(out, last, depth)?;
            }
            out.push(')')
        }
        _ => push_simple(out, stmt),
    }
}

fn push_param(out: &mut String, param: &Param) -> Result<(), AllocError> {
    push_name(out, &param.name, param.node)?;
    if let Some(e) = &param.default {
        out.push('=')?;
        push_expr(out, e, 50)?;
    }
    Ok(())
}

fn push_function(out: &mut String, f: &Function) -> Result<(), AllocError> {
    out.push_str("(Def ")?;
    push_name(out, &f.name, f.node)?;
    for param in f.params.as_slice() {
        out.push(' ')?;
        push_param(out, param)?;
    }
    if f.star {
        out.push('*')?;
    }
    push_block(out, &f.body, 50)?;
    out.push(')')
}

#[cycle(member)]
fn push_member(out: &mut String, member: &Member, depth: u32) -> Result<(), AllocError> {
    if depth == 0 {
        return Ok(());
    }
    match member {
        Member::Import(node, names) => {
            write!(out, "(Import#{node}")?;
            push_path(out, names)?;
            out.push(')')
        }
        Member::From(node, path, names) => {
            write!(out, "(From#{node}")?;
            push_path(out, path)?;
            out.push(' ')?;
            push_path(out, names)?;
            out.push(')')
        }
        Member::Const(node, name, e) => {
            out.push_str("(Const ")?;
            push_name(out, name, *node)?;
            out.push(' ')?;
            push_expr(out, e, 50)?;
            out.push(')')
        }
        Member::Def(f) => push_function(out, f),
        Member::Class(c) => {
            out.push_str("(Class ")?;
            push_name(out, &c.name, c.node)?;
            push_path(out, &c.base)?;
            push_members(out, &c.members, depth - 1)?;
            out.push(')')
        }
    }
}

#[cycle(member)]
fn push_members(out: &mut String, members: &Seq<Member>, depth: u32) -> Result<(), AllocError> {
    if depth == 0 {
        return Ok(());
    }
    for member in members.as_slice() {
        out.push(' ')?;
        push_member(out, member, depth - 1)?;
    }
    Ok(())
}

/// The members, how many nodes there are, and the line of each.
pub fn push_module(out: &mut String, module: &Module) -> Result<(), AllocError> {
    push_members(out, &module.members, 50)?;
    write!(out, " {}:", module.nodes)?;
    for line in module.lines.as_slice() {
        write!(out, " {line}")?;
    }
    Ok(())
}
