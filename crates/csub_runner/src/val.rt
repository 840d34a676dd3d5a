// What the machine works on.
ghost use Rattle.std.specs.Prelude.{◌≡◌, slice_index_or, Option};
ghost use Rattle.csub_tree.specs.Operation.{word_of, flag_of, byte_of, is_unset as is_unset_value};
ghost use Rattle.csub_tree.specs.Statement.{fun_of, operand as operand_value};
ghost use Rattle.csub_tree.specs.Layout.{constant as constant_value};
ghost use Rattle.csub_runner.specs.Erased.{erase, erase_all, raw_constant, raw_operand};

use csub_tree::{CConst, COperand};
use std::marker::Model;

/// Where a block stands, and its number, which no other block ever has.
#[derive(Clone, Copy)]
pub struct Ptr {
    pub key: usize,
    pub number: u64,
}

/// A value of a variable, a field, an item or an exception slot.
#[derive(Clone, Copy)]
pub enum Val {
    Unset,
    Word(i64),
    Byte(u8),
    Flag(bool),
    Fun(u64),
    Null,
    Ptr(Ptr),
    Static(u64),
}

/// A block: its struct, its fields and its items.
#[derive(Drop)]
pub struct Cells {
    pub kind: u64,
    pub fields: Vec<Val>,
    pub elements: Vec<Val>,
}

/// A call that waits for one that it made.
#[derive(Drop)]
pub struct Frame {
    pub function: u64,
    pub block: u64,
    pub at: u64,
    pub vars: Vec<Val>,
    pub into: Option<u64>,
}

impl Model for Frame {
    ghost use Rattle.csub_runner.specs.Waiting.{Waiting};

    ghost Value = { Waiting };

    ghost view = { λ f. record { function = f.function; block = f.block; at = f.at; vars = f.vars.items; into = f.into } };
}

#[inline(always)]
pub fn is_unset(value: Val) -> bool
    ensures { result ≡ is_unset_value (erase value) }
{
    match value {
        Val::Unset => true,
        Val::Word(_)
        | Val::Byte(_)
        | Val::Flag(_)
        | Val::Fun(_)
        | Val::Null
        | Val::Ptr(_)
        | Val::Static(_) => false,
    }
}

#[inline(always)]
pub fn word_in(value: Val) -> Option<i64>
    ensures { result ≡ word_of (erase value) }
{
    match value {
        Val::Word(word) => Some(word),
        Val::Unset
        | Val::Byte(_)
        | Val::Flag(_)
        | Val::Fun(_)
        | Val::Null
        | Val::Ptr(_)
        | Val::Static(_) => None,
    }
}

#[inline(always)]
pub fn flag_in(value: Val) -> Option<bool>
    ensures { result ≡ flag_of (erase value) }
{
    match value {
        Val::Flag(flag) => Some(flag),
        Val::Unset
        | Val::Word(_)
        | Val::Byte(_)
        | Val::Fun(_)
        | Val::Null
        | Val::Ptr(_)
        | Val::Static(_) => None,
    }
}

pub fn byte_in(value: Val) -> Option<u8>
    ensures { result ≡ byte_of (erase value) }
{
    match value {
        Val::Byte(byte) => Some(byte),
        Val::Unset
        | Val::Word(_)
        | Val::Flag(_)
        | Val::Fun(_)
        | Val::Null
        | Val::Ptr(_)
        | Val::Static(_) => None,
    }
}

pub fn fun_in(value: Val) -> Option<u64>
    ensures { result ≡ fun_of (erase value) }
{
    match value {
        Val::Fun(function) => Some(function),
        Val::Unset
        | Val::Word(_)
        | Val::Byte(_)
        | Val::Flag(_)
        | Val::Null
        | Val::Ptr(_)
        | Val::Static(_) => None,
    }
}

#[inline(always)]
pub fn constant(what: CConst) -> Val
    ensures { result ≡ raw_constant what }
{
    match what {
        CConst::Word(word) => Val::Word(word),
        CConst::Char(byte) => Val::Byte(byte),
        CConst::Bool(flag) => Val::Flag(flag),
        CConst::Null => Val::Null,
        CConst::Static(_, number) => Val::Static(number),
        CConst::Fun(function) => Val::Fun(function),
    }
}

/// The value at a place; unset where there is none.
#[inline(always)]
pub fn read(values: &Vec<Val>, at: u64) -> Val
    ensures { result ≡ slice_index_or values.now.items at Val.Unset }
{
    match values.get(at as usize) {
        Some(value) => *value,
        None => Val::Unset,
    }
}

#[inline(always)]
fn constant_word(what: &CConst) -> Option<i64>
    ensures { result ≡ word_of (constant_value what.now) }
{
    match what {
        CConst::Word(word) => Some(*word),
        CConst::Char(_) | CConst::Bool(_) | CConst::Null | CConst::Static(_, _) | CConst::Fun(_) =>
            None,
    }
}

/// The word that an operand is, where it is one.
#[inline(always)]
pub fn word_operand(vars: &Vec<Val>, what: &COperand) -> Option<i64>
    ensures { result ≡ word_of (operand_value (erase_all vars.now.items) what.now) }
{
    match what {
        COperand::Var(var) => word_in(read(vars, *var)),
        COperand::Const(value) => constant_word(value),
    }
}

#[inline(always)]
pub fn operand(vars: &Vec<Val>, what: &COperand) -> Val
    ensures { result ≡ raw_operand vars.now.items what.now }
{
    match what {
        COperand::Var(var) => read(vars, *var),
        COperand::Const(value) => constant(*value),
    }
}
