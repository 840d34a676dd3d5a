// The state of a run.
use crate::operation::{binary, unary};
use crate::shape::Shape;
use crate::val::{Cells, Frame, Val, flag_in, is_unset, operand, read, word_in};
use csub_tree::{CBinary, COperand, CUnary, StuckReason};
use ll_code::{LlBlock, LlGraph, LlProgram};
use rpy_base::{Outcome, Text};

/// What runs, and what it runs on.
#[derive(Clone, Copy)]
pub struct Code<'a> {
    pub program: &'a LlProgram,
    pub shapes: &'a Vec<Shape>,
    pub args: &'a [Text],
}

/// What follows by a step.
#[derive(Drop)]
pub enum Next {
    Goes,
    Puts(u8),
    Ends(Outcome),
    Stuck(StuckReason),
    /// An exception leaves a graph.
    Throws(Val),
}

/// The graph that runs, its block and place there, and its variables; who waits, the innermost last;
/// the blocks of memory by number, none where one is gone; the statics; the two exception slots; the
/// steps left; and room in which the values of a link wait.
#[derive(Drop)]
pub struct Machine {
    pub graph: u64,
    pub block: u64,
    pub at: usize,
    pub vars: Vec<Val>,
    pub frames: Vec<Frame>,
    pub blocks: Vec<Option<Cells>>,
    pub statics: Vec<Cells>,
    pub exc_type: Val,
    pub exc_value: Val,
    pub steps: u64,
    pub waiting: Vec<Val>,
}

/// Writes the value at a place, where there is one.
pub fn put(values: &mut Vec<Val>, at: u64, value: Val) {
    if (at as usize) < values.len() {
        values[at as usize] = value;
    }
}

pub fn graph_at(program: &LlProgram, graph: u64) -> Option<&LlGraph> {
    program.graphs.get(graph as usize)
}

pub fn block_at(program: &LlProgram, graph: u64, block: u64) -> Option<&LlBlock> {
    graph_at(program, graph)?.blocks.get(block as usize)
}

impl Machine {
    pub fn value(&self, x: &COperand) -> Val {
        operand(&self.vars, x)
    }

    pub fn variable(&self, a: u64) -> Val {
        read(&self.vars, a)
    }

    /// The variable takes a value, and the next operation follows.
    pub fn assign(&mut self, a: u64, value: Val) -> Next {
        put(&mut self.vars, a, value);
        Next::Goes
    }

    pub fn set(&mut self, a: u64, value: Val) -> Next {
        if is_unset(value) {
            return Next::Stuck(StuckReason::Unset);
        }
        self.assign(a, value)
    }

    fn answer(&mut self, a: u64, answer: Result<Val, StuckReason>) -> Next {
        match answer {
            Ok(value) => self.assign(a, value),
            Err(reason) => Next::Stuck(reason),
        }
    }

    pub fn unary(&mut self, a: u64, op: CUnary, x: Val) -> Next {
        self.answer(a, unary(op, x))
    }

    pub fn binary(&mut self, a: u64, op: CBinary, x: Val, y: Val) -> Next {
        self.answer(a, binary(op, x, y))
    }

    pub fn pay(&mut self, cost: Val) -> Next {
        let Some(cost) = word_in(cost) else {
            return Next::Stuck(StuckReason::Unset);
        };
        if cost < 0 {
            return Next::Stuck(StuckReason::Cost);
        }
        let cost = cost as u64;
        if cost > self.steps {
            return Next::Ends(Outcome::Running);
        }
        self.steps -= cost;
        Next::Goes
    }

    pub fn exc_set(&mut self, kind: Val, value: Val) -> Next {
        if is_unset(kind) || is_unset(value) {
            return Next::Stuck(StuckReason::Unset);
        }
        self.exc_type = kind;
        self.exc_value = value;
        Next::Goes
    }

    pub fn exc_clear(&mut self) -> Next {
        self.exc_type = Val::Null;
        self.exc_value = Val::Null;
        Next::Goes
    }

    /// Which way a test goes, where it is a truth value.
    pub fn test(&self, a: u64) -> Option<bool> {
        flag_in(self.variable(a))
    }
}
