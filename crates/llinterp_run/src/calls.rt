// Calls, results and exceptions.
use crate::machine::{Code, Machine, Next, block_at, graph_at, put};
use crate::val::{Frame, Val, fun_in, is_unset, word_in};
use csub_tree::{COperand, StuckReason};
use ll_code::{LlBlock, LlExit, LlGraph, LlLink, LlOp, LlType, VarId};
use rpy_base::{NoMem, Outcome};
use std::alloc::Global;
use std::mem;

fn same_type(s: LlType, t: LlType) -> bool {
    match (s, t) {
        (LlType::Signed, LlType::Signed) => true,
        (LlType::Char, LlType::Char) => true,
        (LlType::Bool, LlType::Bool) => true,
        (LlType::Void, LlType::Void) => true,
        (LlType::Fn, LlType::Fn) => true,
        (LlType::Ptr(m), LlType::Ptr(n)) => m == n,
        _ => false,
    }
}

// Whether the parameters of a graph are of these types.
fn takes(graph: &LlGraph, kinds: &[LlType]) -> bool {
    if graph.params.len() != kinds.len() {
        return false;
    }
    for i in 0..kinds.len() {
        match graph.types.get(i) {
            Some(kind) => {
                if !same_type(*kind, kinds[i]) {
                    return false;
                }
            }
            None => return false,
        }
    }
    true
}

// The link that catches an exception, and the variable that takes it, where nothing is left of the
// block but an exit by exceptions that has such a link.
fn catches(block: &LlBlock, at: usize) -> Option<(VarId, &LlLink)> {
    if at < block.ops.len() {
        return None;
    }
    match &block.exit {
        LlExit::OnRaise(a, Some(link), _) => Some((*a, link)),
        _ => None,
    }
}

fn any_unset(values: &Vec<Val>) -> bool {
    for value in values {
        if is_unset(*value) {
            return true;
        }
    }
    false
}

impl Machine {
    // The operands' values, and room for the variables of the graph.
    fn fresh(&self, alloc: Global, xs: &[COperand], count: usize) -> Result<Vec<Val>, NoMem> {
        let mut vars = Vec::with_capacity(alloc, count)?;
        for x in xs {
            vars.push(self.value(x))?;
        }
        Ok(vars)
    }

    /// A call: the caller waits, and the graph begins.
    pub fn call(
        &mut self,
        alloc: Global,
        code: Code<'_>,
        into: Option<VarId>,
        number: u64,
        xs: &[COperand],
    ) -> Result<Next, NoMem> {
        let Some(graph) = graph_at(code.program, number) else {
            return Ok(Next::Stuck(StuckReason::Outside));
        };
        let count = graph.types.len();
        let mut vars = self.fresh(alloc, xs, count)?;
        if any_unset(&vars) {
            return Ok(Next::Stuck(StuckReason::Unset));
        }
        for _ in vars.len()..count {
            vars.push(Val::Unset)?;
        }
        let vars = mem::replace(&mut self.vars, vars);
        self.frames.push(Frame {
            graph: self.graph,
            block: self.block,
            at: self.at as u64,
            vars,
            into,
        })?;
        self.graph = number;
        self.block = 0;
        self.at = 0;
        Ok(Next::Goes)
    }

    /// A call of a function value.
    pub fn call_value(
        &mut self,
        alloc: Global,
        code: Code<'_>,
        operation: &LlOp,
    ) -> Result<Next, NoMem> {
        let LlOp::CallFn(into, given, kinds, b, xs) = operation else {
            return Ok(Next::Stuck(StuckReason::Outside));
        };
        let value = self.variable(*b);
        if is_unset(value) {
            return Ok(Next::Stuck(StuckReason::Unset));
        }
        let Some(number) = fun_in(value) else {
            return Ok(Next::Stuck(StuckReason::Signature));
        };
        let Some(graph) = graph_at(code.program, number) else {
            return Ok(Next::Stuck(StuckReason::Signature));
        };
        if !same_type(graph.result, *given) || !takes(graph, kinds.as_slice()) {
            return Ok(Next::Stuck(StuckReason::Signature));
        }
        self.call(alloc, code, *into, number, xs.as_slice())
    }

    // Back to a call that waits.
    fn resume(&mut self, frame: Frame) -> Option<VarId> {
        let Frame {
            graph,
            block,
            at,
            vars,
            into,
        } = frame;
        self.graph = graph;
        self.block = block;
        self.at = at as usize;
        self.vars = vars;
        into
    }

    /// The graph gives a result, or none.
    pub fn give_back(&mut self, value: Val) -> Next {
        let Some(frame) = self.frames.pop() else {
            return match word_in(value) {
                Some(n) => Next::Ends(Outcome::Returned(n)),
                None => Next::Stuck(StuckReason::Unset),
            };
        };
        if let Some(a) = self.resume(frame) {
            put(&mut self.vars, a, value);
        }
        Next::Goes
    }

    /// An exception in the block that runs: it is caught there, or leaves the graph.
    pub fn raise(&mut self, code: Code<'_>, value: Val) -> Result<Next, NoMem> {
        if is_unset(value) {
            return Ok(Next::Stuck(StuckReason::Unset));
        }
        let Some(block) = block_at(code.program, self.graph, self.block) else {
            return Ok(Next::Stuck(StuckReason::Outside));
        };
        match catches(block, self.at) {
            None => Ok(Next::Throws(value)),
            Some((a, link)) => {
                put(&mut self.vars, a, value);
                self.jump(code, link)
            }
        }
    }

    /// An exception leaves the graph that runs. Out of the first one nothing catches it.
    pub fn throw(&mut self, code: Code<'_>, value: Val) -> Result<Next, NoMem> {
        match self.frames.pop() {
            None => Ok(Next::Stuck(StuckReason::Outside)),
            Some(frame) => {
                let _ = self.resume(frame);
                self.raise(code, value)
            }
        }
    }
}
