// Links between blocks.
use crate::machine::{Code, Machine, Next, block_at, put};
use crate::val::{Val, is_unset};
use csub_tree::{COperand, StuckReason};
use ll_code::{LlLink, VarId};
use rpy_base::NoMem;

impl Machine {
    // The values wait; whether each is set.
    fn gather(&mut self, xs: &[COperand]) -> Result<bool, NoMem> {
        self.waiting.clear();
        for x in xs {
            let value = self.value(x);
            if is_unset(value) {
                return Ok(false);
            }
            self.waiting.push(value)?;
        }
        Ok(true)
    }

    // The inputs take the values that wait.
    fn spread(&mut self, inputs: &[VarId]) {
        for i in 0..inputs.len() {
            let value = match self.waiting.get(i) {
                Some(value) => *value,
                None => Val::Unset,
            };
            put(&mut self.vars, inputs[i], value);
        }
    }

    /// The inputs of the block take their values all at once, and it runs.
    pub fn jump(&mut self, code: Code<'_>, link: &LlLink) -> Result<Next, NoMem> {
        if !self.gather(link.args.as_slice())? {
            return Ok(Next::Stuck(StuckReason::Unset));
        }
        let Some(block) = block_at(code.program, self.graph, link.to) else {
            return Ok(Next::Stuck(StuckReason::Outside));
        };
        self.spread(block.inputs.as_slice());
        self.block = link.to;
        self.at = 0;
        Ok(Next::Goes)
    }
}
