// Numbers that are taken back in turn, the last one first.
ghost use Rattle.std.specs.Prelude.{◌≡◌, [], ◌∷◌, ◌≤◌, length, OnOk, MatchOption};
ghost use Rattle.rpy_token.specs.Stack.{first};

use rpy_base::NoMem;
use std::alloc::Global;
use std::marker::Model;

/// Numbers, of which contracts see the last one first.
#[derive(Drop)]
pub struct Stack {
    items: Vec<u32>,
}

impl Model for Stack {
    ghost use Rattle.std.specs.Prelude.{List, ℕ, reverse};

    ghost Value = { List ℕ };

    ghost view = { λ s. reverse s.items.items };
}

impl Stack {
    pub fn new(alloc: Global) -> Stack
        ensures { result ≡ [] }
    {
        Stack {
            items: Vec::new(alloc),
        }
    }

    #[tactic(auto, using(crate::proofs::StackLemmas::reverse_length))]
    pub fn len(&self) -> usize
        ensures { result ≡ length self.now }
    {
        self.items.len()
    }

    #[tactic(auto, using(crate::proofs::StackLemmas::reverse_push))]
    pub fn push(&mut self, item: u32) -> Result<(), NoMem>
        ensures { OnOk result (self.new ≡ item ∷ self.old) }
    {
        self.items.push(item)?;
        Ok(())
    }

    #[tactic(auto, using(crate::proofs::StackLemmas::reverse_push))]
    pub fn pop(&mut self) -> Option<u32>
        ensures { MatchOption result ((self.old ≡ []) × (self.new ≡ []))
            (λ top. self.old ≡ top ∷ self.new) }
    {
        self.items.pop()
    }

    #[tactic(auto, using(crate::proofs::StackLemmas::last_reverse))]
    pub fn top(&self) -> Option<u32>
        ensures { result ≡ first self.now }
    {
        self.items.last().copied()
    }
}
