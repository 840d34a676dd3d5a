// A watcher that refuses.
ghost use Rattle.std.specs.Prelude.{◌≡◌, ◌≤◌};

use rpy_base::{HeapWatch, NoMem, Text};
use std::alloc::Global;

/// A watcher that refuses a block behind so many.
#[derive(Drop)]
pub struct Refuses {
    made: u64,
    gone: u64,
    most: u64,
    ghost in_order: { gone ≤ made },
}

impl Refuses {
    pub fn new(most: u64) -> Refuses
        ensures made { result.made ≡ 0 }
        ensures gone { result.gone ≡ 0 }
    {
        Refuses {
            made: 0,
            gone: 0,
            most,
        }
    }
}

impl HeapWatch for Refuses {
    ghost use Rattle.std.specs.Prelude.{None, codes};
    ghost use Rattle.rpy_base.specs.Watching.{Own};

    ghost seen = { λ c. record { name = codes "tally"; style = Own; made = c.made; gone = c.gone; live = None } };

    fn name(&self) -> &[u8] {
        b"tally"
    }

    fn made(&mut self, _alloc: Global, _block: u64, _kind: u64, _cells: u64) -> Result<(), NoMem> {
        if self.made >= self.most {
            return Err(NoMem);
        }
        self.made += 1;
        Ok(())
    }

    fn gone(&mut self, _block: u64) {
        self.gone += 1;
    }

    fn report(&self, _alloc: Global) -> Result<Text, NoMem> {
        Err(NoMem)
    }
}
