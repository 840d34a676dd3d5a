// A sink that takes bytes.
ghost use Rattle.std.specs.Prelude.{◌≡◌, ◌+◌, List, ℕ, [], Option, Some, None};
ghost use Rattle.rpy_base.specs.Causes.{PutCause};
ghost use Rattle.rpy_base.specs.Putting.{Takes};

use std::alloc::Global;

#[derive(Clone, Copy, Debug, PartialEq, Eq)]
pub enum PutError {
    Failed,
    NoMem,
}

pub trait Sink {
    /// What was taken so far, where the sink tells it.
    ghost taken: { Self → Option (List ℕ) };

    /// How often a put has failed.
    ghost faults: { Self → ℕ };

    fn put(&mut self, bytes: &[u8]) -> Result<(), PutError>
        ensures taken { Takes (taken self.old) (taken self.new) bytes.now result }
        ensures cause { PutCause (faults self.old) (faults self.new) result };

    fn faults(&self) -> u64
        ensures { result ≡ faults self.now };
}

/// A put that fails: its number, counted from 0, and how many bytes it takes before it does.
#[derive(Clone, Copy, Debug, PartialEq, Eq)]
struct Fault {
    call: u64,
    after: u64,
}

/// A sink in memory, which keeps what it took.
#[derive(Drop)]
pub struct MemSink {
    bytes: Vec<u8>,
    calls: u64,
    faults: u64,
    fault: Option<Fault>,
}

impl MemSink {
    ghost use Rattle.rpy_base.specs.Memory.{sink_bytes};

    pub fn new(alloc: Global) -> MemSink
        ensures { sink_bytes result ≡ [] }
    {
        MemSink {
            bytes: Vec::new(alloc),
            calls: 0,
            faults: 0,
            fault: None,
        }
    }

    pub fn taken(&self) -> &[u8]
        ensures { result.now ≡ sink_bytes self.now }
    {
        &self.bytes
    }

    /// The put of that number takes at most `after` bytes and fails. It replaces an earlier one.
    pub fn fail_at(&mut self, call: u64, after: u64)
        ensures { sink_bytes self.new ≡ sink_bytes self.old }
    {
        self.fault = Some(Fault { call, after });
    }
}

impl Sink for MemSink {
    ghost taken = { λ s. Some s.bytes.items };

    ghost faults = { λ s. s.faults };

    fn put(&mut self, bytes: &[u8]) -> Result<(), PutError> {
        let call = self.calls;
        if let Some(fault) = self.fault
            && fault.call == call
        {
            let most = if fault.after < bytes.len() as u64 {
                fault.after as usize
            } else {
                bytes.len()
            };
            if self.bytes.extend_from_slice(&bytes[..most]).is_err() {
                return Err(PutError::NoMem);
            }
            self.calls = self.calls.saturating_add(1);
            self.faults = self.faults.saturating_add(1);
            return Err(PutError::Failed);
        }
        if self.bytes.extend_from_slice(bytes).is_err() {
            return Err(PutError::NoMem);
        }
        self.calls = self.calls.saturating_add(1);
        Ok(())
    }

    fn faults(&self) -> u64 {
        self.faults
    }
}
