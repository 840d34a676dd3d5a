// Files that are read by name.
ghost use Rattle.std.specs.Prelude.{◌≡◌, [], ◌∷◌, ◌++◌, List, ℕ, Option, Some, OnOk, OnErr};
ghost use Rattle.std.specs.Option.{option_copied};
ghost use Rattle.rpy_base.specs.Memory.{stored_under};
ghost use Rattle.rpy_base.specs.Causes.{ReadCause};
ghost use Rattle.rpy_base.specs.Reading.{ReadsFile};

use crate::{NoMem, Text};
use std::alloc::Global;

#[derive(Clone, Copy, Debug, PartialEq, Eq)]
pub enum Got {
    Whole,
    TooLong,
    Missing,
}

#[derive(Clone, Copy, Debug, PartialEq, Eq)]
pub enum ReadError {
    Failed,
    NoMem,
}

pub trait Files {
    /// Which bytes stand under a name, where the object tells it.
    ghost held: { Self → Option (List ℕ → Option (List ℕ)) };

    /// How often a read has failed.
    ghost faults: { Self → ℕ };

    /// Reads a file of at most `limit` bytes.
    fn read(
        &mut self,
        alloc: Global,
        name: &Text,
        into: &mut Vec<u8>,
        limit: u64,
    ) -> Result<Got, ReadError>
        requires { into.old.items ≡ [] }
        ensures held { held self.new ≡ held self.old }
        ensures cause { ReadCause (faults self.old) (faults self.new) result }
        ensures bytes { ReadsFile (held self.old) name.now limit into.new.items result };

    fn faults(&self) -> u64
        ensures { result ≡ faults self.now };
}

/// A file in memory.
#[derive(Drop)]
struct Stored {
    name: Text,
    bytes: Text,
}

/// Files in memory. The one that was added first under a name is read.
#[derive(Drop)]
pub struct MemFiles {
    files: Vec<Stored>,
    failing: Vec<u64>,
    calls: u64,
    faults: u64,
}

impl MemFiles {
    ghost use Rattle.rpy_base.specs.Memory.{stored_under, disk_of};

    pub fn new(alloc: Global) -> MemFiles
        ensures empty { (name : List ℕ) → disk_of result name ≡ Option.None }
    {
        MemFiles {
            files: Vec::new(alloc),
            failing: Vec::new(alloc),
            calls: 0,
            faults: 0,
        }
    }

    /// Adds a file behind those that are there.
    pub fn add(&mut self, name: Text, bytes: Text) -> Result<(), NoMem>
        ensures ok { OnOk result (self.new.files.items ≡ self.old.files.items ++ record { name = name; bytes = bytes } ∷ []) }
        ensures err { OnErr result (self.new.files.items ≡ self.old.files.items) }
    {
        self.files.push(Stored { name, bytes })?;
        Ok(())
    }

    /// The read of that number, counted from 0, fails.
    pub fn fail_at(&mut self, call: u64) -> Result<(), NoMem>
        ensures files { self.new.files ≡ self.old.files }
    {
        self.failing.push(call)?;
        Ok(())
    }
}

// The bytes of the first file of the name.
fn find<'a>(files: &'a [Stored], name: &Text) -> Option<&'a Text>
    ensures { option_copied result ≡ stored_under files.now name.now }
{
    for file in files {
        if file.name.bytes() == name.bytes() {
            return Some(&file.bytes);
        }
    }
    None
}

impl Files for MemFiles {
    ghost use Rattle.rpy_base.specs.Memory.{disk_of};

    ghost held = { λ f. Some (disk_of f) };

    ghost faults = { λ f. f.faults };

    fn read(
        &mut self,
        alloc: Global,
        name: &Text,
        into: &mut Vec<u8>,
        limit: u64,
    ) -> Result<Got, ReadError> {
        let call = self.calls;
        self.calls = self.calls.saturating_add(1);
        if self.failing.contains(&call) {
            self.faults = self.faults.saturating_add(1);
            return Err(ReadError::Failed);
        }
        match find(&self.files, name) {
            None => Ok(Got::Missing),
            Some(bytes) if bytes.bytes().len() as u64 > limit => Ok(Got::TooLong),
            Some(bytes) => match into.extend_from_slice(bytes.bytes()) {
                Ok(()) => Ok(Got::Whole),
                Err(_) => Err(ReadError::NoMem),
            },
        }
    }

    fn faults(&self) -> u64 {
        self.faults
    }
}
