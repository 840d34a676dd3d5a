// The real file system and the real streams. They tell no content, and count each error.
ghost use Rattle.std.specs.Prelude.{◌≤◌, length, None};

use rpy_base::{Files, Got, PutError, ReadError, Sink, Text};
use std::alloc::Global;
use std::io::{Read, Write};
use std::{fs, io};

const CHUNK: usize = 65536;

/// The files of the system.
#[derive(Drop)]
pub struct RealFiles<'a> {
    rt: &'a HostRuntime,
    faults: u64,
}

impl<'a> RealFiles<'a> {
    pub fn new(rt: &'a HostRuntime) -> RealFiles<'a> {
        RealFiles { rt, faults: 0 }
    }
}

enum Ended {
    AtEnd,
    PastLimit,
    Fault,
    NoMemory,
}

// Reads to the end, or past the limit.
fn read_all<R: Read>(from: &mut R, into: &mut Vec<u8>, limit: u64) -> Ended
    requires { length into.old.items ≤ limit }
    ensures { length into.new.items ≤ limit }
{
    let mut buffer = [0u8; CHUNK];
    for _ in 0..u64::MAX {
        match from.read(&mut buffer) {
            Err(_) => return Ended::Fault,
            Ok(0) => return Ended::AtEnd,
            Ok(count) => {
                if into.len() as u64 + count as u64 > limit {
                    return Ended::PastLimit;
                }
                if into.extend_from_slice(&buffer[..count]).is_err() {
                    return Ended::NoMemory;
                }
            }
        }
    }
    Ended::Fault
}

impl Files for RealFiles<'_> {
    ghost held = { λ f. None };

    ghost faults = { λ f. f.faults };

    fn read(
        &mut self,
        _alloc: Global,
        name: &Text,
        into: &mut Vec<u8>,
        limit: u64,
    ) -> Result<Got, ReadError> {
        let Ok(path) = str::from_utf8(name.bytes()) else {
            return Ok(Got::Missing);
        };
        match fs::open(self.rt, path) {
            Ok(mut file) => match read_all(&mut file, into, limit) {
                Ended::AtEnd => Ok(Got::Whole),
                Ended::PastLimit => Ok(Got::TooLong),
                Ended::NoMemory => Err(ReadError::NoMem),
                Ended::Fault => {
                    self.faults = self.faults.saturating_add(1);
                    Err(ReadError::Failed)
                }
            },
            Err(e) if e.kind() == io::ErrorKind::NotFound => Ok(Got::Missing),
            Err(_) => {
                self.faults = self.faults.saturating_add(1);
                Err(ReadError::Failed)
            }
        }
    }

    fn faults(&self) -> u64 {
        self.faults
    }
}

/// A stream of the system.
#[derive(Drop)]
pub struct RealSink<W: Write> {
    to: W,
    faults: u64,
}

impl<W: Write> RealSink<W> {
    pub fn new(to: W) -> RealSink<W> {
        RealSink { to, faults: 0 }
    }
}

impl<W: Write> Sink for RealSink<W> {
    ghost taken = { λ s. None };

    ghost faults = { λ s. s.faults };

    fn put(&mut self, bytes: &[u8]) -> Result<(), PutError> {
        let mut rest = bytes;
        while !rest.is_empty() {
            match self.to.write(rest) {
                Ok(count) if 0 < count && count <= rest.len() => {
                    rest = &rest[count..];
                }
                _ => {
                    self.faults = self.faults.saturating_add(1);
                    return Err(PutError::Failed);
                }
            }
        }
        Ok(())
    }

    fn faults(&self) -> u64 {
        self.faults
    }
}
