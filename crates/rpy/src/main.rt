//! The program: the real files and sinks, and the top call.
#![tactic(auto)]

mod real;

use real::{RealFiles, RealSink};
use rpy_base::{Leaks, NoMem, Tally, Text, pair_of};
use rpy_top::rpyc;
use std::process::ExitCode;
use std::{env, io};

const NO_MEMORY: u8 = 13;

const USAGE: u8 = 1;

// The words of the command line, without the program's own name.
fn words_of(rt: &HostRuntime) -> io::Result<Vec<Text>> {
    let mut words = Vec::new(rt.alloc());
    for word in env::args(rt)?.skip(1) {
        match Text::from_bytes(rt.alloc(), word.as_bytes()) {
            Ok(text) => words.push(text)?,
            Err(NoMem) => return Err(io::Error::from(io::ErrorKind::OutOfMemory)),
        }
    }
    Ok(words)
}

fn main(rt: HostRuntime) -> ExitCode {
    let alloc = rt.alloc();
    let words = match words_of(&rt) {
        Ok(words) => words,
        Err(e) if e.kind() == io::ErrorKind::OutOfMemory => return ExitCode::from(NO_MEMORY),
        Err(_) => return ExitCode::from(USAGE),
    };
    let Ok(tally) = Box::new(alloc, Tally::new()) else {
        return ExitCode::from(NO_MEMORY);
    };
    let Ok(leaks) = Box::new(alloc, Leaks::new(alloc)) else {
        return ExitCode::from(NO_MEMORY);
    };
    let Ok(mut watch) = pair_of(alloc, tally, leaks) else {
        return ExitCode::from(NO_MEMORY);
    };
    let mut files = RealFiles::new(&rt);
    let mut out = RealSink::new(rt.stdout());
    let mut err = RealSink::new(rt.stderr());
    ExitCode::from(rpyc(alloc, &words, &mut files, &mut out, &mut err, &mut watch))
}
