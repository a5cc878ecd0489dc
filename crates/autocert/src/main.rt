//! `autocert`: certifies safety policies of LAP programs.
//!
//! It hands the words of the call to the top call of `ac_engine`, with the host's files and its standard output, and
//! ends with the code of the status.
#![tactic(auto)]

use ac_io::{HostFiles, HostOut};
use std::process::ExitCode;
use std::{env, io};

/// The exit code where memory for the words is refused.
const NO_MEMORY: u8 = 8;

/// The exit code where the system does not give the words as texts.
const NO_TEXTS: u8 = 10;

fn main(rt: HostRuntime) -> ExitCode {
    let words = match words(&rt) {
        Ok(words) => words,
        Err(error) if error.kind() == io::ErrorKind::OutOfMemory => {
            return ExitCode::from(NO_MEMORY);
        }
        Err(_) => return ExitCode::from(NO_TEXTS),
    };
    let alloc = rt.alloc();
    let mut files = HostFiles::new(rt);
    let mut out = HostOut::new(rt);
    let status = ac_engine::autocert(alloc, words.as_slice(), &mut files, &mut out);
    ExitCode::from(status.code())
}

/// The words behind the program's name.
fn words(rt: &HostRuntime) -> io::Result<Vec<String>> {
    let mut args = env::args(rt)?;
    let _program = args.next();
    let mut words = Vec::new(rt.alloc());
    for word in args {
        words.push(word)?;
    }
    Ok(words)
}
