//! The program `r10`: the commands over standard input, standard output and standard error.
#![tactic(auto)]

use r10_command::Fault;
use std::alloc::{AllocError, Global};
use std::io;
use std::io::BufWriter;
use std::process::ExitCode;
use std::rt::Env;

/// The words of the command line, the program's own name first.
fn words_of<R: Env + AllocGlobal>(rt: &R) -> io::Result<Vec<String>> {
    let mut words = Vec::new(rt.alloc());
    for word in std::env::args(rt)? {
        words.push(word)?;
    }
    Ok(words)
}

fn main(rt: HostRuntime) -> ExitCode {
    let alloc: Global = rt.alloc();
    let mut reader = rt.reader();
    let stderr = rt.stderr();
    let mut faults = io::writer(&stderr);
    let words = match words_of(&rt) {
        Ok(words) => words,
        Err(error) => {
            return ExitCode::from(r10_command::report(&mut faults, &Fault::of_words(error)));
        }
    };
    let Ok(mut writer) = BufWriter::new(alloc, io::writer(&rt)) else {
        return ExitCode::from(r10_command::report(&mut faults, &Fault::Memory(AllocError)));
    };
    ExitCode::from(r10_session::run(
        &rt,
        alloc,
        words.as_slice(),
        &mut reader,
        &mut writer,
        &mut faults,
    ))
}
