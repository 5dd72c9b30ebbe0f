//! The program: it passes its arguments and the standard streams to `command_line`.
#![tactic(auto)]

use command_line::{Streams, run};
use std::io::IsTerminal;
use std::process::ExitCode;
use std::{env, io};

fn given(rt: &HostRuntime) -> io::Result<Vec<String>> {
    let mut words = Vec::new(rt.alloc());
    for word in env::args(rt)?.skip(1) {
        words.push(word)?;
    }
    Ok(words)
}

fn main(rt: HostRuntime) -> ExitCode {
    let words = match given(&rt) {
        Ok(words) => words,
        Err(fault) => {
            let line = match fault.kind() {
                io::ErrorKind::OutOfMemory => "out of memory",
                _ => "error: an argument is not UTF-8",
            };
            let _ = eprintln!(rt; "{line}");
            return ExitCode::from(3);
        }
    };
    let (input, err) = (rt.stdin(), rt.stderr());
    let streams = Streams {
        is_input_terminal: input.is_terminal(),
        is_err_terminal: err.is_terminal(),
        input,
        out: rt.stdout(),
        err,
    };
    ExitCode::from(run(rt.alloc(), &rt, &words, streams).status)
}
