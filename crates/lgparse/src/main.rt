//! The program: the real files and streams under the top call.
#![tactic(auto)]

use lg_base::{HostFiles, HostSink, Sink};
use lg_run::{Status, run};
use lg_session::FreeGate;
use std::io::ErrorKind;
use std::process::ExitCode;
use std::{env, io};

// The exit status where the system does not give the words of the command line.
const NO_WORDS: u8 = 6;

// What `run` writes, too, where memory runs out.
const OUT_OF_MEMORY: &[u8] = b"lgparse: out of memory\n";

// The words of the command line, without the program's name.
fn words(rt: &HostRuntime) -> io::Result<Vec<String>> {
    let mut words = env::args(rt)?;
    let _program = words.next();
    Ok(words.collect(rt.alloc())?)
}

fn main(rt: HostRuntime) -> ExitCode {
    let words = match words(&rt) {
        Ok(words) => words,
        Err(error) if error.kind() == ErrorKind::OutOfMemory => {
            // if this line cannot be written, the status alone tells it
            let _ = HostSink::errors(&rt).put(OUT_OF_MEMORY);
            return ExitCode::from(Status::NoMemory.code());
        }
        Err(_) => return ExitCode::from(NO_WORDS),
    };
    let mut files = HostFiles::new(&rt, rt.alloc());
    let mut out = HostSink::output(&rt);
    let mut err = HostSink::errors(&rt);
    let status = run(
        &rt,
        rt.alloc(),
        &words,
        &mut files,
        &mut out,
        &mut err,
        &FreeGate,
    );
    ExitCode::from(status.code())
}
