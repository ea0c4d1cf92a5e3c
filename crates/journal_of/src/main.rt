//! `journal_of` runs a script by one worker and prints what a checker of journals reads: the script, a line `!!`, and the script's
//! text with the journal's lines of each statement below it. Its slots are in memory.
#![tactic(auto)]

use dd_io::{IoFault, Sink, StdSink, StdSource, read_all, write_all};
use dd_session::{Status, run_one};
use dd_store::NeverFails;
use std::process::ExitCode;

/// In bytes, the longest script.
const LIMIT: usize = 1_048_576;

/// Writes the script and the line below it.
fn head<O: Sink>(text: &[u8], out: &mut O) -> Result<(), IoFault> {
    write_all(out, text)?;
    match text {
        [] | [.., b'\n'] => write_all(out, b"!!\n"),
        _ => write_all(out, b"\n!!\n"),
    }
}

fn main(rt: HostRuntime) -> ExitCode {
    let mut out = StdSink::new(rt.stdout());
    let status = match read_all(rt.alloc(), &mut StdSource::new(rt.stdin()), LIMIT) {
        Ok(text) => match head(&text, &mut out) {
            Ok(()) => {
                let store = NeverFails::new(rt.alloc());
                run_one(rt.alloc(), &text, true, &mut out, store).status
            }
            Err(IoFault) => Status::WriteFault,
        },
        Err(_) => Status::ReadFault,
    };
    ExitCode::from(status.exit_code())
}
