//! `ddeps` runs numeric programs over blocked arrays.
//!
//! It passes the words of its command line and the real standard streams to `run_words`, whose contract
//! says what is read and written, and ends with the exit status of the outcome.
#![tactic(auto)]

use dd_io::{StdSink, StdSource};
use dd_session::{CommandWords, Status, report, run_words};
use dd_store::DirStore;
use std::alloc::AllocError;
use std::env::{Env, FillError};
use std::process::ExitCode;

/// In bytes, the longest word that is looked at. No command is longer.
const WORD_LIMIT: usize = 256;

/// The words after the program's name, whatever that is. Where one of them is not UTF-8, or longer than any command,
/// there are none, and no command is so.
fn command_words(rt: &HostRuntime) -> Result<CommandWords, AllocError> {
    let mut words = CommandWords::new(rt.alloc());
    for i in 1..usize::MAX {
        let mut room = [0; WORD_LIMIT];
        match rt.arg(i, &mut room) {
            Ok(count) => match str::from_utf8(&room[..count]) {
                Ok(word) => words.push(word)?,
                Err(_) => return Ok(CommandWords::new(rt.alloc())),
            },
            Err(FillError::TooLong) => return Ok(CommandWords::new(rt.alloc())),
            Err(FillError::NotPresent) => break,
        }
    }
    Ok(words)
}

/// The folder of spilled blocks, where the program runs.
const SPILL_FOLDER: &str = "ddeps-spill";

/// Runs the command of the command line over a folder of slots.
fn run(rt: &HostRuntime) -> Result<Status, AllocError> {
    let words = command_words(rt)?;
    let store = DirStore::new(rt, rt.alloc(), SPILL_FOLDER)?;
    let mut src = StdSource::new(rt.stdin());
    let mut out = StdSink::new(rt.stdout());
    let mut err = StdSink::new(rt.stderr());
    Ok(run_words(rt.alloc(), &words, &mut src, &mut out, &mut err, store).status)
}

fn main(rt: HostRuntime) -> ExitCode {
    let status = match run(&rt) {
        Ok(status) => status,
        Err(AllocError) => {
            let mut err = StdSink::new(rt.stderr());
            let _ = report(Status::Memory, &mut err);
            Status::Memory
        }
    };
    ExitCode::from(status.exit_code())
}
