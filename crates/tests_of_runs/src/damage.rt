//! Scripts that were cut off or damaged: each is run, or refused by one line with nothing written.
use crate::every_statement::SCRIPT;
use crate::memory_runs::{PLAIN, run_over};
use dd_session::Status;
use std::alloc::{AllocError, Global};
use std::process::Abort;
use std::test::Fail;

/// What stands in place of each byte in turn.
const MARKS: [u8; 9] = *b"#[](),:-\n";

const OTHERS: [u8; 7] = *b"09A_~ \x01";

#[test]
fn the_script_is_run(rt: HostRuntime) -> Result<(), Fail> {
    let run = run_over(rt.alloc(), &["run"], SCRIPT, &PLAIN)?;
    assert_eq!(rt; run.status, Status::Done);
    Ok(())
}

#[test]
fn every_front_is_run_or_refused(rt: HostRuntime) -> Result<(), Fail> {
    for end in 0..SCRIPT.len() {
        check_run_or_refused(&rt, rt.alloc(), &SCRIPT[..end])?;
    }
    Ok(())
}

#[test]
fn every_byte_becomes_a_mark(rt: HostRuntime) -> Result<(), Fail> {
    for mark in MARKS {
        check_damaged(&rt, rt.alloc(), mark)?;
    }
    Ok(())
}

#[test]
fn every_byte_becomes_another(rt: HostRuntime) -> Result<(), Fail> {
    for byte in OTHERS {
        check_damaged(&rt, rt.alloc(), byte)?;
    }
    Ok(())
}

/// Runs the script with each of its bytes in turn replaced.
fn check_damaged(rt: &impl Abort, alloc: Global, byte: u8) -> Result<(), AllocError> {
    for at in 0..SCRIPT.len() {
        let mut text = Vec::from_slice(alloc, &SCRIPT[..at])?;
        text.push(byte)?;
        text.extend_from_slice(&SCRIPT[at + 1..])?;
        check_run_or_refused(rt, alloc, &text)?;
    }
    Ok(())
}

fn check_run_or_refused(rt: &impl Abort, alloc: Global, text: &[u8]) -> Result<(), AllocError> {
    let run = run_over(alloc, &["run"], text, &PLAIN)?;
    let exit = run.status.exit_code();
    assert!(rt;
        exit == 0 && run.err.is_empty() || exit == 3 && run.out.is_empty() && is_refusal(&run.err)
    );
    Ok(())
}

/// Whether the text is one line `ddeps: line L: KIND A B`.
fn is_refusal(text: &[u8]) -> bool {
    match text {
        [front @ .., b'\n'] => has_form(front),
        _ => false,
    }
}

fn has_form(line: &[u8]) -> bool {
    let mut words = line.split(|byte| *byte == b' ');
    words.next() == Some(b"ddeps:".as_slice())
        && words.next() == Some(b"line".as_slice())
        && words.next().is_some_and(is_line_number)
        && words.next().is_some_and(is_name)
        && words.next().is_some_and(is_number)
        && words.next().is_some_and(is_number)
        && words.next().is_none()
}

fn is_line_number(word: &[u8]) -> bool {
    match word {
        [digits @ .., b':'] => is_number(digits),
        _ => false,
    }
}

fn is_number(word: &[u8]) -> bool {
    !word.is_empty() && word.iter().all(u8::is_ascii_digit)
}

fn is_name(word: &[u8]) -> bool {
    !word.is_empty() && word.iter().all(u8::is_ascii_alphabetic)
}
