//! What a line says: the statement that it is read into, or its fault.
ghost use Rattle.std.specs.Prelude.{◌<◌, ◌^◌, length};

use dd_blocks::{Fill, Name};
use dd_script::{Piece, Statement, statement_of};
use dd_tokens::tokens;
use std::alloc::{AllocError, Global};
use std::fmt::Write;
use std::process::Abort;

/// A name, a line, and its statement with a blank before each part of it, or the fault.
pub type Case = (&'static [u8], &'static [u8], &'static [u8]);

/// A text, for a message or a statement's words.
fn text_of(bytes: &[u8]) -> &str {
    str::from_utf8(bytes).unwrap_or("no text")
}

/// Adds a word, and a name behind a blank.
fn add_name(out: &mut String, word: &str, name: &Name) -> Result<(), AllocError> {
    write!(out, "{word} {}", text_of(name.as_bytes()))
}

fn add_two_names(
    out: &mut String,
    word: &str,
    first: &Name,
    second: &Name,
) -> Result<(), AllocError> {
    add_name(out, word, first)?;
    add_name(out, "", second)
}

fn add_piece(out: &mut String, piece: &Piece) -> Result<(), AllocError> {
    write!(out, " ({:?}", piece.mode)?;
    add_name(out, "", &piece.name)?;
    write!(out, " {:?} {:?} {:?})", piece.rows, piece.cols, piece.part)
}

fn add_task(
    out: &mut String,
    kernel: &Name,
    scalar: Option<i64>,
    pieces: &[Piece],
) -> Result<(), AllocError> {
    add_name(out, "task", kernel)?;
    if let Some(scalar) = scalar {
        write!(out, " {scalar}")?;
    }
    for piece in pieces {
        add_piece(out, piece)?;
    }
    Ok(())
}

fn add_space(out: &mut String, name: &Name, limit: u64) -> Result<(), AllocError> {
    add_name(out, "space", name)?;
    write!(out, " {limit}")
}

fn add_array(
    out: &mut String,
    name: &Name,
    sizes: &[i64; 4],
    fill: Fill,
) -> Result<(), AllocError> {
    add_name(out, "array", name)?;
    for size in sizes {
        write!(out, " {size}")?;
    }
    write!(out, " {fill:?}")
}

fn add_statement(out: &mut String, statement: &Statement) -> Result<(), AllocError> {
    match statement {
        Statement::Space { name, limit } => add_space(out, name, *limit),
        Statement::Proc { name, space } => add_two_names(out, "proc", name, space),
        Statement::PolicyIs(policy) => write!(out, "policy {policy:?}"),
        Statement::PlaceIs(rule) => write!(out, "place {rule:?}"),
        Statement::Array {
            name,
            rows,
            cols,
            brows,
            bcols,
            fill,
        } => add_array(out, name, &[*rows, *cols, *brows, *bcols], *fill),
        Statement::Same { name, old } => add_two_names(out, "same", name, old),
        Statement::Drop(name) => add_name(out, "drop", name),
        Statement::MoveTo { name, space } => add_two_names(out, "move", name, space),
        Statement::Region => write!(out, "region"),
        Statement::Task {
            kernel,
            scalar,
            pieces,
        } => add_task(out, kernel, *scalar, pieces.as_slice()),
        Statement::End => write!(out, "end"),
        Statement::Print(name) => add_name(out, "print", name),
        Statement::Sum(name) => add_name(out, "sum", name),
        Statement::Moved => write!(out, "moved"),
    }
}

/// Adds what a line of fewer than 2^32 bytes says.
fn add_said(alloc: Global, out: &mut String, line: &[u8]) -> Result<(), AllocError>
    requires { length line.now < 2 ^ 32 }
{
    let tokens = match tokens(alloc, line) {
        Ok(tokens) => tokens,
        Err(fault) => return write!(out, "{fault:?}"),
    };
    match statement_of(alloc, line, &tokens) {
        Ok(Some(statement)) => add_statement(out, &statement),
        Ok(None) => write!(out, "nothing"),
        Err(fault) => write!(out, "{fault:?}"),
    }
}

/// Fails where a line says anything else, or memory is short.
pub fn must_say(rt: &impl Abort, alloc: Global, case: &Case) {
    let (name, line, wanted) = *case;
    assert!(rt; line.len() < 1000);
    let mut out = String::new(alloc);
    let added = add_said(alloc, &mut out, line);
    assert!(rt; added.is_ok(), "{}", text_of(name));
    assert!(rt; out.as_bytes() == wanted, "{}", text_of(name));
}

pub fn must_say_all(rt: &impl Abort, alloc: Global, cases: &[Case]) {
    for case in cases {
        must_say(rt, alloc, case);
    }
}
