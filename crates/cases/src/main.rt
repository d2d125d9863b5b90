#![tactic(auto)]

//! A program that runs rows: each line of a file says what a public call answers for texts (docs/CONTRIBUTING.md,
//! Rows).
//! - May touch: files of rows, and every crate but the program. It promises nothing: a row costs the gate no proof.
//! - Contract: none. `cases FILE ..` prints how many rows each file has, and each whose answer is another; status 0.
//! - Begin at: `answers.rt`, which says what each call is; then the file of that call. `args` names the files.
//!
//! `cases --row FILE NUMBER` makes the call of one row alone, the NUMBERth of the file, counted from 1 (lines that are empty or begin with
//! `#` are no rows), and prints the answer that it found, as it is, and nothing else: status 0 where it is the wanted one, 1 where it is
//! another. A call that was refused memory has no other answer than `out of memory`, status 2, and so has this program where it was refused
//! memory itself, for its words, the file or the row. So whoever refuses its growths one by one sees the wanted answer with status 0, or
//! `out of memory` with status 2. Where there is no such row or no such file, nothing stands on standard output; status 1.

mod answers;
mod case;
mod cursors;
mod devices;
mod embedded;
mod finished;
mod formatted;
mod gauge;
mod heights;
mod kept;
mod kinds;
mod lexemes;
mod mended;
mod node_rule_rows;
mod nodes;
mod parsed;
mod placed;
mod plans;
mod print;
mod printing;
mod ranks;
mod reference_rule_rows;
mod refusals;
mod reports;
mod rule_alone_rows;
mod runs;
mod seen;
mod sketch;
mod words;

use answers::answer;
use case::{Case, is_case};
use std::alloc::{AllocError, Global};
use std::process::ExitCode;
use std::rt::{Env, Files};
use std::{env, fs, io};

/// A row whose answer is another than the one that is wanted, with that answer.
fn push_other(line: &str, row: &Case, found: &str, report: &mut String) -> Result<(), AllocError> {
    if found == row.want() {
        return Ok(());
    }
    write!(report, "{line}\n  is {found:?}\n")
}

/// Adds to the report the row of a line, if its answer is another.
fn push_row(alloc: Global, line: &str, report: &mut String) -> Result<(), AllocError> {
    let row = Case::of(alloc, line)?;
    let found = answer(alloc, &row)?;
    push_other(line, &row, &found, report)
}

/// How many rows a file's text has; those whose answer is another go into the report.
fn push_rows(alloc: Global, text: &str, report: &mut String) -> Result<u32, AllocError> {
    let mut count = 0u32;
    for line in text.lines() {
        if is_case(line) {
            push_row(alloc, line, report)?;
            count = count.saturating_add(1);
        }
    }
    Ok(count)
}

/// Prints the report of a file.
fn show_file(rt: &(impl Files + Print + AllocGlobal), path: &str) -> io::Result<()> {
    let text = fs::read_to_string(rt, path)?;
    let mut report = String::new(rt.alloc());
    let count = push_rows(rt.alloc(), text.as_str(), &mut report)?;
    println!(rt; "{}{path}: {count} rows", report.as_str())
}

/// Runs the rows of each file.
fn show_files(rt: &(impl Files + Print + AllocGlobal), paths: &[String]) -> io::Result<u8> {
    for path in paths {
        show_file(rt, path.as_str())?;
    }
    Ok(0)
}

/// The line of a row by its number, from 1.
fn line_of<'t>(text: &'t str, number: &str) -> Option<&'t str> {
    let behind = number.parse::<usize>().ok()?.checked_sub(1)?;
    text.lines().filter(|line| is_case(line)).nth(behind)
}

/// Prints what a row's call answers, and gives the exit status.
fn show_answer(rt: &(impl Print + AllocGlobal), row: &Case) -> io::Result<u8> {
    let found = answer(rt.alloc(), row)?;
    rt.print(found.as_str())?;
    Ok(u8::from(found.as_str() != row.want()))
}

/// Prints the answer of a line's row.
fn show_line(rt: &(impl Print + AllocGlobal), line: &str) -> io::Result<u8> {
    let row = Case::of(rt.alloc(), line)?;
    show_answer(rt, &row)
}

/// Prints the answer of the row with this number in a file.
fn show_row(rt: &(impl Files + Print + AllocGlobal), path: &str, number: &str) -> io::Result<u8> {
    let text = fs::read_to_string(rt, path)?;
    match line_of(text.as_str(), number) {
        Some(line) => show_line(rt, line),
        None => Ok(1),
    }
}

/// Does what the words ask for, and gives the exit status.
fn obey(rt: &(impl Env + Files + Print + AllocGlobal)) -> io::Result<u8> {
    let words: Vec<String> = env::args(rt)?.collect(rt.alloc())?;
    match (words.get(1), words.get(2), words.get(3)) {
        (Some(word), Some(path), Some(number)) if word.as_str() == "--row" => {
            show_row(rt, path.as_str(), number.as_str())
        }
        _ => show_files(rt, words.get(1..).unwrap_or(&[])),
    }
}

/// Says why there is no answer, and gives the exit status.
fn refuse(rt: &(impl Print + Eprint), error: io::Error) -> io::Result<u8> {
    if error.kind() == io::ErrorKind::OutOfMemory {
        rt.print("out of memory")?;
        return Ok(2);
    }
    rt.eprintln(error)?;
    Ok(1)
}

/// Runs the rows that the arguments name.
fn main(rt: HostRuntime) -> ExitCode {
    let answered = match obey(&rt) {
        Ok(status) => Ok(status),
        Err(error) => refuse(&rt, error),
    };
    ExitCode::from(answered.unwrap_or(1))
}
