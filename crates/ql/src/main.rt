//! The program `ql SOURCE JOURNAL COMMAND`: it opens the files that the command needs, the source first, then the book,
//! makes the top call and ends with the exit code of its status. A line that standard error doesn't take changes no exit code.
#![tactic(auto)]

mod ends;

use ends::Input;
use ql_base::outside::{Sink, Source};
use ql_base::standard::{StdSink, StdSource};
use ql_base::sure::{SureSink, SureSource};
use ql_top::error_line::write_error_line;
use ql_top::status::{Status, code_of};
use ql_top::top::one;
use std::alloc::{AllocError, Global};
use std::env;
use std::fs::File;
use std::io::ErrorKind;
use std::process::ExitCode;

fn main(rt: HostRuntime) -> ExitCode {
    let args = match arguments(&rt) {
        Ok(args) => args,
        Err(status) => return ended_early(&rt, status),
    };
    match words_of(rt.alloc(), args.as_slice()) {
        Ok(words) => call(&rt, words.as_slice()),
        Err(_) => ended_early(&rt, Status::NoMemory),
    }
}

// The arguments. Where one of them isn't UTF-8 the words are bad.
fn arguments(rt: &HostRuntime) -> Result<Vec<String>, Status> {
    match env::args(rt) {
        Ok(args) => args.collect(rt.alloc()).map_err(|_| Status::NoMemory),
        Err(error) => match error.kind() {
            ErrorKind::OutOfMemory => Err(Status::NoMemory),
            _ => Err(Status::Words),
        },
    }
}

// The words after the name of the program.
fn words_of(alloc: Global, args: &[String]) -> Result<Vec<&str>, AllocError> {
    let mut words = Vec::new(alloc);
    for arg in args.iter().skip(1) {
        words.push(arg.as_str())?;
    }
    Ok(words)
}

// There is no call: its status is told all the same.
fn ended_early(rt: &HostRuntime, status: Status) -> ExitCode {
    let _ = write_error_line(&mut StdSink::new(rt.stderr()), status);
    ExitCode::from(code_of(&status))
}

// Opens the source that the command needs, and goes on with it.
fn call(rt: &HostRuntime, words: &[&str]) -> ExitCode {
    match ends::source_of(words) {
        Input::Standard => read_from(rt, words, &mut StdSource::new(rt.stdin())),
        Input::File(name) => match File::open(rt, name) {
            Ok(file) => read_from(rt, words, &mut StdSource::new(file)),
            Err(_) => unopened(rt, name, code_of(&Status::ReadFault)),
        },
        Input::Nothing => read_from(rt, words, &mut SureSource::new(Vec::new(rt.alloc()))),
    }
}

// Opens the book that the command needs, and goes on with it.
fn read_from<S: Source>(rt: &HostRuntime, words: &[&str], source: &mut S) -> ExitCode {
    match ends::book_of(words) {
        Input::Standard => make_call(
            rt,
            words,
            source,
            &mut StdSource::new(rt.stdin()),
            &mut SureSink::new(),
        ),
        Input::File(name) => match File::open(rt, name) {
            Ok(file) => make_call(
                rt,
                words,
                source,
                &mut StdSource::new(file),
                &mut SureSink::new(),
            ),
            Err(_) => unopened(rt, name, code_of(&Status::ReadFault)),
        },
        Input::Nothing => without_book(rt, words, source),
    }
}

// Makes the journal that the command writes, and goes on with it. A file that exists is replaced.
fn without_book<S: Source>(rt: &HostRuntime, words: &[&str], source: &mut S) -> ExitCode {
    let mut book = SureSource::new(Vec::new(rt.alloc()));
    match ends::journal_of(words) {
        // It would take the place of the source, which is then lost.
        Some(name) if ends::reads(words, name) => {
            unopened(rt, name, code_of(&Status::WriteFault))
        }
        Some(name) => match File::create(rt, name) {
            Ok(file) => make_call(rt, words, source, &mut book, &mut StdSink::new(file)),
            Err(_) => unopened(rt, name, code_of(&Status::WriteFault)),
        },
        None => make_call(rt, words, source, &mut book, &mut SureSink::new()),
    }
}

fn make_call<S: Source, B: Source, J: Sink>(
    rt: &HostRuntime,
    words: &[&str],
    source: &mut S,
    book: &mut B,
    journal: &mut J,
) -> ExitCode {
    let mut out = StdSink::new(rt.stdout());
    let mut err = StdSink::new(rt.stderr());
    let ended = one(
        rt.alloc(),
        ends::asked(words),
        source,
        book,
        &mut out,
        journal,
        &mut err,
    );
    ExitCode::from(code_of(&ended.status))
}

// There is no call: an end can't be opened.
fn unopened(rt: &HostRuntime, name: &str, code: u8) -> ExitCode {
    let _ = eprintln!(rt; "ql: cannot open {name}");
    ExitCode::from(code)
}
