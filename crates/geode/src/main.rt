//! The program: it connects `geode_tool::call` to the command line, standard input, the file that the words name and
//! standard output.
//!
//! The line of a fault, and below it what people may want to know of that fault, go to standard error; the
//! fault's status is the exit status. What a command reads and writes is the contract of `geode_tool::call`.
#![tactic(auto)]

mod help;

use geode_tool::{Done, Fault, UsageKind, Wanted, call, exit_status, places_of};
use help::help_for;
use page_sources::FilePages;
use span_io::{StdSink, StdSource};
use std::alloc::AllocError;
use std::fs::File;
use std::io::{Error, ErrorKind};
use std::process::ExitCode;
use std::{env, fs};

/// A page source of the file that the words name.
type FileSource = FilePages<File>;

fn main(rt: HostRuntime) -> ExitCode {
    let answer = run(&rt);
    if let Err(fault) = &answer {
        show(&rt, fault);
    }
    ExitCode::from(exit_status(&answer))
}

/// Does what the command line asks for.
fn run(rt: &HostRuntime) -> Result<Done, Fault> {
    let args = args_of(rt)?;
    let wanted = places_of(rt.alloc(), &args)?;
    let mut sources = sources_of(rt, &wanted).map_err(|_| Fault::Memory)?;
    let mut input = StdSource::of(rt.stdin());
    let mut out = StdSink::of(rt.stdout());
    call(rt.alloc(), &args, &mut input, &mut sources, &mut out)
}

/// Returns as many page sources of the file as the command needs.
fn sources_of(rt: &HostRuntime, wanted: &Wanted) -> Result<Vec<FileSource>, AllocError> {
    let mut sources = Vec::new(rt.alloc());
    if let Some(file) = &wanted.file {
        for _ in 0..wanted.count {
            sources.push(source_of(rt, file))?;
        }
    }
    Ok(sources)
}

/// Opens the file and returns a page source of it. If it cannot be opened, each read of the source fails.
fn source_of(rt: &HostRuntime, file: &str) -> FileSource {
    FilePages::of(fs::open(rt, file).ok())
}

/// Returns the program's arguments, its name first. Arguments that are not UTF-8 are no command.
fn args_of(rt: &HostRuntime) -> Result<Vec<String>, Fault> {
    let mut args = Vec::new(rt.alloc());
    for arg in env::args(rt).map_err(args_fault)? {
        args.push(arg).map_err(|_| Fault::Memory)?;
    }
    Ok(args)
}

/// Returns the fault for an error of reading the arguments: they are not UTF-8, or memory ran out.
fn args_fault(error: Error) -> Fault {
    match error.kind() {
        ErrorKind::InvalidData => Fault::Usage(UsageKind::Line),
        _ => Fault::Memory,
    }
}

/// Prints the line of a fault, and its help.
fn show(rt: &HostRuntime, fault: &Fault) {
    let _ = eprintln!(rt; "geode: {fault}");
    let help = help_for(fault);
    if !help.is_empty() {
        let _ = eprintln!(rt; "{help}");
    }
}
