//! The program: the real outside, and the top call.
#![tactic(auto)]

use oc_io::disk::DiskShelf;
use oc_io::stream::StreamSink;
use oc_top::standard::ocelot_with_standard;
use std::alloc::{AllocError, Global};
use std::env::FillError;
use std::io::ErrorKind;
use std::process::ExitCode;
use std::rt::Env;
use std::{env, io};

/// The status where there is no memory.
const OUT_OF_MEMORY: u8 = 11;

/// The status where the words are no command.
const NOT_A_COMMAND: u8 = 1;

/// The arguments after the program's own name, which need not be text.
#[derive(Drop)]
struct AfterName<'a, R> {
    rt: &'a R,
}

impl<'a, R: Env> Env for AfterName<'a, R> {
    fn arg(&self, i: usize, buf: &mut [u8]) -> Result<usize, FillError> {
        self.rt.arg(i.saturating_add(1), buf)
    }

    fn var(&self, name: &str, buf: &mut [u8]) -> Result<usize, FillError> {
        self.rt.var(name, buf)
    }

    fn var_at(&self, i: usize, buf: &mut [u8]) -> Result<usize, FillError> {
        self.rt.var_at(i, buf)
    }
}

/// The words after the program's name.
fn words(rt: &HostRuntime) -> io::Result<Vec<String>> {
    let mut words = Vec::new(rt.alloc());
    for word in env::args(&(AfterName { rt }, rt.alloc()))? {
        words.push(word)?;
    }
    Ok(words)
}

/// Obeys the words, over the files of the disk and the standard streams.
fn run(rt: &HostRuntime, words: &[String]) -> Result<u8, AllocError> {
    let alloc: Global = rt.alloc();
    let mut shelf = DiskShelf::new(rt);
    let stderr = rt.stderr();
    let mut out = StreamSink::new(io::writer(rt));
    let mut err = StreamSink::new(io::writer(&stderr));
    ocelot_with_standard(alloc, words, &mut shelf, &mut out, &mut err)
}

/// Does what the words of the command line ask for. Its exit status is that of the answer; words
/// that aren't text are no command.
fn main(rt: HostRuntime) -> ExitCode {
    let status = match words(&rt) {
        Ok(words) => run(&rt, words.as_slice()).unwrap_or(OUT_OF_MEMORY),
        Err(error) => match error.kind() {
            ErrorKind::OutOfMemory => OUT_OF_MEMORY,
            _ => NOT_A_COMMAND,
        },
    };
    ExitCode::from(status)
}
