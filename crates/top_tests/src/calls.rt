//! Calls of the program over files and outputs in memory.
use oc_io::memory_shelf::MemoryShelf;
use oc_io::memory_sink::MemorySink;
use oc_meters::kinds::{Counts, OffTime, Retries};
use oc_meters::meter::Meter;
use oc_power::cutter::Cutter;
use oc_power::looped::Looped;
use oc_power::recorded::Recorded;
use oc_power::supply::Supply;
use oc_top::top::ocelot;
use std::alloc::{AllocError, Global};
use std::test::Fail;

/// Takes a sample and emits it.
const SAMPLE: &str = "sensor t; port r; fn main() { let x = sense(t); emit(r, x); }";

/// Which fetches of the shelf fail, and which calls of both outputs after how many bytes.
#[derive(Drop)]
pub struct Faults {
    pub fetches: Vec<u64>,
    pub puts: Vec<(u64, usize)>,
    pub lines: Vec<(u64, usize)>,
}

/// No fault at all.
pub fn no_faults(alloc: Global) -> Faults {
    Faults {
        fetches: Vec::new(alloc),
        puts: Vec::new(alloc),
        lines: Vec::new(alloc),
    }
}

/// What came of a call.
#[derive(Drop)]
pub struct Called {
    pub status: u8,
    pub out: Vec<u8>,
    pub err: Vec<u8>,
}

/// The words of a line.
fn words_of(alloc: Global, line: &str) -> Result<Vec<String>, AllocError> {
    let mut words = Vec::new(alloc);
    for word in line.split(' ') {
        words.push(String::from_str(alloc, word)?)?;
    }
    Ok(words)
}

/// The files `s`, `h` and `p`: a program, what its sensor shows, and six steps of power.
fn sample_files(alloc: Global) -> Result<Vec<(String, Vec<u8>)>, AllocError> {
    let mut files = Vec::new(alloc);
    for (name, text) in [
        ("s", SAMPLE),
        ("h", "time,sensor,value\n0,t,21\n"),
        ("p", "on,off\n6,0\n"),
    ] {
        let bytes = Vec::from_slice(alloc, text.as_bytes())?;
        files.push((String::from_str(alloc, name)?, bytes))?;
    }
    Ok(files)
}

/// Supplies of one's own: the rows, two rounds of them, and pieces of two steps.
pub fn own_supplies(alloc: Global) -> Result<Vec<Box<dyn Supply>>, AllocError> {
    let mut supplies: Vec<Box<dyn Supply>> = Vec::new(alloc);
    supplies.push(Box::new(alloc, Recorded::new(alloc))?)?;
    supplies.push(Box::new(alloc, Looped::new(alloc, 2))?)?;
    supplies.push(Box::new(alloc, Cutter::new(alloc, 2))?)?;
    Ok(supplies)
}

/// All three kinds of meters.
fn meters(alloc: Global) -> Result<Vec<Box<dyn Meter>>, AllocError> {
    let mut meters: Vec<Box<dyn Meter>> = Vec::new(alloc);
    meters.push(Box::new(alloc, Counts::new())?)?;
    meters.push(Box::new(alloc, OffTime::new())?)?;
    meters.push(Box::new(alloc, Retries::new())?)?;
    Ok(meters)
}

/// Calls the program with the words of a line over the sample's files, with these supplies.
pub fn call(
    alloc: Global,
    line: &str,
    supplies: Vec<Box<dyn Supply>>,
    faults: Faults,
) -> Result<Called, Fail> {
    let words = words_of(alloc, line)?;
    let mut shelf = MemoryShelf::new(sample_files(alloc)?, faults.fetches);
    let mut out = MemorySink::new(alloc, 1000, faults.puts)?;
    let mut err = MemorySink::new(alloc, 1000, faults.lines)?;
    let meters = meters(alloc)?;
    let status = ocelot(
        alloc, &words, &mut shelf, &mut out, &mut err, supplies, meters,
    );
    let out = Vec::from_slice(alloc, out.bytes())?;
    let err = Vec::from_slice(alloc, err.bytes())?;
    Ok(Called { status, out, err })
}
