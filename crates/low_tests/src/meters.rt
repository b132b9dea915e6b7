//! Meters around a sink that fails, and of lines that are no items.
use oc_io::memory_sink::MemorySink;
use oc_io::sink::Sink;
use oc_meters::book::Book;
use oc_meters::kinds::{Counts, OffTime, Retries};
use oc_meters::meter::Meter;
use oc_meters::sink::MeterSink;
use oc_meters::text::put_meters;
use oc_tree::name::{Name, Names};
use std::alloc::{AllocError, Global};
use std::test::Fail;

/// A list of this one name.
fn named(alloc: Global, name: &[u8]) -> Result<Vec<Name>, AllocError> {
    let mut names = Vec::new(alloc);
    names.push(Name::new(Vec::from_slice(alloc, name)?))?;
    Ok(names)
}

/// The names of a sensor `t`, a port `r` and a nonvolatile variable `n`.
fn sample_names(alloc: Global) -> Result<Names, AllocError> {
    let sensors = named(alloc, b"t")?;
    let ports = named(alloc, b"r")?;
    let nvs = named(alloc, b"n")?;
    Ok(Names {
        sensors,
        ports,
        nvs,
    })
}

/// The lines of all three meters after these pieces, of which the put with this number fails.
fn lines_after(
    rt: &HostRuntime,
    pieces: &[&[u8]],
    fails: Vec<(u64, usize)>,
) -> Result<MemorySink, Fail> {
    let alloc = rt.alloc();
    let names = sample_names(alloc)?;
    let mut meters: Vec<Box<dyn Meter>> = Vec::new(alloc);
    meters.push(Box::new(alloc, Counts::new())?)?;
    meters.push(Box::new(alloc, OffTime::new())?)?;
    meters.push(Box::new(alloc, Retries::new())?)?;
    let Ok(mut book) = Book::new(alloc, names, meters) else {
        return Err(Fail::from("no memory"));
    };
    let mut out = MemorySink::new(alloc, 1000, fails)?;
    let mut sink = MeterSink::new(&mut out, &mut book);
    for piece in pieces {
        // Where it fails, the pieces behind it are put all the same.
        let _ = sink.put(piece);
    }
    let mut err = MemorySink::new(alloc, 1000, Vec::new(alloc))?;
    put_meters(book.meters(), &mut err)?;
    Ok(err)
}

#[test]
fn meters_are_told_of_items(rt: HostRuntime) -> Result<(), Fail> {
    let report: [&[u8]; 3] = [
        b"5 enter 1\n6 sense t 21\n8 use 3\n9 ab",
        b"ort 1\n9 off 100\n05 off 1\n6 sense u 1\n7 off 1 \n8 emit r -0\n\n9 off\n",
        b"122 end\nnv n 1 2 3 4 5 6 7 8 9 10 11 12 13 14 15 16 17 18 19 20\n",
    ];
    let err = lines_after(&rt, &report, Vec::new(rt.alloc()))?;
    assert_eq!(rt;
        err.bytes(),
        b"meter counts 1 0 0 1 1\nmeter off 100 100\nmeter retries 1 1\n".as_slice()
    );
    Ok(())
}

#[test]
fn nothing_is_told_from_a_fault_on(rt: HostRuntime) -> Result<(), Fail> {
    let pieces: [&[u8]; 3] = [b"1 abort 1\n", b"2 abort 1\n", b"3 abort 1\n"];
    let mut fails = Vec::new(rt.alloc());
    fails.push((1, 10))?;
    let err = lines_after(&rt, &pieces, fails)?;
    assert_eq!(rt;
        err.bytes(),
        b"meter counts 0 0 0 1 0\nmeter off 0 0\nmeter retries 1 1\n".as_slice()
    );
    Ok(())
}
