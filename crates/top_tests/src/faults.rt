//! Fetches that fail, and outputs that take no more.
use crate::calls::{Called, Faults, call, no_faults, own_supplies};
use std::alloc::Global;
use std::test::Fail;

const REPORT: &str = "1 sense t 21\n4 emit r 21\n5 end\n";

/// A run of the sample.
fn run_with(alloc: Global, faults: Faults) -> Result<Called, Fail> {
    call(alloc, "run s h p", own_supplies(alloc)?, faults)
}

#[test]
fn each_fetch_fails(rt: HostRuntime) -> Result<(), Fail> {
    let lines = [
        "ocelot: cannot read s\n",
        "ocelot: cannot read h\n",
        "ocelot: cannot read p\n",
    ];
    for (number, line) in (0u64..).zip(lines) {
        let mut faults = no_faults(rt.alloc());
        faults.fetches.push(number)?;
        let called = run_with(rt.alloc(), faults)?;
        assert_eq!(rt; called.out.as_slice(), b"".as_slice());
        assert_eq!(rt; called.err.as_slice(), line.as_bytes());
        assert_eq!(rt; called.status, 2);
    }
    Ok(())
}

/// A call whose output fails at this put after so many bytes.
fn call_with_fault(alloc: Global, put: u64, taken: usize) -> Result<Called, Fail> {
    let mut faults = no_faults(alloc);
    faults.puts.push((put, taken))?;
    run_with(alloc, faults)
}

/// Whether a call wrote the whole report, or a front part of it and the line of a fault.
fn is_front(called: &Called) -> bool {
    let out = called.out.as_slice();
    let err = called.err.as_slice();
    match called.status {
        0 => out == REPORT.as_bytes() && err.is_empty(),
        10 => REPORT.as_bytes().starts_with(out) && err == b"ocelot: cannot write\n".as_slice(),
        _ => false,
    }
}

#[test]
fn each_put_fails(rt: HostRuntime) -> Result<(), Fail> {
    for put in 0..60 {
        let none = call_with_fault(rt.alloc(), put, 0)?;
        let one = call_with_fault(rt.alloc(), put, 1)?;
        assert!(rt; is_front(&none));
        assert!(rt; is_front(&one));
        assert_eq!(rt; none.status, one.status);
    }
    let first = call_with_fault(rt.alloc(), 0, 1)?;
    assert_eq!(rt; first.out.as_slice(), b"1".as_slice());
    let after = call_with_fault(rt.alloc(), 60, 0)?;
    assert_eq!(rt; after.status, 0);
    Ok(())
}

#[test]
fn each_line_fails(rt: HostRuntime) -> Result<(), Fail> {
    for (line, status) in [("run q h p", 2), ("help", 1), ("build --image h", 4)] {
        let mut faults = no_faults(rt.alloc());
        faults.lines.push((0, 0))?;
        let called = call(rt.alloc(), line, own_supplies(rt.alloc())?, faults)?;
        assert_eq!(rt; called.out.as_slice(), b"".as_slice());
        assert_eq!(rt; called.err.as_slice(), b"".as_slice());
        assert_eq!(rt; called.status, status);
    }
    Ok(())
}

#[test]
fn each_supply_is_of_its_caller(rt: HostRuntime) -> Result<(), Fail> {
    let alloc = rt.alloc();
    let pieces = "1 sense t 21\n2 off 0\n4 off 0\n6 off 0\n6 dark\n";
    for (line, out, status) in [
        ("run s h p", REPORT, 0),
        ("run --supply 1 s h p", REPORT, 0),
        ("run --supply 2 s h p", pieces, 9),
    ] {
        let called = call(alloc, line, own_supplies(alloc)?, no_faults(alloc))?;
        assert_eq!(rt; called.out.as_slice(), out.as_bytes());
        assert_eq!(rt; called.status, status);
        let called = call(alloc, line, Vec::new(alloc), no_faults(alloc))?;
        assert_eq!(rt; called.out.as_slice(), b"".as_slice());
        assert_eq!(rt;
            called.err.as_slice(),
            b"ocelot: not a command\n".as_slice()
        );
        assert_eq!(rt; called.status, 1);
    }
    Ok(())
}
