//! Streams that take little at a time, and fail.
use oc_io::sink::Sink;
use oc_io::stream::StreamSink;
use std::io;
use std::io::Write;
use std::test::Fail;

/// Takes a few bytes at a time, and fails once its room is used up.
#[derive(Drop)]
struct Narrow<'a> {
    bytes: &'a mut Vec<u8>,
    room: usize,
}

impl Write for Narrow<'_> {
    fn write(&mut self, bytes: &[u8]) -> io::Result<usize> {
        let count = bytes.len().min(1000).min(self.room);
        self.bytes.extend_from_slice(&bytes[..count])?;
        self.room -= count;
        Ok(count)
    }

    fn flush(&mut self) -> io::Result<()> {
        Ok(())
    }
}

#[test]
fn writes_in_order(rt: HostRuntime) -> Result<(), Fail> {
    let large = vec![in rt.alloc(); b'x'; 20000]?;
    let mut written = Vec::new(rt.alloc());
    let mut sink = StreamSink::new(Narrow {
        bytes: &mut written,
        room: 30000,
    });
    sink.put(b"first")?;
    sink.put(&large)?;
    sink.put(b"")?;
    sink.put(b"last")?;
    sink.flush()?;
    assert_eq!(rt; written.len(), 20009);
    assert!(rt; written.starts_with(b"firstx"));
    assert!(rt; written.ends_with(b"xlast"));
    Ok(())
}

#[test]
fn fails_where_the_stream_does(rt: HostRuntime) -> Result<(), Fail> {
    let mut written = Vec::new(rt.alloc());
    let mut sink = StreamSink::new(Narrow {
        bytes: &mut written,
        room: 5,
    });
    sink.put(b"in time")?;
    assert!(rt; sink.flush().is_err());
    assert!(rt; sink.flush().is_err());
    assert_eq!(rt; written.as_slice(), b"in ti".as_slice());
    Ok(())
}
