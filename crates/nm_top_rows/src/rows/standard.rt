//! Rows of std's readers and writers as a source and a sink, where one call fails and later ones go on.
use nm_io::{
    Failed, Gate, Open, ReadRefusal, Sink, Source, StdSink, StdSource, WriteFault, read_all,
    write_all,
};
use std::io;
use std::io::{ErrorKind, Read, Write};
use std::test::Fail;

/// A reader that gives a byte at a time, this many of them, and a writer that takes five bytes at a time. The one call with
/// this number, from 1, fails; a write takes nothing there, if that is set.
#[derive(Drop)]
struct FailsOnce {
    left: u8,
    calls: u32,
    fails: u32,
    takes_nothing: bool,
}

impl FailsOnce {
    fn at(fails: u32, takes_nothing: bool) -> FailsOnce {
        FailsOnce {
            left: 5,
            calls: 0,
            fails,
            takes_nothing,
        }
    }
}

impl Read for FailsOnce {
    fn read(&mut self, buf: &mut [u8]) -> io::Result<usize> {
        self.calls = self.calls.saturating_add(1);
        if self.calls == self.fails {
            return Err(io::Error::from(ErrorKind::Interrupted));
        }
        if self.left == 0 || buf.is_empty() {
            return Ok(0);
        }
        buf[0] = self.left;
        self.left -= 1;
        Ok(1)
    }
}

impl Write for FailsOnce {
    fn write(&mut self, buf: &[u8]) -> io::Result<usize> {
        self.calls = self.calls.saturating_add(1);
        if self.calls != self.fails {
            return Ok(buf.len().min(5));
        }
        if self.takes_nothing {
            return Ok(0);
        }
        Err(io::Error::from(ErrorKind::BrokenPipe))
    }

    fn flush(&mut self) -> io::Result<()> {
        Ok(())
    }
}

#[test]
fn reads_a_reader(rt: HostRuntime) -> Result<(), Fail> {
    let text: &[u8] = b"cpu 0\nload 0.0 0\n";
    let mut source = StdSource::new(text);
    assert!(rt; read_all(rt.alloc(), &mut source)?.as_slice() == text);

    for (fails, rest) in [
        (1, b"\x05\x04\x03\x02\x01".as_slice()),
        (4, b"\x02\x01"),
        (6, b""),
    ] {
        let mut source = StdSource::new(FailsOnce::at(fails, false));
        let refused = read_all(rt.alloc(), &mut source);
        let left = read_all(rt.alloc(), &mut source)?;
        assert!(rt; refused.err() == Some(ReadRefusal::ReadFault) && left.as_slice() == rest);
    }
    // No read is made after the one that gave none.
    let mut source = StdSource::new(FailsOnce::at(7, false));
    assert!(rt; read_all(rt.alloc(), &mut source)?.len() == 5);
    assert!(rt; source.read(&mut [0; 4]) == Err(Failed));
    Ok(())
}

#[test]
fn writes_a_writer(rt: HostRuntime) -> Result<(), Fail> {
    let mut out = Vec::new(rt.alloc());
    let mut sink = StdSink::new(&mut out);
    assert!(rt; write_all(&mut sink, b"cpu 0\n").is_ok());
    assert!(rt; out.as_slice() == b"cpu 0\n".as_slice());

    for takes_nothing in [false, true] {
        let mut sink = StdSink::new(FailsOnce::at(2, takes_nothing));
        assert!(rt; sink.write(b"cpu 0\n") == Ok(5));
        assert!(rt; sink.write(b"cpu 0\n") == Err(Failed));
        assert!(rt; sink.write(b"cpu") == Ok(3));
        assert!(rt; sink.write(b"") == Ok(0));
        let mut sink = StdSink::new(FailsOnce::at(2, takes_nothing));
        assert!(rt; write_all(&mut sink, b"cpu 0\n") == Err(WriteFault));
    }
    Ok(())
}

#[test]
fn passes_the_gate_and_names_refusals(rt: HostRuntime) -> Result<(), Fail> {
    Open.pass(17);
    for (refusal, name) in [
        (ReadRefusal::ReadFault, "ReadFault"),
        (ReadRefusal::TooLong, "TooLong"),
        (ReadRefusal::Memory, "Memory"),
    ] {
        assert!(rt; refusal.to_string(rt.alloc())?.as_str() == name);
    }
    Ok(())
}
