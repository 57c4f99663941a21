//! Rows of sources and sinks over memory, in pieces, with failing calls, and at the limit.
use nm_io::{
    Failed, MOST_BYTES, MemSink, MemSource, ReadRefusal, Sink, Source, WriteFault, read_all,
    write_all,
};
use std::test::Fail;

const TEXT: &[u8; 37] = b"cpu 0\nload 0.0 0\ntier 0 free 3 of 4\n\n";

#[test]
fn reads_past_no_failing_call(rt: HostRuntime) -> Result<(), Fail> {
    for call in 1..=38 {
        let mut source = MemSource::new(rt.alloc(), TEXT, 1, &[call])?;
        let refused = read_all(rt.alloc(), &mut source);
        assert!(rt;
            refused.err() == Some(ReadRefusal::ReadFault),
            "call {call}"
        );
        let rest = read_all(rt.alloc(), &mut source)?;
        assert!(rt;
            rest.len() as u64 == 38 - call && TEXT.ends_with(&rest),
            "call {call}"
        );
    }
    Ok(())
}

#[test]
fn reads_not_after_the_end(rt: HostRuntime) -> Result<(), Fail> {
    for (piece, calls) in [(1, 39), (16, 5), (36, 4), (37, 3), (1_000, 3)] {
        let mut source = MemSource::new(rt.alloc(), TEXT, piece, &[calls])?;
        let bytes = read_all(rt.alloc(), &mut source)?;
        let is_whole = bytes.as_slice() == TEXT.as_slice();
        let is_late = source.read(&mut [0; 4]) == Err(Failed);
        let is_end = source.read(&mut [0; 4]) == Ok(0);
        assert!(rt; is_whole && is_late && is_end, "piece {piece}");
    }
    Ok(())
}

/// Writes of `TEXT`: the room of the sink, its pieces, the call that fails, and how many bytes are held then.
const WRITES: [(usize, u32, u64, usize); 10] = [
    (37, 16, 1, 0),
    (37, 16, 3, 32),
    (37, 16, 4, 37),
    (37, 1, 1, 0),
    (37, 1, 20, 19),
    (37, 1, 37, 36),
    (37, 1, 38, 37),
    (20, 16, 9, 20),
    (0, 16, 9, 0),
    (1_000, 1_000, 9, 37),
];

#[test]
fn writes_up_to_the_failing_call(rt: HostRuntime) -> Result<(), Fail> {
    for (room, piece, call, held) in WRITES {
        assert!(rt; piece >= 1);
        let mut sink = MemSink::new(rt.alloc(), room, piece, &[call])?;
        let is_written = write_all(&mut sink, TEXT).is_ok();
        assert!(rt; is_written == (held == 37));
        assert!(rt; sink.bytes().len() == held && TEXT.starts_with(sink.bytes()));
    }
    let mut full = MemSink::new(rt.alloc(), 0, 1, &[2])?;
    assert!(rt; write_all(&mut full, b"").is_ok());
    assert!(rt; write_all(&mut full, b"x") == Err(WriteFault));
    Ok(())
}

#[test]
fn reads_no_more_than_the_limit(rt: HostRuntime) -> Result<(), Fail> {
    let mut text = Vec::from_elem(rt.alloc(), b'x', MOST_BYTES)?;
    let mut source = MemSource::new(rt.alloc(), &text, u32::MAX, &[])?;
    let bytes = read_all(rt.alloc(), &mut source)?;
    assert!(rt; bytes == text);

    text.push(b'y')?;
    let mut source = MemSource::new(rt.alloc(), &text, 1 << 20, &[])?;
    let refused = read_all(rt.alloc(), &mut source);
    assert!(rt; refused.err() == Some(ReadRefusal::TooLong));
    Ok(())
}
