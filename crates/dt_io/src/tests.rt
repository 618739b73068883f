//! Sources and sinks at work: pieces, calls that fail, limits, and room.

use crate::{
    Failed, MemSink, MemSource, ReadEnd, Sink, Source, StdSink, StdSource, read_all, write_all,
};
use dt_base::{Bytes, Numbers};
use std::io;
use std::io::{ErrorKind, Read};
use std::test::Fail;

// Four calls with a buffer of three bytes, over five bytes. No call has the number 0.
#[test]
fn a_source_fails_at_its_listed_calls(rt: HostRuntime) -> Result<(), Fail> {
    let rows = [
        (9, 0, [Ok(3), Ok(2), Ok(0), Ok(0)]),
        (2, 0, [Ok(2), Ok(2), Ok(1), Ok(0)]),
        (2, 1, [Err(Failed), Ok(2), Ok(2), Ok(1)]),
        (2, 3, [Ok(2), Ok(2), Err(Failed), Ok(1)]),
    ];
    for (piece, failing, answers) in rows {
        assert!(rt; piece > 0);
        let bytes = Bytes::from_slice(rt.alloc(), b"abcde")?;
        let fails = Numbers::from_slice(rt.alloc(), &[failing])?;
        let mut source = MemSource::new(bytes, piece, fails);
        let mut buf = [0; 3];
        for answer in answers {
            assert_eq!(rt;
                source.read(&mut buf),
                answer,
                "pieces of {piece}, call {failing} fails"
            );
        }
    }
    Ok(())
}

#[test]
fn reading_ends_at_the_end_the_limit_or_a_fault(rt: HostRuntime) -> Result<(), Fail> {
    let rows = [
        (1, 0, 5, None),
        (2, 0, 6, None),
        (9, 0, 5, None),
        (2, 0, 4, Some(ReadEnd::TooLong)),
        (9, 0, 0, Some(ReadEnd::TooLong)),
        (2, 2, 5, Some(ReadEnd::Failed)),
        (2, 4, 5, Some(ReadEnd::Failed)),
    ];
    for (piece, failing, limit, wanted) in rows {
        assert!(rt; piece > 0);
        let bytes = Bytes::from_slice(rt.alloc(), b"abcde")?;
        let fails = Numbers::from_slice(rt.alloc(), &[failing])?;
        let mut source = MemSource::new(bytes, piece, fails);
        match read_all(rt.alloc(), &mut source, limit) {
            Ok(all) => {
                assert_eq!(rt; all.as_slice(), b"abcde".as_slice());
                assert_eq!(rt;
                    None,
                    wanted,
                    "pieces of {piece}, call {failing} fails, limit {limit}"
                );
            }
            Err(end) => {
                assert_eq!(rt;
                    Some(end),
                    wanted,
                    "pieces of {piece}, call {failing} fails, limit {limit}"
                );
            }
        }
    }
    Ok(())
}

#[test]
fn writing_stops_at_a_fault_or_at_the_room(rt: HostRuntime) -> Result<(), Fail> {
    let rows = [
        (1, 0, 5, Ok(()), "abcde"),
        (2, 0, 9, Ok(()), "abcde"),
        (2, 2, 9, Err(Failed), "ab"),
        (9, 0, 3, Err(Failed), "abc"),
        (9, 0, 0, Err(Failed), ""),
    ];
    for (piece, failing, room, answer, written) in rows {
        assert!(rt; piece > 0);
        let fails = Numbers::from_slice(rt.alloc(), &[failing])?;
        let mut sink = MemSink::new(rt.alloc(), piece, fails, room)?;
        assert_eq!(rt;
            write_all(&mut sink, b"abcde"),
            answer,
            "pieces of {piece}, call {failing} fails, room {room}"
        );
        assert_eq!(rt;
            sink.written(),
            written.as_bytes(),
            "pieces of {piece}, call {failing} fails, room {room}"
        );
        assert_eq!(rt; sink.write(b""), Ok(0));
    }
    Ok(())
}

/// A reader that never gives a byte.
#[derive(Drop)]
struct Broken;

impl Read for Broken {
    fn read(&mut self, _buf: &mut [u8]) -> io::Result<usize> {
        Err(io::Error::from(ErrorKind::Other))
    }
}

#[test]
fn readers_and_writers_of_std_serve(rt: HostRuntime) -> Result<(), Fail> {
    let mut source = StdSource::new(b"abc".as_slice());
    let all = read_all(rt.alloc(), &mut source, 3)?;
    assert_eq!(rt; all.as_slice(), b"abc".as_slice());

    let mut written = Vec::new(rt.alloc());
    write_all(&mut StdSink::new(&mut written), b"abc")?;
    assert_eq!(rt; written.as_slice(), b"abc".as_slice());

    // The slice has no room for the third byte.
    let mut short = [0; 2];
    let mut sink = StdSink::new(short.as_mut_slice());
    assert_eq!(rt; write_all(&mut sink, b"abc"), Err(Failed));
    Ok(())
}

#[test]
fn an_error_of_a_reader_is_a_fault(rt: HostRuntime) {
    let mut source = StdSource::new(Broken);
    assert_eq!(rt; source.read(&mut [0; 2]), Err(Failed));
}
