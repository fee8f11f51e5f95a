//! Tests of what no contract says: that calls succeed with ample memory, and what the standard library's readers and
//! writers give.
ghost use Rattle.std.specs.Prelude.{None};

use crate::{
    Failed, INPUT_LIMIT, MemSink, MemSource, ReadError, Sink, Source, StdSink, StdSource, read_all,
    write_all,
};
use std::io::{Error, ErrorKind, Read, Result as IoResult, Write};
use std::test::Fail;

/// 24 bytes, as a trace has them.
const TEXT: &[u8] = b"rel 0 1 0 0\nout 0 1 7 7\n";

#[test]
fn reads_of_memory_move_in_pieces(rt: HostRuntime) -> Result<(), Fail> {
    // The most bytes of a read, the reads that fail, the answer, and the faults that were counted.
    let reads: [(usize, &[u64], Result<(), ReadError>, u64); 5] = [
        (1, &[], Ok(()), 0),
        (4096, &[], Ok(()), 0),
        (10, &[9, 3], Err(ReadError::ReadFault), 1),
        (10, &[4], Err(ReadError::ReadFault), 1),
        (10, &[5], Ok(()), 0),
    ];
    for (piece, fails, answer, faults) in reads {
        assert!(rt; piece >= 1);
        let fails = fails.to_vec(rt.alloc())?;
        let mut source = MemSource::new(TEXT.to_vec(rt.alloc())?, fails, piece);
        match read_all(rt.alloc(), &mut source) {
            Ok(bytes) => {
                assert_eq!(rt; bytes.as_slice(), TEXT, "in pieces of {piece}");
                assert_eq!(rt; answer, Ok(()), "in pieces of {piece}");
            }
            Err(error) => assert_eq!(rt; answer, Err(error), "in pieces of {piece}"),
        }
        assert_eq!(rt; source.faults(), faults, "in pieces of {piece}");
    }
    Ok(())
}

#[test]
fn writes_to_memory_move_in_pieces(rt: HostRuntime) -> Result<(), Fail> {
    // The room, the most bytes of a write, the writes that fail, the bytes that are then written, and the faults.
    let writes: [(usize, usize, &[u64], usize, u64); 5] = [
        (24, 1, &[], 24, 0),
        (99, 4096, &[], 24, 0),
        (24, 10, &[3], 20, 1),
        (23, 10, &[], 23, 1),
        (24, 10, &[4], 24, 0),
    ];
    for (room, piece, fails, count, faults) in writes {
        assert!(rt; piece >= 1);
        let fails = fails.to_vec(rt.alloc())?;
        let mut sink = MemSink::new(rt.alloc(), room, fails, piece)?;
        let answer = write_all(&mut sink, TEXT);
        assert_eq!(rt; answer.is_ok(), faults == 0, "room {room}");
        let front = TEXT
            .get(..count)
            .ok_or("the table asks for more than the text")?;
        assert_eq!(rt; sink.written(), front, "room {room}, pieces of {piece}");
        assert_eq!(rt; sink.faults(), faults, "room {room}, pieces of {piece}");
    }
    Ok(())
}

/// As many bytes as are left, of any value, in full buffers; one of the reads may fail.
#[derive(Drop)]
struct Plenty {
    left: usize,
    failing: Option<u64>,
    calls: u64,
    faults: u64,
}

impl Source for Plenty {
    ghost left = { λ _. None };

    ghost faults = { λ s. s.faults };

    fn read(&mut self, buf: &mut [u8]) -> Result<usize, Failed> {
        self.calls = self.calls.saturating_add(1);
        if self.failing == Some(self.calls) {
            self.faults = self.faults.saturating_add(1);
            return Err(Failed);
        }
        let count = self.left.min(buf.len());
        self.left -= count;
        Ok(count)
    }
}

#[test]
fn an_input_has_a_limit(rt: HostRuntime) -> Result<(), Fail> {
    // The bytes, the read that fails, the answer, and how many bytes stay.
    let cases = [
        (INPUT_LIMIT - 1, None, Ok(INPUT_LIMIT - 1), 0),
        (INPUT_LIMIT, None, Ok(INPUT_LIMIT), 0),
        (INPUT_LIMIT + 1, None, Err(ReadError::TooLong), 0),
        (
            usize::MAX,
            None,
            Err(ReadError::TooLong),
            usize::MAX - INPUT_LIMIT - 1,
        ),
        (
            usize::MAX,
            Some(3),
            Err(ReadError::ReadFault),
            usize::MAX - 2 * 65_536,
        ),
        (INPUT_LIMIT, Some(257), Err(ReadError::ReadFault), 0),
    ];
    for (left, failing, answer, stay) in cases {
        let mut source = Plenty {
            left,
            failing,
            calls: 0,
            faults: 0,
        };
        let found = match read_all(rt.alloc(), &mut source) {
            Ok(bytes) => Ok(bytes.len()),
            Err(error) => Err(error),
        };
        assert_eq!(rt; found, answer, "of {left} bytes");
        assert_eq!(rt; source.left, stay, "of {left} bytes");
    }
    Ok(())
}

/// A reader and writer that moves one byte a call, and from its third call on fails.
#[derive(Drop)]
struct Closing {
    calls: u64,
}

impl Closing {
    fn next(&mut self) -> IoResult<()> {
        self.calls = self.calls.saturating_add(1);
        if self.calls > 2 {
            return Err(Error::from(ErrorKind::BrokenPipe));
        }
        Ok(())
    }
}

impl Read for Closing {
    fn read(&mut self, buf: &mut [u8]) -> IoResult<usize> {
        self.next()?;
        Ok(buf.len().min(1))
    }
}

impl Write for Closing {
    fn write(&mut self, buf: &[u8]) -> IoResult<usize> {
        self.next()?;
        Ok(buf.len().min(1))
    }

    fn flush(&mut self) -> IoResult<()> {
        Ok(())
    }
}

#[test]
fn the_standard_library_is_a_source_and_a_sink(rt: HostRuntime) -> Result<(), Fail> {
    let read = read_all(rt.alloc(), &mut StdSource::new(TEXT))?;
    assert_eq!(rt; read.as_slice(), TEXT);

    let mut written = Vec::new(rt.alloc());
    write_all(&mut StdSink::new(&mut written), TEXT)?;
    assert_eq!(rt; written.as_slice(), TEXT);

    let cut = read_all(rt.alloc(), &mut StdSource::new(Closing { calls: 0 }));
    assert!(rt; matches!(cut, Err(ReadError::ReadFault)));
    let torn = write_all(&mut StdSink::new(Closing { calls: 0 }), TEXT);
    assert_eq!(rt; torn, Err(Failed));
    Ok(())
}
