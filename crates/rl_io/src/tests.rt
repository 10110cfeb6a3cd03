//! Worked examples: each call succeeds where memory is ample, and fails where it is told to.
use crate::{
    MemSink, MemSource, ReadAll, StdSink, StdSource, SteadySink, SteadySource, read_whole,
    write_whole,
};
use std::io;
use std::io::{ErrorKind, Read};
use std::test::Fail;

// Ten bytes.
const DIGITS: &[u8] = b"0123456789";

#[test]
fn reads_in_chunks_up_to_the_limit(rt: HostRuntime) -> Result<(), Fail> {
    // The chunk, the call that fails, the limit, the answer but for its bytes, and the calls made.
    let rows = [
        (3, 0, 10, Ok(10), 5),
        (3, 0, 9, Err(ReadAll::TooLong), 4),
        (3, 2, 10, Err(ReadAll::Fault), 2),
        (99, 3, usize::MAX, Ok(10), 2),
        (99, 2, usize::MAX, Err(ReadAll::Fault), 2),
        (1, 0, 0, Err(ReadAll::TooLong), 1),
    ];
    for (chunk, failing, limit, answer, calls) in rows {
        assert!(rt; 0 < chunk);
        let bytes = DIGITS.to_vec(rt.alloc())?;
        let mut source = MemSource::new(bytes, chunk, vec![in rt.alloc(); failing]?);
        let read = read_whole(rt.alloc(), &mut source, limit);
        if let Ok(read) = &read {
            assert_eq!(rt; read.as_slice(), DIGITS);
        }
        assert_eq!(rt; read.map(|read| read.len()), answer, "chunk {chunk}");
        assert_eq!(rt; source.calls(), calls, "chunk {chunk}");
    }
    Ok(())
}

#[test]
fn writes_a_front_into_limited_room(rt: HostRuntime) -> Result<(), Fail> {
    // The room, the chunk, the call that fails, whether all is written, the bytes given, and the
    // calls made.
    let rows = [
        (10, 3, 0, true, "0123456789", 4),
        (99, 99, 2, true, "0123456789", 1),
        (9, 4, 0, false, "012345678", 4),
        (10, 3, 2, false, "012", 2),
        (10, 0, 0, false, "", 1),
        (0, 3, 0, false, "", 1),
    ];
    for (room, chunk, failing, whole, given, calls) in rows {
        let failing = vec![in rt.alloc(); failing]?;
        let mut sink = MemSink::new(rt.alloc(), room, chunk, failing)?;
        assert_eq!(rt;
            write_whole(&mut sink, DIGITS).is_ok(),
            whole,
            "room {room}"
        );
        assert_eq!(rt; sink.given(), given.as_bytes(), "room {room}");
        assert_eq!(rt; sink.calls(), calls, "room {room}");
    }
    Ok(())
}

#[test]
fn refuses_room_beyond_memory(rt: HostRuntime) {
    let failing = Vec::new(rt.alloc());
    assert!(rt; MemSink::new(rt.alloc(), usize::MAX, 1, failing).is_err());
}

#[test]
fn never_fails_where_it_is_steady(rt: HostRuntime) -> Result<(), Fail> {
    let mut source = SteadySource::new(vec![in rt.alloc(); 7; 100_000]?);
    let read = read_whole(rt.alloc(), &mut source, 100_000).map_err(|_| "read")?;
    assert_eq!(rt; read.len(), 100_000);
    let mut sink = SteadySink::new();
    write_whole(&mut sink, &read).map_err(|_| "write")?;
    write_whole(&mut sink, DIGITS).map_err(|_| "write")?;
    assert_eq!(rt; sink.count(), 100_010);
    Ok(())
}

// A reader that fails at its second call.
#[derive(Drop)]
struct Broken {
    rest: &'static [u8],
}

impl Read for Broken {
    fn read(&mut self, buf: &mut [u8]) -> io::Result<usize> {
        if self.rest.is_empty() {
            return Err(io::Error::from(ErrorKind::Other));
        }
        self.rest.read(buf)
    }
}

#[test]
fn hands_on_what_a_reader_gives(rt: HostRuntime) -> Result<(), Fail> {
    let mut source = StdSource::new(DIGITS);
    let read = read_whole(rt.alloc(), &mut source, 10).map_err(|_| "read")?;
    assert_eq!(rt; read.as_slice(), DIGITS);
    let mut source = StdSource::new(Broken { rest: DIGITS });
    let read = read_whole(rt.alloc(), &mut source, 10);
    assert_eq!(rt; read.map(|read| read.len()), Err(ReadAll::Fault));
    Ok(())
}

#[test]
fn hands_on_what_a_writer_takes(rt: HostRuntime) -> Result<(), Fail> {
    let mut written = Vec::new(rt.alloc());
    let mut sink = StdSink::new(&mut written);
    write_whole(&mut sink, DIGITS).map_err(|_| "write")?;
    assert_eq!(rt; written.as_slice(), DIGITS);
    let mut room = [0; 4];
    let mut sink = StdSink::new(room.as_mut_slice());
    assert!(rt; write_whole(&mut sink, DIGITS).is_err());
    assert_eq!(rt; room.as_slice(), b"0123".as_slice());
    Ok(())
}
