//! That each call succeeds with ample memory, and what a caller through the bounds gets.

ghost use Rattle.std.specs.Prelude.{◌≡◌, ◌++◌, ◌<◌, ◌≤◌, [], IsTrue, IfOk, OnOk, vec_len, Err};
ghost use Rattle.delf_io.specs.Faults.{Rose};

use crate::{
    Bytes, Clock, Failed, ListClock, MemSink, MemSource, Numbers, Sink, Source, StdSink, StdSource,
    SystemClock,
};
use std::alloc::{AllocError, Global};
use std::io::{self, ErrorKind, Read, Write};
use std::test::Fail;
use std::time::{self, Duration};

fn source_of(alloc: Global, text: &str, fails: &[u64]) -> Result<MemSource, AllocError> {
    let bytes = Bytes::of(alloc, text.as_bytes())?;
    Ok(MemSource::of(bytes, Numbers::of(alloc, fails)?))
}

fn sink_of(alloc: Global, fails: &[u64]) -> Result<MemSink, AllocError> {
    Ok(MemSink::of(alloc, Numbers::of(alloc, fails)?))
}

#[test]
fn a_source_gives_its_bytes_and_fails_where_it_is_set_to(rt: HostRuntime) -> Result<(), Fail> {
    let mut source = source_of(rt.alloc(), "hello", &[2, 5])?;
    let table = [
        (3, Ok(3), "hel"),
        (3, Err(Failed), ""),
        (3, Ok(2), "lo"),
        (3, Ok(0), ""),
        (0, Err(Failed), ""),
        (0, Ok(0), ""),
    ];
    for (room, answer, text) in table {
        let mut piece = [0u8; 3];
        assert!(rt; room <= 3);
        let given = source.next(&mut piece[..room]);
        assert_eq!(rt; given, answer);
        let count = given.unwrap_or(0);
        assert!(rt; count <= 3);
        assert_eq!(rt; &piece[..count], text.as_bytes());
    }
    Ok(())
}

#[test]
fn a_sink_takes_each_piece_and_fails_where_it_is_set_to(rt: HostRuntime) -> Result<(), Fail> {
    let mut sink = sink_of(rt.alloc(), &[2])?;
    for (piece, answer) in [
        ("ab", Ok(2)),
        ("cd", Err(Failed)),
        ("", Ok(0)),
        ("efg", Ok(3)),
    ] {
        assert_eq!(rt; sink.put(piece.as_bytes()), answer);
    }
    assert_eq!(rt; sink.held(), b"abefg".as_slice());
    assert_eq!(rt; sink.starved(), 0);
    Ok(())
}

#[test]
fn a_clock_answers_in_order(rt: HostRuntime) -> Result<(), Fail> {
    let mut clock = ListClock::of(Numbers::of(rt.alloc(), &[5, 3])?);
    for answer in [5, 3, 3, 3] {
        assert_eq!(rt; clock.now(), answer);
    }
    let mut stopped = ListClock::of(Numbers::of(rt.alloc(), &[])?);
    assert_eq!(rt; stopped.now(), 0);
    assert_eq!(rt; stopped.now(), 0);
    Ok(())
}

/// A reader, a writer and a clock that work every other time.
#[derive(Drop)]
struct Flaky {
    works: bool,
}

impl Flaky {
    fn turn(&mut self) -> io::Result<()> {
        self.works = !self.works;
        if self.works {
            Ok(())
        } else {
            Err(io::Error::from(ErrorKind::TimedOut))
        }
    }
}

impl Read for Flaky {
    fn read(&mut self, _buf: &mut [u8]) -> io::Result<usize> {
        self.turn()?;
        Ok(0)
    }
}

impl Write for Flaky {
    fn write(&mut self, _buf: &[u8]) -> io::Result<usize> {
        self.turn()?;
        Ok(0)
    }

    fn flush(&mut self) -> io::Result<()> {
        Ok(())
    }
}

/// A clock that is set, or cannot be read.
#[derive(Drop)]
struct Dial {
    seconds: Option<u64>,
}

impl time::Clock for Dial {
    fn monotonic(&self) -> io::Result<Duration> {
        self.since_1970()
    }

    fn since_1970(&self) -> io::Result<Duration> {
        let seconds = self.seconds.ok_or(io::Error::from(ErrorKind::TimedOut))?;
        Ok(Duration::from_secs(seconds))
    }
}

#[test]
fn the_forms_over_std_hand_on(rt: HostRuntime) -> Result<(), Fail> {
    let mut piece = [0u8; 4];
    let mut source = StdSource::of(b"hello".as_slice());
    assert_eq!(rt; source.next(&mut piece), Ok(4));
    assert_eq!(rt; piece.as_slice(), b"hell".as_slice());
    assert_eq!(rt; source.next(&mut piece), Ok(1));
    assert_eq!(rt; source.next(&mut piece), Ok(0));
    let mut broken = StdSource::of(Flaky { works: true });
    assert_eq!(rt; broken.next(&mut piece), Err(Failed));
    assert_eq!(rt; broken.next(&mut piece), Ok(0));

    let mut sink = StdSink::of(Vec::new(rt.alloc()));
    assert_eq!(rt; sink.put(b"hello"), Ok(5));
    let mut stuck = StdSink::of(Flaky { works: true });
    assert_eq!(rt; stuck.put(b"hello"), Err(Failed));
    assert_eq!(rt; stuck.put(b"hello"), Ok(0));

    let noon = Dial {
        seconds: Some(43200),
    };
    assert_eq!(rt; SystemClock::of(&noon).now(), 43200);
    let unset = Dial { seconds: None };
    assert_eq!(rt; SystemClock::of(&unset).now(), 0);
    assert!(rt; 1_600_000_000 < SystemClock::of(&rt).now());
    Ok(())
}

#[derive(Debug, PartialEq, Drop)]
enum ReadFault {
    Failed,
    OutOfMemory,
}

/// Reads to the end of the input, but at most `limit` bytes.
fn read_up_to<S: Source>(alloc: Global, source: &mut S, limit: usize) -> Result<Vec<u8>, ReadFault>
    ensures within { IfOk result (λ read. vec_len read ≤ limit) }
    ensures same_told { S.told source.new ≡ S.told source.old }
    ensures taken { IfOk result (λ read. IsTrue (S.told source.old)
        → S.left source.old ≡ read.items ++ S.left source.new) }
    ensures whole { IfOk result (λ read. IsTrue (S.told source.old)
        → vec_len read < limit → S.left source.new ≡ []) }
    ensures never_falls { S.faults source.old ≤ S.faults source.new }
    ensures ok_stays { OnOk result (S.faults source.new ≡ S.faults source.old) }
    ensures failed_rose { result ≡ Err ReadFault.Failed → Rose (S.faults source.old) (S.faults source.new) }
{
    let mut read = Vec::new(alloc);
    let mut piece = [0u8; 4];
    'turns: while read.len() < limit {
        let room = piece.len().min(limit - read.len());
        let Ok(count) = source.next(&mut piece[..room]) else {
            return Err(ReadFault::Failed);
        };
        if count == 0 {
            return Ok(read);
        }
        if read.extend_from_slice(&piece[..count]).is_err() {
            return Err(ReadFault::OutOfMemory);
        }
    }
    Ok(read)
}

#[test]
fn a_caller_reads_all_through_the_bound(rt: HostRuntime) -> Result<(), Fail> {
    let alloc = rt.alloc();
    let mut source = source_of(alloc, "a document", &[])?;
    let read = read_up_to(alloc, &mut source, 9)
        .ok()
        .ok_or("nothing was read")?;
    assert_eq!(rt; read.as_slice(), b"a documen".as_slice());
    let rest = read_up_to(alloc, &mut source, 9)
        .ok()
        .ok_or("nothing was read")?;
    assert_eq!(rt; rest.as_slice(), b"t".as_slice());
    let mut failing = source_of(alloc, "a document", &[2])?;
    assert_eq!(rt;
        read_up_to(alloc, &mut failing, 9).err(),
        Some(ReadFault::Failed)
    );
    let mut reader = StdSource::of(b"a document".as_slice());
    let read = read_up_to(alloc, &mut reader, 99)
        .ok()
        .ok_or("nothing was read")?;
    assert_eq!(rt; read.len(), 10);
    Ok(())
}
