//! `va_io`: sinks in memory and over a writer.
ghost use Rattle.std.specs.Prelude.{◌≡◌, [], IsTrue};

use std::alloc::Global;
use std::io::{ErrorKind, Write};
use std::test::Fail;
use std::{fs, io};
use va_base::NoMemory;
use va_io::{MemSink, Sink, SinkErr, StdSink, write_all};

#[test]
fn memory_takes_what_it_may_and_fails_at_the_listed_writes(rt: HostRuntime) -> Result<(), Fail> {
    let cases: [(usize, &[u64], &[u8], Result<(), SinkErr>, &[u8]); 9] = [
        (100, &[], b"all at once", Ok(()), b"all at once"),
        (1, &[], b"byte by byte", Ok(()), b"byte by byte"),
        (
            5,
            &[],
            &[0, 127, 128, 200, 255, 10],
            Ok(()),
            &[0, 127, 128, 200, 255, 10],
        ),
        (usize::MAX, &[2], b"first", Ok(()), b"first"),
        (100, &[1], b"first", Err(SinkErr::Failed), b""),
        (1, &[3, 1000], b"third", Err(SinkErr::Failed), b"th"),
        (4, &[0, 2], b"second", Err(SinkErr::Failed), b"seco"),
        (3, &[3], b"second", Ok(()), b"second"),
        (1, &[1], b"", Ok(()), b""),
    ];
    for (take, fail, text, want, kept) in cases {
        assert!(rt; take > 0);
        let mut sink = MemSink::new(rt.alloc(), take, fail.to_vec(rt.alloc())?);
        let answer = write_all(&mut sink, text);
        assert_eq!(rt; answer, want, "{take} at once, {fail:?} fail");
        assert_eq!(rt; sink.bytes(), kept, "{take} at once, {fail:?} fail");
    }
    Ok(())
}

#[test]
fn memory_goes_on_after_a_failure(rt: HostRuntime) -> Result<(), Fail> {
    let mut sink = MemSink::new(rt.alloc(), 2, [2, 4].to_vec(rt.alloc())?);
    let steps: [(&[u8], Result<usize, SinkErr>); 5] = [
        (b"abc", Ok(2)),
        (b"c", Err(SinkErr::Failed)),
        (b"c", Ok(1)),
        (b"", Err(SinkErr::Failed)),
        (b"", Ok(0)),
    ];
    for (piece, want) in steps {
        assert_eq!(rt; sink.write(piece), want);
    }
    assert_eq!(rt; sink.bytes(), b"abc".as_slice());
    Ok(())
}

/// Where no write is listed, a write within the room that was reserved is taken.
fn reserved_is_taken(alloc: Global, fail: Vec<u64>) -> bool
    requires { fail.items ≡ [] }
    ensures { IsTrue result }
{
    let mut sink = MemSink::new(alloc, 9, fail);
    sink.reserve(4).is_err() || sink.write(b"four") == Ok(4)
}

#[test]
fn memory_reserves_room(rt: HostRuntime) {
    assert!(rt; reserved_is_taken(rt.alloc(), Vec::new(rt.alloc())));
    let mut sink = MemSink::new(rt.alloc(), 100, Vec::new(rt.alloc()));
    assert_eq!(rt; sink.reserve(0), Ok(()));
    assert_eq!(rt; sink.reserve(6), Ok(()));
    assert_eq!(rt; write_all(&mut sink, b"within"), Ok(()));
    assert_eq!(rt; sink.reserve(usize::MAX), Err(NoMemory));
    assert_eq!(rt; sink.bytes(), b"within".as_slice());
    assert_eq!(rt; sink.reserve(100000), Ok(()));
    assert_eq!(rt; write_all(&mut sink, b" room"), Ok(()));
    assert_eq!(rt; sink.bytes(), b"within room".as_slice());
}

#[test]
fn a_real_file_is_reached(rt: HostRuntime) -> Result<(), Fail> {
    let mut sink = StdSink::new(fs::create(&rt, "out.c")?);
    write_all(&mut sink, b"/* one */\n")?;
    write_all(&mut sink, &[0, 128, 255])?;
    assert_eq!(rt;
        fs::read(&rt, "out.c")?.as_slice(),
        b"/* one */\n\x00\x80\xff".as_slice()
    );
    fs::remove_file(&rt, "out.c")?;
    Ok(())
}

/// How a writer treats what it is given.
#[derive(Clone, Copy)]
enum Habit {
    TakesOne,
    TakesNone,
    Refuses,
    RefusesFlush,
}

/// A writer with a habit, which counts the bytes that it took.
#[derive(Drop)]
struct Habitual {
    habit: Habit,
    taken: usize,
}

impl Write for Habitual {
    fn write(&mut self, piece: &[u8]) -> io::Result<usize> {
        let count = match self.habit {
            Habit::TakesOne | Habit::RefusesFlush => piece.len().min(1),
            Habit::TakesNone => 0,
            Habit::Refuses => return Err(io::Error::from(ErrorKind::Interrupted)),
        };
        self.taken = self.taken.wrapping_add(count);
        Ok(count)
    }

    fn flush(&mut self) -> io::Result<()> {
        match self.habit {
            Habit::RefusesFlush => Err(io::Error::from(ErrorKind::BrokenPipe)),
            _ => Ok(()),
        }
    }
}

/// What a writer of this habit answers for a whole text, and how many bytes it took.
fn written(habit: Habit, text: &[u8]) -> (Result<(), SinkErr>, usize) {
    let mut writer = Habitual { habit, taken: 0 };
    let answer = write_all(&mut StdSink::new(&mut writer), text);
    (answer, writer.taken)
}

#[test]
fn every_error_of_a_writer_is_a_failure(rt: HostRuntime) {
    let cases: [(Habit, &[u8], Result<(), SinkErr>, usize); 7] = [
        (Habit::TakesOne, b"four", Ok(()), 4),
        (Habit::TakesOne, b"", Ok(()), 0),
        (Habit::TakesNone, b"four", Err(SinkErr::Failed), 0),
        (Habit::TakesNone, b"", Ok(()), 0),
        (Habit::Refuses, b"four", Err(SinkErr::Failed), 0),
        (Habit::RefusesFlush, b"four", Err(SinkErr::Failed), 1),
        (Habit::Refuses, b"", Ok(()), 0),
    ];
    for (habit, text, want, taken) in cases {
        assert_eq!(rt; written(habit, text), (want, taken));
    }
    for (habit, want) in [
        (Habit::TakesNone, Ok(0)),
        (Habit::Refuses, Err(SinkErr::Failed)),
        (Habit::RefusesFlush, Err(SinkErr::Failed)),
    ] {
        let mut sink = StdSink::new(Habitual { habit, taken: 0 });
        assert_eq!(rt; sink.write(b""), want);
    }
}

#[test]
fn errors_have_their_words(rt: HostRuntime) -> Result<(), Fail> {
    for (error, words) in [
        (SinkErr::Failed, "the sink can't be written"),
        (SinkErr::NoMemory, "out of memory"),
    ] {
        assert_eq!(rt; format!(in rt.alloc(); "{error}")?.as_str(), words);
    }
    Ok(())
}
