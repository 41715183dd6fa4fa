use super::*;
use std::io::{ErrorKind, Read, Result as IoResult, Write};
use std::test::Fail;

const LETTERS: &[u8] = b"abcde";

fn crosses_threads<T: Send + Sync + Drop>(_value: T) {}

// What one call of a fake does.
#[derive(Clone, Copy)]
enum Step {
    Move(usize),
    Interrupt,
    Fail,
}

// Gives the letters, as its steps say, and then nothing more.
#[derive(Drop)]
struct FakeReader {
    bytes: &'static [u8],
    steps: &'static [Step],
}

impl Read for FakeReader {
    fn read(&mut self, buf: &mut [u8]) -> IoResult<usize> {
        let [step, rest @ ..] = self.steps else {
            return Ok(0);
        };
        self.steps = rest;
        match *step {
            Step::Interrupt => Err(ErrorKind::Interrupted.into()),
            Step::Fail => Err(ErrorKind::Other.into()),
            Step::Move(most) => {
                let count = most.min(buf.len()).min(self.bytes.len());
                buf[..count].copy_from_slice(&self.bytes[..count]);
                self.bytes = &self.bytes[count..];
                Ok(count)
            }
        }
    }
}

// Counts the bytes that it takes, as its steps say, and then takes all and flushes.
#[derive(Drop)]
struct FakeWriter {
    taken: usize,
    steps: &'static [Step],
}

impl FakeWriter {
    fn step(&mut self) -> IoResult<usize> {
        let [step, rest @ ..] = self.steps else {
            return Ok(usize::MAX);
        };
        self.steps = rest;
        match *step {
            Step::Interrupt => Err(ErrorKind::Interrupted.into()),
            Step::Fail => Err(ErrorKind::Other.into()),
            Step::Move(most) => Ok(most),
        }
    }
}

impl Write for FakeWriter {
    fn write(&mut self, buf: &[u8]) -> IoResult<usize> {
        let count = self.step()?.min(buf.len());
        self.taken = self.taken.saturating_add(count);
        Ok(count)
    }

    fn flush(&mut self) -> IoResult<()> {
        let _ = self.step()?;
        Ok(())
    }
}

#[test]
fn reads_from_memory(rt: HostRuntime) -> Result<(), Fail> {
    let alloc = rt.alloc();
    let cases: [(&str, u32, &[u64], &[Got]); 5] = [
        (
            "at most 2",
            2,
            &[],
            &[Got::Bytes(2), Got::Bytes(2), Got::Bytes(1), Got::End],
        ),
        (
            "as the buffer allows",
            9,
            &[],
            &[Got::Bytes(3), Got::Bytes(2), Got::End, Got::End],
        ),
        (
            "the second fails",
            2,
            &[2],
            &[Got::Bytes(2), Got::Failed, Got::Bytes(2), Got::Bytes(1)],
        ),
        (
            "the end fails",
            3,
            &[3],
            &[Got::Bytes(3), Got::Bytes(2), Got::Failed, Got::End],
        ),
        ("each fails", 1, &[2, 1], &[Got::Failed, Got::Failed]),
    ];
    for (name, most, failing, answers) in cases {
        assert!(rt; most > 0);
        let mut source = MemorySource::of(LETTERS.to_vec(alloc)?, most, failing.to_vec(alloc)?);
        let mut buffer = [0; 3];
        let mut seen = Vec::new(alloc);
        for answer in answers {
            let got = source.read_some(&mut buffer);
            assert_eq!(rt; got, *answer, "{name}");
            if let Got::Bytes(count) = got {
                assert!(rt; count <= 3);
                seen.extend_from_slice(&buffer[..count])?;
            }
        }
        assert_eq!(rt; seen.as_slice(), &LETTERS[..seen.len().min(5)], "{name}");
    }
    Ok(())
}

#[test]
fn writes_to_memory(rt: HostRuntime) -> Result<(), Fail> {
    let alloc = rt.alloc();
    let cases: [(&str, u64, u32, &[u64], &[Took], &[u8]); 4] = [
        (
            "at most 2",
            9,
            2,
            &[],
            &[Took::Bytes(2), Took::Bytes(2)],
            b"abab",
        ),
        (
            "all the room",
            7,
            9,
            &[],
            &[Took::Bytes(5), Took::Bytes(2), Took::Failed],
            b"abcdeab",
        ),
        (
            "the second fails",
            9,
            3,
            &[2],
            &[Took::Bytes(3), Took::Failed, Took::Bytes(3)],
            b"abcabc",
        ),
        ("no room", 0, 1, &[], &[Took::Failed, Took::Failed], b""),
    ];
    for (name, room, most, failing, answers, want) in cases {
        assert!(rt; room <= 9 && most > 0);
        let mut sink = MemorySink::of(alloc, room, most, failing.to_vec(alloc)?).map_err(
            |_refused| "memory",
        )?;
        for answer in answers {
            assert_eq!(rt; sink.write_some(LETTERS), *answer, "{name}");
        }
        assert_eq!(rt; sink.into_bytes().as_slice(), want, "{name}");
    }
    Ok(())
}

#[test]
fn puts_into_memory(rt: HostRuntime) -> Result<(), Fail> {
    let alloc = rt.alloc();
    let cases: [(&str, u64, &[u64], bool, bool, &[u8]); 5] = [
        ("all", 5, &[], true, true, b"abcde"),
        ("the first call fails", 5, &[1], false, true, b""),
        ("the third call fails", 5, &[3], false, true, b"abcd"),
        ("too little room", 3, &[], false, true, b"abc"),
        ("the finish fails", 5, &[4], true, false, b"abcde"),
    ];
    for (name, room, failing, put, finished, want) in cases {
        assert!(rt; room <= 5);
        let mut sink = MemorySink::of(alloc, room, 2, failing.to_vec(alloc)?).map_err(
            |_refused| "memory",
        )?;
        assert_eq!(rt; put_all(&mut sink, LETTERS), put, "{name}");
        assert_eq!(rt; sink.finish(), finished, "{name}");
        assert_eq!(rt; sink.into_bytes().as_slice(), want, "{name}");
    }
    Ok(())
}

#[test]
fn reads_from_a_reader(rt: HostRuntime) {
    let mut source = StdSource::of(FakeReader {
        bytes: LETTERS,
        steps: &[
            Step::Move(1),
            Step::Fail,
            Step::Interrupt,
            Step::Move(9),
            Step::Move(9),
        ],
    });
    let mut buffer = [0; 3];
    let answers = [
        (Got::Bytes(1), b"a\0\0"),
        (Got::Failed, b"a\0\0"),
        (Got::Bytes(3), b"bcd"),
        (Got::Bytes(1), b"ecd"),
        (Got::End, b"ecd"),
    ];
    for (answer, bytes) in answers {
        assert_eq!(rt; source.read_some(&mut buffer), answer);
        assert_eq!(rt; &buffer, bytes);
    }
}

#[test]
fn puts_into_a_writer(rt: HostRuntime) {
    let cases: [(&str, &'static [Step], bool, bool, usize); 6] = [
        ("at once", &[], true, true, 5),
        (
            "in pieces",
            &[Step::Move(1), Step::Interrupt, Step::Move(3)],
            true,
            true,
            5,
        ),
        (
            "takes nothing",
            &[Step::Move(2), Step::Move(0)],
            false,
            true,
            2,
        ),
        ("fails", &[Step::Move(4), Step::Fail], false, true, 4),
        (
            "the finish fails",
            &[Step::Move(9), Step::Fail],
            true,
            false,
            5,
        ),
        (
            "the finish is interrupted",
            &[Step::Move(9), Step::Interrupt],
            true,
            true,
            5,
        ),
    ];
    for (name, steps, put, finished, taken) in cases {
        let mut writer = FakeWriter { taken: 0, steps };
        let mut sink = StdSink::of(&mut writer);
        assert_eq!(rt; put_all(&mut sink, LETTERS), put, "{name}");
        assert_eq!(rt; sink.finish(), finished, "{name}");
        assert_eq!(rt; writer.taken, taken, "{name}");
    }
}

// Is interrupted so many times, and then reads zeros, takes all bytes and flushes.
#[derive(Drop)]
struct Interrupted {
    times: u32,
}

impl Interrupted {
    fn step(&mut self) -> IoResult<()> {
        if self.times == 0 {
            return Ok(());
        }
        self.times -= 1;
        Err(ErrorKind::Interrupted.into())
    }
}

impl Read for Interrupted {
    fn read(&mut self, buf: &mut [u8]) -> IoResult<usize> {
        self.step()?;
        Ok(buf.len())
    }
}

impl Write for Interrupted {
    fn write(&mut self, buf: &[u8]) -> IoResult<usize> {
        self.step()?;
        Ok(buf.len())
    }

    fn flush(&mut self) -> IoResult<()> {
        self.step()
    }
}

#[test]
fn retries_an_interrupted_call(rt: HostRuntime) {
    let cases = [
        (0, Got::Bytes(3), Took::Bytes(5), true),
        (15, Got::Bytes(3), Took::Bytes(5), true),
        (16, Got::Failed, Took::Failed, false),
    ];
    for (times, got, took, finished) in cases {
        let mut buffer = [0; 3];
        let mut source = StdSource::of(Interrupted { times });
        assert_eq!(rt; source.read_some(&mut buffer), got, "{times}");
        let mut sink = StdSink::of(Interrupted { times });
        assert_eq!(rt; sink.write_some(LETTERS), took, "{times}");
        let mut unwritten = StdSink::of(Interrupted { times });
        assert_eq!(rt; unwritten.finish(), finished, "{times}");
    }
}

#[test]
fn gathers_a_text(rt: HostRuntime) -> Result<(), Fail> {
    let alloc = rt.alloc();
    let cases: [(&str, usize, u32, &[u64], Result<&[u8], TextFault>, Got); 8] = [
        ("in one piece", 9, 9, &[], Ok(LETTERS), Got::End),
        ("in pieces", 9, 2, &[], Ok(LETTERS), Got::End),
        ("as long as the limit", 5, 9, &[], Ok(LETTERS), Got::End),
        (
            "one byte longer",
            4,
            9,
            &[],
            Err(TextFault::TooLong),
            Got::End,
        ),
        (
            "two bytes longer",
            3,
            2,
            &[],
            Err(TextFault::TooLong),
            Got::Bytes(1),
        ),
        (
            "no byte wanted",
            0,
            9,
            &[],
            Err(TextFault::TooLong),
            Got::Bytes(4),
        ),
        ("the end fails", 5, 9, &[2], Err(TextFault::Read), Got::End),
        (
            "the byte too many fails",
            4,
            4,
            &[2],
            Err(TextFault::Read),
            Got::Bytes(1),
        ),
    ];
    for (name, limit, most, failing, want, next) in cases {
        assert!(rt; most > 0 && limit <= 9);
        let mut source = MemorySource::of(LETTERS.to_vec(alloc)?, most, failing.to_vec(alloc)?);
        match (read_text(alloc, &mut source, limit), want) {
            (Ok(text), Ok(want)) => assert_eq!(rt; text.as_slice(), want, "{name}"),
            (Err(fault), Err(want)) => assert_eq!(rt; fault, want, "{name}"),
            (Ok(_), Err(_)) | (Err(_), Ok(_)) => assert!(rt; false, "{name}"),
        }
        assert_eq!(rt; source.read_some(&mut [0; 9]), next, "{name}");
    }
    Ok(())
}

// Stops at a piece with this byte, and answers how many bytes it was fed.
#[derive(Drop)]
struct StopsAt {
    byte: u8,
    fed: u32,
}

impl Consumer for StopsAt {
    ghost use Rattle.std.specs.Prelude.{◌^◌, ⊤};

    type Outcome = u32;

    ghost byte_limit = { 2 ^ 16 };

    ghost has_fed = { λ _ _ _. ⊤ };

    ghost stops = { λ _ _ _. ⊤ };

    fn feed(&mut self, piece: &[u8]) -> Fed<u32> {
        self.fed = self.fed.saturating_add(piece.len() as u32);
        if piece.contains(&self.byte) {
            Fed::Stop(self.fed)
        } else {
            Fed::Continue
        }
    }
}

#[test]
fn feeds_a_consumer(rt: HostRuntime) -> Result<(), Fail> {
    let alloc = rt.alloc();
    let cases: [(&str, u8, usize, &[u64], ReadEnd<u32>, Got); 6] = [
        ("to the end", b'x', 5, &[], ReadEnd::End, Got::End),
        (
            "to the limit",
            b'x',
            2,
            &[],
            ReadEnd::TooLong,
            Got::Bytes(2),
        ),
        (
            "to the stop",
            b'c',
            5,
            &[],
            ReadEnd::Stopped(4),
            Got::Bytes(1),
        ),
        (
            "not past the limit",
            b'c',
            2,
            &[],
            ReadEnd::TooLong,
            Got::Bytes(2),
        ),
        (
            "to a failed read",
            b'e',
            5,
            &[3],
            ReadEnd::Failed,
            Got::Bytes(1),
        ),
        (
            "no further than the stop",
            b'd',
            5,
            &[3],
            ReadEnd::Stopped(4),
            Got::Failed,
        ),
    ];
    for (name, byte, limit, failing, want, next) in cases {
        assert!(rt; limit <= 5);
        let mut source = MemorySource::of(LETTERS.to_vec(alloc)?, 2, failing.to_vec(alloc)?);
        let mut consumer = StopsAt { byte, fed: 0 };
        assert_eq!(rt;
            read_into(alloc, &mut source, limit, &mut consumer),
            want,
            "{name}"
        );
        assert_eq!(rt; source.read_some(&mut [0; 9]), next, "{name}");
    }
    Ok(())
}

#[test]
fn crosses(rt: HostRuntime) -> Result<(), Fail> {
    let alloc = rt.alloc();
    crosses_threads(MemorySource::of(Vec::new(alloc), 1, Vec::new(alloc)));
    let sink = MemorySink::of(alloc, 0, 1, Vec::new(alloc))?;
    crosses_threads(sink);
    crosses_threads(StdSource::of(FakeReader {
        bytes: LETTERS,
        steps: &[],
    }));
    crosses_threads(StdSink::of(FakeWriter {
        taken: 0,
        steps: &[],
    }));
    Ok(())
}
