use super::*;
use std::io::{ErrorKind, Read, Result as IoResult, Seek, SeekFrom};
use std::process::Abort;
use std::test::Fail;

const LETTERS: &[u8] = b"abcde";

fn crosses_threads<T: Send + Drop>(_value: T) {}

// What one call of a fake file does.
#[derive(Clone, Copy)]
enum Step {
    Move(usize),
    Interrupt(u32),
    Fail,
}

// A file of the letters, whose seeks and reads do what its steps say, and then all that they are asked for.
#[derive(Drop)]
struct FakeFile {
    at: usize,
    interrupts: u32,
    steps: &'static [Step],
}

impl FakeFile {
    fn of(steps: &'static [Step]) -> FakeFile {
        FakeFile {
            at: 0,
            interrupts: 0,
            steps,
        }
    }

    // Returns the most bytes that this call moves.
    fn step(&mut self) -> IoResult<usize> {
        if self.interrupts > 0 {
            self.interrupts -= 1;
            return Err(ErrorKind::Interrupted.into());
        }
        let [step, rest @ ..] = self.steps else {
            return Ok(usize::MAX);
        };
        self.steps = rest;
        match *step {
            Step::Move(most) => Ok(most),
            Step::Interrupt(times) => {
                self.interrupts = times.saturating_sub(1);
                Err(ErrorKind::Interrupted.into())
            }
            Step::Fail => Err(ErrorKind::Other.into()),
        }
    }
}

impl Read for FakeFile {
    fn read(&mut self, buf: &mut [u8]) -> IoResult<usize> {
        let most = self.step()?;
        let from = &LETTERS[self.at.min(LETTERS.len())..];
        let count = most.min(buf.len()).min(from.len());
        buf[..count].copy_from_slice(&from[..count]);
        self.at = self.at.saturating_add(count);
        Ok(count)
    }
}

impl Seek for FakeFile {
    fn seek(&mut self, to: SeekFrom) -> IoResult<u64> {
        let _ = self.step()?;
        let SeekFrom::Start(at) = to else {
            return Err(ErrorKind::Unsupported.into());
        };
        self.at = at.min(9) as usize;
        Ok(at)
    }
}

// Reads `len` bytes, at most 9, at this place, and compares the answer, the bytes that it tells and the faults.
fn reads<P: PageSource>(
    rt: &impl Abort,
    source: &mut P,
    name: &str,
    at: u64,
    len: usize,
    want: PageGot,
    bytes: &[u8],
) {
    let mut buffer = [0; 9];
    let room = len.min(9);
    let faults = source.faults();
    let got = source.read(at, &mut buffer[..room]);
    assert_eq!(rt; got, want, "{name}");
    let (count, rose) = match got {
        PageGot::All => (room, 0),
        PageGot::Short(count) => (count.min(9), 0),
        PageGot::Failed => (0, 1),
    };
    assert_eq!(rt; &buffer[..count], bytes, "{name}");
    assert_eq!(rt; source.faults(), faults.saturating_add(rose), "{name}");
}

// The second read fails.
fn reads_letters<P: PageSource>(rt: &impl Abort, source: &mut P) {
    let cases: [(&str, u64, usize, PageGot, &[u8]); 9] = [
        ("all", 0, 5, PageGot::All, b"abcde"),
        ("planned to fail", 0, 5, PageGot::Failed, b""),
        ("within", 1, 3, PageGot::All, b"bcd"),
        ("to the end", 3, 2, PageGot::All, b"de"),
        ("a byte past the end", 3, 3, PageGot::Short(2), b"de"),
        ("at the end", 5, 1, PageGot::Short(0), b""),
        ("after the end", 9, 2, PageGot::Short(0), b""),
        ("the last place", u64::MAX, 2, PageGot::Short(0), b""),
        ("nothing, after the end", 9, 0, PageGot::All, b""),
    ];
    for (name, at, len, want, bytes) in cases {
        reads(rt, source, name, at, len, want, bytes);
    }
}

#[test]
fn reads_from_memory(rt: HostRuntime) -> Result<(), Fail> {
    let alloc = rt.alloc();
    let failing: &[u64] = &[2];
    let mut source = MemoryPages::of(LETTERS.to_vec(alloc)?, failing.to_vec(alloc)?);
    reads_letters(&rt, &mut source);
    Ok(())
}

#[test]
fn reads_from_a_box(rt: HostRuntime) -> Result<(), Fail> {
    let alloc = rt.alloc();
    let failing: &[u64] = &[2];
    let source = MemoryPages::of(LETTERS.to_vec(alloc)?, failing.to_vec(alloc)?);
    let mut boxed: Box<dyn PageSource + Send> = Box::new(alloc, source)?;
    reads_letters(&rt, &mut boxed);
    crosses_threads(boxed);
    Ok(())
}

#[test]
fn reads_from_a_file(rt: HostRuntime) {
    let cases: [(&str, &'static [Step], u64, usize, PageGot, &[u8]); 11] = [
        ("at once", &[], 1, 3, PageGot::All, b"bcd"),
        (
            "in pieces of one byte",
            &[Step::Move(0), Step::Move(1), Step::Move(1), Step::Move(1)],
            2,
            3,
            PageGot::All,
            b"cde",
        ),
        ("a short file", &[], 2, 5, PageGot::Short(3), b"cde"),
        ("after the end", &[], 7, 2, PageGot::Short(0), b""),
        ("nothing", &[], 7, 0, PageGot::All, b""),
        ("a fault of seek", &[Step::Fail], 0, 2, PageGot::Failed, b""),
        (
            "a fault of read",
            &[Step::Move(0), Step::Fail],
            0,
            2,
            PageGot::Failed,
            b"",
        ),
        (
            "a fault after a byte",
            &[Step::Move(0), Step::Move(1), Step::Fail],
            0,
            2,
            PageGot::Failed,
            b"",
        ),
        (
            "15 interruptions of each call",
            &[Step::Interrupt(15), Step::Move(0), Step::Interrupt(15)],
            0,
            5,
            PageGot::All,
            b"abcde",
        ),
        (
            "16 interruptions of seek",
            &[Step::Interrupt(16)],
            0,
            2,
            PageGot::Failed,
            b"",
        ),
        (
            "16 interruptions of read",
            &[Step::Move(0), Step::Interrupt(16)],
            0,
            2,
            PageGot::Failed,
            b"",
        ),
    ];
    for (name, steps, at, len, want, bytes) in cases {
        let mut source = FilePages::of(Some(FakeFile::of(steps)));
        reads(&rt, &mut source, name, at, len, want, bytes);
        reads(&rt, &mut source, name, 4, 1, PageGot::All, b"e");
    }
    let mut none: FilePages<FakeFile> = FilePages::of(None);
    reads(&rt, &mut none, "no file", 0, 1, PageGot::Failed, b"");
    reads(
        &rt,
        &mut none,
        "no file, and no byte",
        0,
        0,
        PageGot::Failed,
        b"",
    );
    crosses_threads(none);
}
