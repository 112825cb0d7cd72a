use assertions::{assert_at, assert_equal, assert_equal_at};
use dts_base::{Failed, Sink, Source, write_all};
use dts_edge::*;
use std::alloc::{AllocError, Global};
use std::fs::{self, File};
use std::io::{self, Eprint, ErrorKind, Read, Write};
use std::process::Abort;
use std::test::Fail;

// How many octets the fakes hold: more than a page, so that a buffer within an adapter is seen.
const LENGTH: usize = 5000;

// What a fake does at one call.
#[derive(Clone, Copy)]
enum Step {
    Move(usize),
    Fail(ErrorKind),
    Interrupt,
}

// Octets of which no two that stand near are the same.
fn octets(alloc: Global) -> Result<Vec<u8>, AllocError> {
    let mut octets = Vec::new(alloc);
    for i in 0..LENGTH {
        octets.push((i % 251) as u8)?;
    }
    Ok(octets)
}

// How much the next step moves, or how it fails. Past the steps it moves all.
fn next_move(steps: &mut &[Step]) -> io::Result<usize> {
    let Some((step, rest)) = steps.split_first() else {
        return Ok(usize::MAX);
    };
    *steps = rest;
    match *step {
        Step::Move(count) => Ok(count),
        Step::Fail(kind) => Err(kind.into()),
        Step::Interrupt => Err(ErrorKind::Interrupted.into()),
    }
}

#[derive(Drop)]
struct FakeReader<'a> {
    left: &'a [u8],
    most: usize,
    steps: &'a [Step],
}

impl Read for FakeReader<'_> {
    fn read(&mut self, buf: &mut [u8]) -> io::Result<usize> {
        let count = next_move(&mut self.steps)?.min(self.most);
        let count = count.min(self.left.len()).min(buf.len());
        buf[..count].copy_from_slice(&self.left[..count]);
        self.left = &self.left[count..];
        Ok(count)
    }
}

#[derive(Drop)]
struct FakeWriter<'a> {
    taken: Vec<u8>,
    most: usize,
    steps: &'a [Step],
}

impl Write for FakeWriter<'_> {
    fn write(&mut self, piece: &[u8]) -> io::Result<usize> {
        let count = next_move(&mut self.steps)?.min(self.most).min(piece.len());
        self.taken.extend_from_slice(&piece[..count])?;
        Ok(count)
    }

    fn flush(&mut self) -> io::Result<()> {
        Ok(())
    }
}

// All octets up to the end, and how often a read failed.
fn drained<S: Source>(alloc: Global, source: &mut S) -> Result<(Vec<u8>, usize), AllocError> {
    let mut octets = Vec::new(alloc);
    let mut failed = 0usize;
    let mut buf = [0u8; 8192];
    for _ in 0..10_000 {
        match source.read(&mut buf) {
            Ok(0) => break,
            Ok(count) => octets.extend_from_slice(&buf[..count])?,
            Err(Failed) => failed = failed.saturating_add(1),
        }
    }
    Ok((octets, failed))
}

// What came of reading a source to its end, and once more.
#[derive(Debug, PartialEq, Drop)]
struct ReadOutcome {
    octets: Vec<u8>,
    failed: usize,
    more: Result<usize, Failed>,
    faults: (Option<ErrorKind>, Option<ErrorKind>),
}

// Reads a reader that moves at most so many octets at once, by these steps.
fn drained_by(
    alloc: Global,
    octets: &[u8],
    most: usize,
    steps: &[Step],
) -> Result<ReadOutcome, AllocError> {
    let mut source = ReaderSource::new(FakeReader {
        left: octets,
        most,
        steps,
    });
    let before = source.fault();
    let (octets, failed) = drained(alloc, &mut source)?;
    Ok(ReadOutcome {
        octets,
        failed,
        more: source.read(&mut [0u8; 8]),
        faults: (before, source.fault()),
    })
}

#[test]
fn a_reader_loses_doubles_and_hides_nothing(rt: HostRuntime) -> Result<(), Fail> {
    let whole = octets(rt.alloc())?;
    let busy = Step::Fail(ErrorKind::ResourceBusy);
    let late = Step::Fail(ErrorKind::TimedOut);
    let cases: [(usize, &[Step], usize, Option<ErrorKind>); 7] = [
        (usize::MAX, &[], 0, None),
        (1, &[], 0, None),
        (usize::MAX, &[busy], 1, Some(ErrorKind::ResourceBusy)),
        (
            usize::MAX,
            &[Step::Move(2000), late],
            1,
            Some(ErrorKind::TimedOut),
        ),
        (
            usize::MAX,
            &[Step::Move(2000), busy, Step::Move(1), late],
            2,
            Some(ErrorKind::TimedOut),
        ),
        (
            usize::MAX,
            &[Step::Move(2000), Step::Interrupt, Step::Interrupt],
            0,
            None,
        ),
        (
            usize::MAX,
            &[Step::Interrupt, busy, Step::Move(1)],
            1,
            Some(ErrorKind::ResourceBusy),
        ),
    ];
    for (most, steps, failed, fault) in cases {
        let wanted = ReadOutcome {
            octets: octets(rt.alloc())?,
            failed,
            more: Ok(0),
            faults: (None, fault),
        };
        let got = drained_by(rt.alloc(), whole.as_slice(), most, steps)?;
        assert_at!(rt; (most, failed, fault), got == wanted);
    }
    Ok(())
}

#[test]
fn a_reader_gives_what_came_at_once(rt: HostRuntime) -> Result<(), Fail> {
    let whole = octets(rt.alloc())?;
    let mut source = ReaderSource::new(whole.as_slice());
    let mut buf = [0u8; 8192];
    assert_equal!(rt; source.read(&mut buf), Ok(LENGTH));
    assert!(rt; buf.starts_with(whole.as_slice()));
    assert_equal!(rt; source.read(&mut buf), Ok(0));
    Ok(())
}

// What came of writing the octets, and then nothing.
#[derive(Debug, PartialEq, Drop)]
struct WriteOutcome {
    taken: Vec<u8>,
    ended: Result<(), Failed>,
    nothing: Result<usize, Failed>,
    faults: (Option<ErrorKind>, Option<ErrorKind>),
}

// Writes the octets to a writer that moves at most so many at once, by these steps.
fn filled_by(alloc: Global, octets: &[u8], most: usize, steps: &[Step]) -> WriteOutcome {
    let mut writer = FakeWriter {
        taken: Vec::new(alloc),
        most,
        steps,
    };
    let mut sink = WriterSink::new(&mut writer);
    let before = sink.fault();
    let ended = write_all(&mut sink, octets);
    let nothing = sink.write(b"");
    let faults = (before, sink.fault());
    WriteOutcome {
        taken: writer.taken,
        ended,
        nothing,
        faults,
    }
}

#[test]
fn a_writer_loses_doubles_and_hides_nothing(rt: HostRuntime) -> Result<(), Fail> {
    let whole = octets(rt.alloc())?;
    let full = Step::Fail(ErrorKind::StorageFull);
    let cases: [(usize, &[Step], usize, Option<ErrorKind>); 6] = [
        (usize::MAX, &[], LENGTH, None),
        (1, &[], LENGTH, None),
        (
            usize::MAX,
            &[Step::Move(2000), Step::Interrupt, Step::Interrupt],
            LENGTH,
            None,
        ),
        (usize::MAX, &[full], 0, Some(ErrorKind::StorageFull)),
        (
            usize::MAX,
            &[Step::Move(2000), full],
            2000,
            Some(ErrorKind::StorageFull),
        ),
        (
            usize::MAX,
            &[Step::Move(2000), Step::Move(0)],
            2000,
            Some(ErrorKind::WriteZero),
        ),
    ];
    for (most, steps, count, fault) in cases {
        let mut taken = octets(rt.alloc())?;
        taken.truncate(count);
        let wanted = WriteOutcome {
            taken,
            ended: if fault.is_none() { Ok(()) } else { Err(Failed) },
            nothing: Ok(0),
            faults: (None, fault),
        };
        let got = filled_by(rt.alloc(), whole.as_slice(), most, steps);
        assert_at!(rt; (most, count, fault), got == wanted);
    }
    Ok(())
}

// The source has these octets, and then its end.
fn expect_octets<S: Source>(
    rt: &(impl Abort + Eprint),
    alloc: Global,
    source: &mut S,
    octets: &Vec<u8>,
) -> Result<(), Fail> {
    let (read, failed) = drained(alloc, source)?;
    assert_equal!(rt; read.as_slice(), octets.as_slice());
    assert_equal!(rt; failed, 0);
    assert_equal_at!(rt; "it stays at its end",
        source.read(&mut [0u8; 8]),
        Ok(0),
    );
    Ok(())
}

#[test]
fn a_file_is_opened_at_its_first_use(rt: HostRuntime) -> Result<(), Fail> {
    let whole = octets(rt.alloc())?;
    let mut source = FileSource::new(&rt, "late.toml");
    let before = source.fault();
    let read = source.read(&mut [0u8; 8]);
    assert_equal_at!(rt; "it is not there", (before, read), (None, Err(Failed)));
    let mut sink = WriterSink::new(fs::create(&rt, "late.toml")?);
    assert_equal!(rt; write_all(&mut sink, whole.as_slice()), Ok(()));
    expect_octets(&rt, rt.alloc(), &mut source, &whole)?;
    assert_equal_at!(rt; "it is kept",
        source.fault(),
        Some(ErrorKind::NotFound),
    );
    let mut reader = ReaderSource::new(fs::open(&rt, "late.toml")?);
    expect_octets(&rt, rt.alloc(), &mut reader, &whole)
}

#[test]
fn a_folder_has_no_octets(rt: HostRuntime) -> Result<(), Fail> {
    let mut by_path = FileSource::new(&rt, ".");
    let mut opened = ReaderSource::new(fs::open(&rt, ".")?);
    for _ in 0..2 {
        let read = (by_path.read(&mut [0u8; 8]), opened.read(&mut [0u8; 8]));
        assert_equal!(rt; read, (Err(Failed), Err(Failed)));
        let faults = (by_path.fault(), opened.fault());
        let folder = Some(ErrorKind::IsADirectory);
        assert_equal!(rt; faults, (folder, folder));
    }
    Ok(())
}

#[test]
fn a_pipe_gives_what_was_written_and_then_its_end(rt: HostRuntime) -> Result<(), Fail> {
    let whole = octets(rt.alloc())?;
    let (reader, writer) = io::pipe(&rt)?;
    let mut sink = WriterSink::new(writer);
    assert_equal!(rt; write_all(&mut sink, whole.as_slice()), Ok(()));
    drop(sink);
    expect_octets(&rt, rt.alloc(), &mut ReaderSource::new(reader), &whole)
}

#[test]
fn a_pipe_that_the_other_side_closed_fails(rt: HostRuntime) -> Result<(), Fail> {
    let (reader, writer) = io::pipe(&rt)?;
    drop(reader);
    let mut sink = WriterSink::new(writer);
    let written = sink.write(b"x");
    assert_equal!(rt; (written, sink.fault()), (Err(Failed), Some(ErrorKind::BrokenPipe)));
    Ok(())
}

#[test]
fn a_device_that_is_full_fails(rt: HostRuntime) -> Result<(), Fail> {
    let mut sink = WriterSink::new(File::options().write(true).open(&rt, "/dev/full")?);
    let written = sink.write(b"x");
    assert_equal!(rt; (written, sink.fault()), (Err(Failed), Some(ErrorKind::StorageFull)));
    Ok(())
}

#[test]
fn a_file_that_is_open_for_reading_takes_nothing(rt: HostRuntime) -> Result<(), Fail> {
    fs::write(&rt, "read.toml", "x")?;
    let mut sink = WriterSink::new(fs::open(&rt, "read.toml")?);
    assert_equal!(rt; sink.write(b"x"), Err(Failed));
    assert_at!(rt; "the system said why", sink.fault().is_some());
    Ok(())
}
