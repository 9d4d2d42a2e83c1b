//! Sources, sinks and files, by what no line of a case reaches: calls that nothing else makes, the objects without
//! faults, and what no clause says of the adapters.
use io_gate::{
    Failed, FileImages, Images, ImagesError, MemSink, NoFaultImages, NoFaultSource, Sink, Source,
    StdSink, StdSource, put_all,
};
use std::alloc::{AllocError, Global};
use std::fs;
use std::io::{self, ErrorKind, Read, Write};
use std::process::Abort;
use std::test::Fail;

/// The bytes 1 to 5.
const FIVE: &[u8] = &[1, 2, 3, 4, 5];

/// Takes so many times, three bytes at most, and compares the bytes and the number of failures.
fn gives<S: Source>(
    rt: &impl Abort,
    alloc: Global,
    source: &mut S,
    calls: u32,
    want: (&[u8], u64),
) -> Result<(), AllocError> {
    let mut bytes = Vec::new(alloc);
    let mut failed = 0u64;
    let mut into = [0; 3];
    for _ in 0..calls {
        match source.take(&mut into) {
            Ok(count) => bytes.extend_from_slice(&into[..count])?,
            Err(Failed) => failed = failed.saturating_add(1),
        }
    }
    assert_eq!(rt; (bytes.as_slice(), failed), want);
    Ok(())
}

/// Reads the file of a name, and compares its bytes or the error.
fn answers<F: Images>(
    rt: &impl Abort,
    alloc: Global,
    files: &mut F,
    name: &str,
    limit: usize,
    want: Result<&[u8], ImagesError>,
) {
    match (files.read_whole(alloc, name, limit), want) {
        (Ok(bytes), Ok(want)) => assert_eq!(rt; bytes.as_slice(), want),
        (answer, want) => assert_eq!(rt; answer.err(), want.err()),
    }
}

/// A reader that gives a byte 7 at a time, and fails at its second call.
#[derive(Drop)]
struct Faulty {
    calls: u8,
}

impl Read for Faulty {
    fn read(&mut self, buf: &mut [u8]) -> io::Result<usize> {
        self.calls = self.calls.saturating_add(1);
        if buf.is_empty() {
            return Ok(0);
        }
        if self.calls == 2 {
            return Err(io::Error::from(ErrorKind::BrokenPipe));
        }
        buf[0] = 7;
        Ok(1)
    }
}

/// A writer that takes two bytes, then none, then fails.
#[derive(Drop)]
struct Stalled {
    calls: u8,
}

impl Write for Stalled {
    fn write(&mut self, buf: &[u8]) -> io::Result<usize> {
        self.calls = self.calls.saturating_add(1);
        match self.calls {
            1 => Ok(buf.len().min(2)),
            2 => Ok(0),
            _ => Err(io::Error::from(ErrorKind::BrokenPipe)),
        }
    }

    fn flush(&mut self) -> io::Result<()> {
        Ok(())
    }
}

/// A source of five bytes, nine a call, of which none fails.
fn whole_source(alloc: Global) -> Result<NoFaultSource, AllocError> {
    Ok(NoFaultSource::new(FIVE.to_vec(alloc)?, 9))
}

#[test]
fn a_put_that_fails_leaves_a_prefix(rt: HostRuntime) -> Result<(), Fail> {
    let mut fails = Vec::new(rt.alloc());
    fails.push(1)?;
    let mut sink = MemSink::new(rt.alloc(), 4, fails);
    let failed = put_all(&mut sink, b"123456");
    let is_prefix = sink.kept() == b"1234".as_slice();
    let more = put_all(&mut sink, b"789ab");
    let none = put_all(&mut sink, b"");
    assert_eq!(rt; [failed, more, none], [Err(Failed), Ok(()), Ok(())]);
    assert!(rt; is_prefix);
    assert_eq!(rt; (sink.kept(), sink.wanting()), (b"1234789ab".as_slice(), 0));
    Ok(())
}

/// The bytes of a file.
const FILE: &[u8] = b"abc";

/// A file of the name "a".
fn one_file(alloc: Global) -> Result<Vec<(String, Vec<u8>)>, AllocError> {
    let mut files = Vec::new(alloc);
    let name = String::from_str(alloc, "a")?;
    files.push((name, FILE.to_vec(alloc)?))?;
    Ok(files)
}

#[test]
fn objects_in_memory_without_faults(rt: HostRuntime) -> Result<(), Fail> {
    let mut source = whole_source(rt.alloc())?;
    gives(&rt, rt.alloc(), &mut source, 3, (FIVE, 0))?;
    let mut files = NoFaultImages::new(one_file(rt.alloc())?);
    let table = [
        ("a", 3, Ok(FILE)),
        ("a", 2, Err(ImagesError::TooLong)),
        ("b", 3, Err(ImagesError::Missing)),
    ];
    for (name, limit, want) in table {
        answers(&rt, rt.alloc(), &mut files, name, limit, want);
    }
    Ok(())
}

#[test]
fn a_reader_is_a_source(rt: HostRuntime) -> Result<(), Fail> {
    let mut source = StdSource::new(FIVE);
    gives(&rt, rt.alloc(), &mut source, 3, (FIVE, 0))?;
    let mut source = StdSource::new(Faulty { calls: 0 });
    gives(&rt, rt.alloc(), &mut source, 3, (&[7, 7], 1))?;
    Ok(())
}

/// What three puts answer on a writer that takes two bytes, then none, then fails.
fn stalled_puts() -> [Result<usize, Failed>; 3] {
    let mut sink = StdSink::new(Stalled { calls: 0 });
    [sink.put(b"123"), sink.put(b"3"), sink.put(b"3")]
}

#[test]
fn a_writer_is_a_sink(rt: HostRuntime) -> Result<(), Fail> {
    fs::write(&rt, "written.bin", "")?;
    let mut sink = StdSink::new(fs::create(&rt, "written.bin")?);
    let put = put_all(&mut sink, b"hi\n");
    let bytes = fs::read(&rt, "written.bin")?;
    assert_eq!(rt; (put, bytes.as_slice()), (Ok(()), b"hi\n".as_slice()));
    assert_eq!(rt;
        stalled_puts(),
        [Ok(2), Err(Failed), Err(Failed)],
        "two bytes, a write of no bytes, an error"
    );
    Ok(())
}

#[test]
fn files_of_the_system_are_read_to_a_limit(rt: HostRuntime) -> Result<(), Fail> {
    let mut bytes = Vec::new(rt.alloc());
    for number in 0..10_000u32 {
        bytes.push((number % 251) as u8)?;
    }
    fs::write(&rt, "a.bin", bytes.as_slice())?;
    fs::write(&rt, " a.bin ", FILE)?;
    let mut files = FileImages::new(&rt);
    let table = [
        ("a.bin", 10_000, Ok(bytes.as_slice())),
        ("a.bin", 9_999, Err(ImagesError::TooLong)),
        (" a.bin ", 3, Ok(FILE)),
        ("b.bin", 1, Err(ImagesError::Failed)),
    ];
    for (name, limit, want) in table {
        answers(&rt, rt.alloc(), &mut files, name, limit, want);
    }
    Ok(())
}
