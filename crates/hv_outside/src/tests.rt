//! Each call once, in memory, with failing calls, and on real files.
use super::*;
use crate::std_files::read_whole;
use hv_base::{List, Text};
use std::alloc::{AllocError, Global};
use std::io::{self, ErrorKind, Read, Write};
use std::test::Fail;
use std::{env, fs, process};

/// Whether a read gave these bytes.
fn gave(answer: &Result<Got, FileFault>, want: &[u8]) -> bool {
    match answer {
        Ok(Got::Bytes(bytes)) => bytes.as_slice() == want,
        _ => false,
    }
}

/// The length that a read said to be too big.
fn too_big(answer: &Result<Got, FileFault>) -> Option<u64> {
    match answer {
        Ok(Got::TooBig(size)) => Some(*size),
        _ => None,
    }
}

fn zeros(alloc: Global, count: usize) -> Result<Text, AllocError> {
    Ok(Text::from_vec(vec![in alloc; 0u8; count]?))
}

#[test]
fn files_in_memory_give_what_was_put(rt: HostRuntime) -> Result<(), Fail> {
    let alloc = rt.alloc();
    let mut files = SafeFiles::new(alloc);
    files.put("a.c", Text::from_slice(alloc, b"int a;")?)?;
    files.put("b.c", Text::from_slice(alloc, b"int b;")?)?;
    files.put("a.c", Text::from_slice(alloc, b"char a;")?)?;
    assert!(rt; gave(&files.read(alloc, "a.c"), b"char a;"));
    assert!(rt; gave(&files.read(alloc, "b.c"), b"int b;"));
    assert!(rt; matches!(files.read(alloc, "c.c"), Ok(Got::Absent)));
    Ok(())
}

#[test]
fn files_end_at_the_limit(rt: HostRuntime) -> Result<(), Fail> {
    let alloc = rt.alloc();
    let mut files = SafeFiles::new(alloc);
    files.put("most", zeros(alloc, 16_777_216)?)?;
    files.put("more", zeros(alloc, 16_777_217)?)?;
    assert_eq!(rt; too_big(&files.read(alloc, "more")), Some(16_777_217));
    assert!(rt; matches!(files.read(alloc, "most"), Ok(Got::Bytes(_))));
    Ok(())
}

#[test]
fn files_fail_at_the_given_calls(rt: HostRuntime) -> Result<(), Fail> {
    let alloc = rt.alloc();
    let mut files = MemFiles::new(alloc, List::from_slice(alloc, &[2, 4])?);
    files.put("a.c", Text::from_slice(alloc, b"int a;")?)?;
    assert!(rt; gave(&files.read(alloc, "a.c"), b"int a;"));
    assert!(rt; matches!(files.read(alloc, "a.c"), Err(FileFault::Failed)));
    assert!(rt; matches!(files.read(alloc, "b.c"), Ok(Got::Absent)));
    assert!(rt; matches!(files.read(alloc, "b.c"), Err(FileFault::Failed)));
    assert!(rt; gave(&files.read(alloc, "a.c"), b"int a;"));
    Ok(())
}

#[test]
fn sources_give_their_bytes(rt: HostRuntime) -> Result<(), Fail> {
    let alloc = rt.alloc();
    let mut buf = [0u8; 3];
    let mut source = SafeSource::new(Text::from_slice(alloc, b"abcde")?);
    assert_eq!(rt; source.read_some(&mut buf), Ok(3));
    assert_eq!(rt; buf, *b"abc");
    assert_eq!(rt; source.read_some(&mut buf), Ok(2));
    assert_eq!(rt; buf, *b"dec");
    assert_eq!(rt; source.read_some(&mut buf), Ok(0));
    Ok(())
}

#[test]
fn sources_fail_at_the_given_calls(rt: HostRuntime) -> Result<(), Fail> {
    let alloc = rt.alloc();
    let mut buf = [0u8; 3];
    let fails = List::from_slice(alloc, &[1, 3])?;
    let mut source = MemSource::new(Text::from_slice(alloc, b"abcde")?, fails);
    let wants = [Err(Failed), Ok(3), Err(Failed), Ok(2), Ok(0)];
    for want in wants {
        assert_eq!(rt; source.read_some(&mut buf), want);
    }
    assert_eq!(rt; buf, *b"dec");
    Ok(())
}

#[test]
fn sinks_get_what_is_written(rt: HostRuntime) -> Result<(), Fail> {
    let mut sink = SafeSink::new(rt.alloc());
    write_all(&mut sink, b"ab")?;
    write_all(&mut sink, b"")?;
    write_all(&mut sink, b"cde")?;
    assert_eq!(rt; sink.bytes(), b"abcde".as_slice());
    Ok(())
}

#[test]
fn a_failed_write_leaves_a_prefix(rt: HostRuntime) -> Result<(), Fail> {
    let alloc = rt.alloc();
    let failed = Err(SinkFault::Failed);
    let table = [
        (1, 1, failed, b"".as_slice()),
        (1, 2, failed, b"a".as_slice()),
        (1, 3, failed, b"ab".as_slice()),
        (1, 4, failed, b"abc".as_slice()),
        (1, 5, failed, b"abcd".as_slice()),
        (1, 6, Ok(()), b"abcde".as_slice()),
        (2, 3, failed, b"abcd".as_slice()),
        (2, 4, Ok(()), b"abcde".as_slice()),
        (9, 2, Ok(()), b"abcde".as_slice()),
    ];
    for (most, number, answer, bytes) in table {
        assert!(rt; most > 0);
        let mut sink = MemSink::new(alloc, most, List::from_slice(alloc, &[number])?);
        assert_eq!(rt; write_all(&mut sink, b"abcde"), answer, "{most} {number}");
        assert_eq!(rt; sink.bytes(), bytes, "{most} {number}");
    }
    Ok(())
}

#[test]
fn real_files_are_read(rt: HostRuntime) -> Result<(), Fail> {
    let alloc = rt.alloc();
    let folder = env::temp_dir(&rt)?;
    // Two runs of the tests at a time write different files.
    let run = process::id(rt.process());
    let small = folder.join(alloc, format!(in alloc; "hv_outside_{run}_small")?.as_str())?;
    let large = folder.join(alloc, format!(in alloc; "hv_outside_{run}_large")?.as_str())?;
    fs::write(&rt, small.as_str(), b"int a;".as_slice())?;
    fs::create(&rt, large.as_str())?.set_len(16_777_217)?;
    let mut files = DirFiles::new(&rt);
    let first = files.read(alloc, small.as_str());
    let second = files.read(alloc, large.as_str());
    fs::remove_file(&rt, small.as_str())?;
    fs::remove_file(&rt, large.as_str())?;
    assert!(rt; gave(&first, b"int a;"));
    assert_eq!(rt; too_big(&second), Some(16_777_217));
    assert!(rt; matches!(files.read(alloc, small.as_str()), Ok(Got::Absent)));
    assert!(rt; matches!(files.read(alloc, folder.as_str()), Err(FileFault::Failed)));
    assert_eq!(rt; too_big(&files.read(alloc, "/dev/zero")), Some(16_842_752));
    Ok(())
}

/// A reader and writer that is interrupted, serves one byte, and then fails.
#[derive(Drop)]
struct Worn {
    calls: u8,
}

impl Worn {
    fn serve(&mut self) -> io::Result<usize> {
        self.calls = self.calls.saturating_add(1);
        match self.calls {
            1 => Err(io::Error::from(ErrorKind::Interrupted)),
            2 => Ok(1),
            3 => Ok(0),
            _ => Err(io::Error::from(ErrorKind::Other)),
        }
    }
}

impl Read for Worn {
    fn read(&mut self, buf: &mut [u8]) -> io::Result<usize> {
        let count = self.serve()?;
        Ok(count.min(buf.len()))
    }
}

impl Write for Worn {
    fn write(&mut self, buf: &[u8]) -> io::Result<usize> {
        let count = self.serve()?;
        Ok(count.min(buf.len()))
    }

    fn flush(&mut self) -> io::Result<()> {
        Ok(())
    }
}

#[test]
fn readers_of_std_are_sources(rt: HostRuntime) {
    let mut buf = [0u8; 3];
    let mut source = StdSource::new(b"abcd".as_slice());
    assert_eq!(rt; source.read_some(&mut buf), Ok(3));
    assert_eq!(rt; buf, *b"abc");
    assert_eq!(rt; source.read_some(&mut buf), Ok(1));
    assert_eq!(rt; source.read_some(&mut buf), Ok(0));
    let mut worn = StdSource::new(Worn { calls: 0 });
    assert_eq!(rt; worn.read_some(&mut buf), Ok(1));
    assert_eq!(rt; worn.read_some(&mut buf), Ok(0));
    assert_eq!(rt; worn.read_some(&mut buf), Err(Failed));
}

#[test]
fn writers_of_std_are_sinks(rt: HostRuntime) -> Result<(), Fail> {
    let mut bytes: Vec<u8> = Vec::new(rt.alloc());
    let mut sink = StdSink::new(&mut bytes);
    write_all(&mut sink, b"abc")?;
    write_all(&mut sink, b"de")?;
    drop(sink);
    assert_eq!(rt; bytes.as_slice(), b"abcde".as_slice());
    let mut worn = StdSink::new(Worn { calls: 0 });
    assert_eq!(rt; worn.write_some(b"ab"), Ok(1));
    assert_eq!(rt; worn.write_some(b"b"), Err(SinkFault::Failed));
    assert_eq!(rt; worn.write_some(b"b"), Err(SinkFault::Failed));
    Ok(())
}

/// A reader that runs out of memory.
#[derive(Drop)]
struct Starved;

impl Read for Starved {
    fn read(&mut self, _buf: &mut [u8]) -> io::Result<usize> {
        Err(io::Error::from(ErrorKind::OutOfMemory))
    }
}

#[test]
fn out_of_memory_in_a_reader_is_no_fault(rt: HostRuntime) {
    let answer = read_whole(&mut Starved, rt.alloc());
    assert!(rt; matches!(answer, Err(FileFault::Memory)));
}

/// A writer that keeps how many bytes it got, and how many of them were flushed.
#[derive(Drop)]
struct Buffered {
    written: usize,
    flushed: usize,
}

impl Write for &mut Buffered {
    fn write(&mut self, buf: &[u8]) -> io::Result<usize> {
        self.written = self.written.saturating_add(buf.len());
        Ok(buf.len())
    }

    fn flush(&mut self) -> io::Result<()> {
        self.flushed = self.written;
        Ok(())
    }
}

#[test]
fn sinks_over_writers_of_std_flush_each_write(rt: HostRuntime) {
    let mut buffered = Buffered {
        written: 0,
        flushed: 0,
    };
    let mut sink = StdSink::new(&mut buffered);
    let first = sink.write_some(b"abc");
    let second = sink.write_some(b"de");
    drop(sink);
    assert_eq!(rt; first, Ok(3));
    assert_eq!(rt; second, Ok(2));
    assert_eq!(rt; buffered.flushed, 5);
}
