//! Sources and sinks over memory, over readers and writers that fail, and over the standard streams.
ghost use Rattle.std.specs.Prelude.{◌≤◌, IfOk};

use ft_io::{MemSink, MemSource, QuietSink, QuietSource, Sink, Source, StdSink, StdSource};
use std::io::{self, Cursor, ErrorKind, Read, Write};
use std::process::Abort;
use std::test::Fail;

// Takes into a buffer of 4 bytes, once for each piece that is wanted. None is a failure.
fn check_takes<S: Source>(rt: &impl Abort, source: &mut S, wanted: &[Option<&[u8]>]) {
    for want in wanted {
        let mut buf = [0u8; 4];
        let got = match source.take(&mut buf) {
            Ok(count) => Some(&buf[..count]),
            Err(_) => None,
        };
        assert_eq!(rt; got, *want);
    }
}

// Puts each piece, and compares the count. None is a failure.
fn check_puts<S: Sink>(rt: &impl Abort, sink: &mut S, wanted: &[(&[u8], Option<usize>)]) {
    for (piece, want) in wanted {
        assert_eq!(rt; sink.put(piece).ok(), *want, "at {piece:?}");
    }
}

const AROUND_A_FAILURE: [Option<&[u8]>; 6] = [
    Some(b"abc"),
    None,
    Some(b"def"),
    Some(b"gh"),
    Some(b""),
    Some(b""),
];

#[test]
fn a_source_over_memory_goes_on_after_a_failure(rt: HostRuntime) -> Result<(), Fail> {
    let bytes = b"abcdefgh".to_vec(rt.alloc())?;
    let fails = vec![in rt.alloc(); 2]?;
    let mut source = MemSource::new(bytes, 3, fails);
    check_takes(&rt, &mut source, &AROUND_A_FAILURE);
    assert_eq!(rt; source.faults(), 1);
    Ok(())
}

const FULL_BUFFERS: [Option<&[u8]>; 3] = [Some(b"abcd"), Some(b"ef"), Some(b"")];

#[test]
fn a_source_over_memory_fills_the_buffer(rt: HostRuntime) -> Result<(), Fail> {
    let bytes = b"abcdef".to_vec(rt.alloc())?;
    let mut source = MemSource::new(bytes, 100, Vec::new(rt.alloc()));
    assert_eq!(rt; source.take(&mut []), Ok(0));
    check_takes(&rt, &mut source, &FULL_BUFFERS);
    assert_eq!(rt; source.faults(), 0);
    Ok(())
}

const PUT_UNTIL_FULL: [(&[u8], Option<usize>); 7] = [
    (b"abcdef", Some(3)),
    (b"def", None),
    (b"", Some(0)),
    (b"def", Some(2)),
    (b"f", None),
    (b"", Some(0)),
    (b"f", None),
];

#[test]
fn a_sink_over_memory_fails_when_reported_and_when_full(rt: HostRuntime) -> Result<(), Fail> {
    let fails = vec![in rt.alloc(); 2]?;
    let mut sink = MemSink::new(rt.alloc(), 5, 3, fails)?;
    check_puts(&rt, &mut sink, &PUT_UNTIL_FULL);
    assert_eq!(rt; sink.bytes(), b"abcde".as_slice());
    assert_eq!(rt; sink.faults(), 3);
    Ok(())
}

const TAKEN_QUIETLY: [Option<&[u8]>; 3] = [Some(b"abcd"), Some(b"ef"), Some(b"")];

const PUT_QUIETLY: [(&[u8], Option<usize>); 3] = [
    (b"abcdef", Some(6)),
    (b"", Some(0)),
    (b"g", Some(1)),
];

#[test]
fn quiet_streams_never_fail(rt: HostRuntime) -> Result<(), Fail> {
    let mut source = QuietSource::new(b"abcdef".to_vec(rt.alloc())?);
    assert_eq!(rt; source.take(&mut []), Ok(0));
    check_takes(&rt, &mut source, &TAKEN_QUIETLY);

    check_puts(&rt, &mut QuietSink::new(), &PUT_QUIETLY);
    Ok(())
}

// A stream whose first call is interrupted, whose third fails, whose fifth moves no byte and whose
// sixth can't be flushed. Each other call moves up to two bytes.
#[derive(Drop)]
struct Unsteady {
    calls: u8,
}

impl Unsteady {
    fn answer(&mut self, len: usize) -> io::Result<usize>
        ensures { IfOk result (λ n. n ≤ len) }
    {
        self.calls = self.calls.saturating_add(1);
        match self.calls {
            1 => Err(ErrorKind::Interrupted.into()),
            3 => Err(ErrorKind::BrokenPipe.into()),
            5 => Ok(0),
            _ => Ok(len.min(2)),
        }
    }
}

impl Read for Unsteady {
    fn read(&mut self, buf: &mut [u8]) -> io::Result<usize> {
        let count = self.answer(buf.len())?;
        for byte in &mut buf[..count] {
            *byte = b'x';
        }
        Ok(count)
    }
}

impl Write for Unsteady {
    fn write(&mut self, buf: &[u8]) -> io::Result<usize> {
        self.answer(buf.len())
    }

    fn flush(&mut self) -> io::Result<()> {
        if self.calls == 6 {
            return Err(ErrorKind::BrokenPipe.into());
        }
        Ok(())
    }
}

const WHOLE_READER: [Option<&[u8]>; 3] = [Some(b"abcd"), Some(b"ef"), Some(b"")];

const BROKEN_READER: [Option<&[u8]>; 4] = [Some(b"xx"), None, Some(b"xx"), Some(b"")];

#[test]
fn a_source_over_a_reader_counts_its_errors(rt: HostRuntime) {
    let mut source = StdSource::new(Cursor::new(*b"abcdef"));
    check_takes(&rt, &mut source, &WHOLE_READER);
    assert_eq!(rt; source.faults(), 0);

    let mut source = StdSource::new(Unsteady { calls: 0 });
    check_takes(&rt, &mut source, &BROKEN_READER);
    assert_eq!(rt; source.faults(), 1);
}

const BROKEN_WRITER: [(&[u8], Option<usize>); 7] = [
    (b"abc", Some(2)),
    (b"abc", None),
    (b"abc", Some(2)),
    (b"abc", None),
    (b"abc", None),
    (b"", Some(0)),
    (b"abc", Some(2)),
];

#[test]
fn a_sink_over_a_writer_counts_its_errors(rt: HostRuntime) {
    let mut sink = StdSink::new(Unsteady { calls: 0 });
    check_puts(&rt, &mut sink, &BROKEN_WRITER);
    assert_eq!(rt; sink.faults(), 3);
}

// A writer that passes on what it was given only when it is flushed.
#[derive(Drop)]
struct Lazy {
    held: Vec<u8>,
    passed: Vec<u8>,
    flushes: u8,
}

impl Write for Lazy {
    fn write(&mut self, buf: &[u8]) -> io::Result<usize> {
        if self.held.extend_from_slice(buf).is_err() {
            return Err(ErrorKind::OutOfMemory.into());
        }
        Ok(buf.len())
    }

    fn flush(&mut self) -> io::Result<()> {
        self.flushes = self.flushes.saturating_add(1);
        if self.passed.extend_from_slice(&self.held).is_err() {
            return Err(ErrorKind::OutOfMemory.into());
        }
        self.held.clear();
        Ok(())
    }
}

#[test]
fn a_sink_over_a_writer_flushes_each_piece(rt: HostRuntime) -> Result<(), Fail> {
    let mut lazy = Lazy {
        held: Vec::new(rt.alloc()),
        passed: Vec::new(rt.alloc()),
        flushes: 0,
    };
    let mut sink = StdSink::new(&mut lazy);
    check_puts(&rt, &mut sink, &[(b"ab", Some(2)), (b"cde", Some(3))]);
    assert_eq!(rt; lazy.passed.as_slice(), b"abcde".as_slice());
    assert_eq!(rt; lazy.held.len(), 0);
    assert_eq!(rt; lazy.flushes, 2);
    Ok(())
}

#[test]
fn a_sink_over_a_writer_reaches_it(rt: HostRuntime) -> Result<(), Fail> {
    let mut held = Vec::new(rt.alloc());
    let mut sink = StdSink::new(&mut held);
    check_puts(
        &rt,
        &mut sink,
        &[(b"ab", Some(2)), (b"", Some(0)), (b"c", Some(1))],
    );
    assert_eq!(rt; sink.faults(), 0);
    assert_eq!(rt; held.as_slice(), b"abc".as_slice());
    Ok(())
}

// What a program's main does with the runtime's streams, and what another thread may be given.
#[test]
fn standard_streams_move_between_threads(rt: HostRuntime) {
    fn moves<T: Send>(_: &T) {}

    let source = StdSource::new(rt.stdin());
    moves(&source);
    let mut sink = StdSink::new(rt.stdout());
    moves(&sink);
    assert_eq!(rt; sink.put(b""), Ok(0));
    let errors = StdSink::new(rt.stderr());
    assert_eq!(rt; errors.faults(), 0);
    moves(&MemSource::new(Vec::new(rt.alloc()), 1, Vec::new(rt.alloc())));
}
