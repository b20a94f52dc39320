//! Writes that fail.
ghost use Rattle.std.specs.Prelude.{None};
ghost use Rattle.hv_outside.specs.Sink.{SinkState};

use super::*;
use hv_outside::{MemSink, SinkFault};

/// An output for whose writes memory runs out.
#[derive(Drop)]
struct StarvedSink {
    calls: u64,
}

impl Sink for StarvedSink {
    ghost state = { λ _. record { written = None; faults = 0 } };

    fn write_some(&mut self, piece: &[u8]) -> Result<usize, SinkFault> {
        let _ = piece;
        self.calls = self.calls.saturating_add(1);
        Err(SinkFault::Memory)
    }
}

#[test]
fn memory_runs_out_in_a_write(rt: HostRuntime) -> Result<(), Fail> {
    let mut files = files_in_memory(rt.alloc(), MODEL_A, WRITES_X_AND_A, &[])?;
    let mut out = StarvedSink { calls: 0 };
    let mut err = SafeSink::new(rt.alloc());
    let status = status(
        rt.alloc(),
        &["encode", "--model", "m", "main.c"],
        &mut files,
        &mut out,
        &mut err,
    )?;
    assert_eq!(rt; status, 5);
    assert_eq!(rt; err.bytes(), b"hercules: want of memory\n".as_slice());
    assert_eq!(rt; out.calls, 1);
    Ok(())
}

/// The status, the output and the messages of `encode --model m main.c` with an output that takes
/// at most `most` bytes a call, and fails at the call of this number.
fn encode_to(alloc: Global, most: usize, fail: u64) -> Result<(u8, MemSink, SafeSink), Fail> {
    if most == 0 {
        return Err("a sink takes at least one byte".into());
    }
    let mut files = files_in_memory(alloc, MODEL_A, WRITES_X_AND_A, &[])?;
    let mut out = MemSink::new(alloc, most, List::from_slice(alloc, &[fail])?);
    let mut err = SafeSink::new(alloc);
    let status = status(
        alloc,
        &["encode", "--model", "m", "main.c"],
        &mut files,
        &mut out,
        &mut err,
    )?;
    Ok((status, out, err))
}

/// The write of this number fails, of writes of at most so many bytes, and only these bytes were
/// written before.
fn assert_fails<R: Abort + AllocGlobal>(
    rt: &R,
    most: usize,
    fail: u64,
    written: &[u8],
) -> Result<(), Fail> {
    let (status, out, err) = encode_to(rt.alloc(), most, fail)?;
    assert_eq!(rt; status, 4);
    assert_eq!(rt; out.bytes(), written);
    assert_eq!(rt; err.bytes(), b"hercules: cannot write\n".as_slice());
    Ok(())
}

#[test]
fn nothing_is_written_after_a_write_that_failed(rt: HostRuntime) -> Result<(), Fail> {
    assert_fails(&rt, 4, 3, b"extern i")?;
    let whole = encoded(rt.alloc(), MODEL_A, WRITES_X_AND_A)?;
    let product = whole.out.bytes();
    // One byte a call.
    for n in 0..product.len() {
        assert_fails(&rt, 1, n as u64 + 1, &product[..n])?;
    }
    let (status, out, err) = encode_to(rt.alloc(), 1, product.len() as u64 + 1)?;
    assert_eq!(rt; status, 0);
    assert_eq!(rt; out.bytes(), product);
    assert_eq!(rt; err.bytes().len(), 0);
    Ok(())
}
