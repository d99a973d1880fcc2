//! A sink over a writer.

ghost use Rattle.std.specs.Prelude.{◌≡◌, ℕ, ◌<◌, ◌≤◌, None, length, take, IfOk, OnOk, OnErr};
ghost use Rattle.std.specs.Io.KnownBytes.{Appends};
ghost use Rattle.rc_io.specs.Counts.{Rose, next};

use crate::{Failed, Sink};
use std::io::Write;
use std::marker::Model;

/// A sink over a writer, as standard output. It tells nothing of the bytes, and hands them to the
/// writer. What standard output does with them, and when a write to it fails, is trusted.
#[derive(Debug, Drop)]
pub struct StdSink<W> {
    writer: W,
    faults: u64,
}

impl<W> Model for StdSink<W> {
    ghost use Rattle.rc_io.specs.Streams.{StdSinkState};

    ghost Value = { StdSinkState W };

    ghost view = { λ a. record { writer = a.writer; faults = a.faults } };
}

impl<W: Write> StdSink<W> {
    /// A sink that has had no fault.
    pub fn new(writer: W) -> Self
        ensures { result ≡ record { writer = writer; faults = 0 } }
    {
        StdSink { writer, faults: 0 }
    }
}

/// One write and one flush. An error of either is a fault, and so is a write of nothing.
fn write_through<W: Write>(writer: &mut W, buf: &[u8]) -> Result<usize, Failed>
    requires { 0 < length buf.now }
    ensures some { IfOk result (λ n. (0 < n) × (n ≤ length buf.now)) }
    ensures ok { IfOk result (λ n.
        Appends (W.contents writer.old) (W.contents writer.new) (take n buf.now)) }
    ensures err { OnErr result ((n : ℕ) × (n ≤ length buf.now)
        × Appends (W.contents writer.old) (W.contents writer.new) (take n buf.now)) }
{
    match writer.write(buf) {
        Ok(0) | Err(_) => Err(Failed),
        Ok(n) => match writer.flush() {
            Ok(()) => Ok(n),
            Err(_) => Err(Failed),
        },
    }
}

impl<W: Write> Sink for StdSink<W> {
    ghost held = { λ _. None };

    ghost faults = { λ s. s.faults };

    /// One write of the writer, which is then flushed. After a fault the writer may have a part of
    /// the bytes.
    fn write_some(&mut self, buf: &[u8]) -> Result<usize, Failed>
        requires { 0 < length buf.now }
        ensures some { IfOk result (λ n. (0 < n) × (n ≤ length buf.now)) }
        ensures writer_ok { IfOk result (λ n.
            Appends (W.contents self.old.writer) (W.contents self.new.writer) (take n buf.now)) }
        ensures writer_err { OnErr result ((n : ℕ) × (n ≤ length buf.now)
            × Appends (W.contents self.old.writer) (W.contents self.new.writer) (take n buf.now)) }
        ensures quiet { OnOk result (self.new.faults ≡ self.old.faults) }
        ensures fault { OnErr result (self.new.faults ≡ next self.old.faults) }
        ensures failed { OnErr result (Rose self.old.faults self.new.faults) }
        ensures count { self.old.faults ≤ self.new.faults }
    {
        let result = write_through(&mut self.writer, buf);
        if result.is_err() {
            self.faults = self.faults.saturating_add(1);
        }
        result
    }
}
