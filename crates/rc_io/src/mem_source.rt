//! A source over memory.

ghost use Rattle.std.specs.Prelude.{◌≡◌, ◌<◌, ◌≤◌, ◌↔◌, ◌++◌, [], Some, length, take, Contains, IfOk, IsErr, OnErr, OnOk};
ghost use Rattle.rc_io.specs.Counts.{Rose, next};
ghost use Rattle.rc_io.specs.Streams.{MemSourceState, amount};

use crate::{Failed, Source};
use std::marker::Model;

/// A source over memory, which fails at the calls that it is told.
#[derive(Debug, Drop)]
pub struct MemSource {
    bytes: Vec<u8>,
    at: usize,
    piece: usize,
    fail: Vec<u64>,
    calls: u64,
    faults: u64,
}

impl Model for MemSource {
    ghost use Rattle.std.specs.Prelude.{◌≤◌, drop, length};
    ghost use Rattle.rc_io.specs.Streams.{MemSourceState};

    ghost Value = { MemSourceState };

    ghost view = { λ a. record {
      left = drop a.at a.bytes.items;
      piece = a.piece;
      fail = a.fail.items;
      calls = a.calls;
      faults = a.faults;
    } };

    ghost invariant = { λ a. (a.at ≤ length a.bytes.items) × (1 ≤ a.piece) };
}

impl MemSource {
    /// A source that gives at most `piece` bytes in a call. The calls with the numbers in `fail`,
    /// counted from 1, fail. Each call after the one with the last number of a `u64` has that
    /// number too.
    pub fn new(bytes: Vec<u8>, piece: usize, fail: Vec<u64>) -> MemSource
        requires { 1 ≤ piece }
        ensures { result ≡ record {
          left = bytes.items;
          piece = piece;
          fail = fail.items;
          calls = 0;
          faults = 0;
        } }
    {
        MemSource {
            bytes,
            at: 0,
            piece,
            fail,
            calls: 0,
            faults: 0,
        }
    }
}

/// Copies the next bytes to the front of `buf`, at most `piece`.
fn give(bytes: &[u8], piece: usize, buf: &mut [u8]) -> usize
    ensures amount { result ≡ amount piece (length buf.old) (length bytes.now) }
    ensures copied { take result buf.new ≡ take result bytes.now }
{
    let count = piece.min(buf.len()).min(bytes.len());
    buf[..count].copy_from_slice(&bytes[..count]);
    count
}

impl Source for MemSource {
    ghost left = { λ s. Some s.left };

    ghost faults = { λ s. s.faults };

    fn read_some(&mut self, buf: &mut [u8]) -> Result<usize, Failed>
        requires { 0 < length buf.old }
        ensures fits { IfOk result (λ n. n ≤ length buf.new) }
        ensures end { IfOk result (λ n. n ≡ 0 → self.old.left ≡ []) }
        ensures amount { IfOk result (λ n.
            n ≡ amount self.old.piece (length buf.old) (length self.old.left)) }
        ensures bytes { IfOk result (λ n. self.old.left ≡ take n buf.new ++ self.new.left) }
        ensures ok { OnOk result (self.new ≡ record self.old {
          calls = next self.old.calls;
          left = self.new.left;
        }) }

        ensures fails { IsErr result ↔ Contains self.old.fail (next self.old.calls) }
        ensures err { OnErr result (self.new ≡ record self.old {
          calls = next self.old.calls;
          faults = next self.old.faults;
        }) }
        ensures failed { OnErr result (Rose self.old.faults self.new.faults) }
        ensures quiet { OnOk result (self.new.faults ≡ self.old.faults) }
        ensures count { self.old.faults ≤ self.new.faults }
    {
        self.calls = self.calls.saturating_add(1);
        if self.fail.contains(&self.calls) {
            self.faults = self.faults.saturating_add(1);
            return Err(Failed);
        }
        let count = give(&self.bytes[self.at..], self.piece, buf);
        self.at += count;
        Ok(count)
    }
}
