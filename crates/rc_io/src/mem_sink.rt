//! A sink over memory.

ghost use Rattle.std.specs.Prelude.{◌≡◌, ◌-◌, ◌<◌, ◌≤◌, ◌↔◌, ◌⊎◌, ◌++◌, [], Some, length, take, Contains, IfOk, IsErr, OnErr, OnOk};
ghost use Rattle.rc_io.specs.Counts.{Rose, next};
ghost use Rattle.rc_io.specs.Streams.{MemSinkState, amount};

use crate::{Failed, Sink};
use rc_tuple::Memory;
use std::alloc::Global;
use std::marker::Model;

/// A sink over memory of a fixed size, which fails at the calls that it is told, and where it is
/// full.
#[derive(Debug, Drop)]
pub struct MemSink {
    bytes: Vec<u8>,
    room: usize,
    piece: usize,
    fail: Vec<u64>,
    calls: u64,
    faults: u64,
}

impl Model for MemSink {
    ghost use Rattle.std.specs.Prelude.{◌≤◌, vec_len, vec_capacity};
    ghost use Rattle.rc_io.specs.Streams.{MemSinkState};

    ghost Value = { MemSinkState };

    ghost view = { λ a. record {
      held = a.bytes.items;
      room = a.room;
      piece = a.piece;
      fail = a.fail.items;
      calls = a.calls;
      faults = a.faults;
    } };

    ghost invariant = { λ a. (vec_len a.bytes ≤ a.room) × (a.room ≤ vec_capacity a.bytes)
        × (1 ≤ a.piece) };
}

impl MemSink {
    /// An empty sink that takes at most `piece` bytes in a call, and holds at most `room`. The calls
    /// with the numbers in `fail`, counted from 1, fail. Each call after the one with the last
    /// number of a `u64` has that number too. The memory of `room` bytes is taken here, and no
    /// write takes any.
    pub fn new(alloc: Global, room: usize, piece: usize, fail: Vec<u64>) -> Result<MemSink, Memory>
        requires room { 1 ≤ room }
        requires piece { 1 ≤ piece }
        ensures { IfOk result (λ s. s ≡ record {
          held = [];
          room = room;
          piece = piece;
          fail = fail.items;
          calls = 0;
          faults = 0;
        }) }
    {
        Ok(MemSink {
            bytes: Vec::with_capacity(alloc, room)?,
            room,
            piece,
            fail,
            calls: 0,
            faults: 0,
        })
    }

    /// The bytes that it holds.
    pub fn bytes(&self) -> &[u8]
        ensures { result.now ≡ self.now.held }
    {
        &self.bytes
    }
}

impl Sink for MemSink {
    ghost held = { λ s. Some s.held };

    ghost faults = { λ s. s.faults };

    fn write_some(&mut self, buf: &[u8]) -> Result<usize, Failed>
        requires { 0 < length buf.now }
        ensures some { IfOk result (λ n. (0 < n) × (n ≤ length buf.now)) }
        ensures amount { IfOk result (λ n.
            n ≡ amount self.old.piece (length buf.now) (self.old.room - length self.old.held)) }
        ensures bytes { IfOk result (λ n. self.new.held ≡ self.old.held ++ take n buf.now) }
        ensures ok { OnOk result (self.new ≡ record self.old {
          calls = next self.old.calls;
          held = self.new.held;
        }) }

        ensures fails { IsErr result ↔ ((length self.old.held ≡ self.old.room)
            ⊎ Contains self.old.fail (next self.old.calls)) }
        ensures err { OnErr result (self.new ≡ record self.old {
          calls = next self.old.calls;
          faults = next self.old.faults;
        }) }
        ensures failed { OnErr result (Rose self.old.faults self.new.faults) }
        ensures quiet { OnOk result (self.new.faults ≡ self.old.faults) }
        ensures count { self.old.faults ≤ self.new.faults }
    {
        self.calls = self.calls.saturating_add(1);
        let free = self.room - self.bytes.len();
        if free == 0 || self.fail.contains(&self.calls) {
            self.faults = self.faults.saturating_add(1);
            return Err(Failed);
        }
        let count = self.piece.min(buf.len()).min(free);
        match self.bytes.extend_from_slice(&buf[..count]) {
            Ok(()) => Ok(count),
            Err(_) => unreachable!(),
        }
    }
}
