//! The top call asks its source until it has answered the end, and not again; and not at all where it needs no text.

ghost use Rattle.std.specs.Prelude.{None};

use crate::graph::GRAPH;
use crate::run_tests::words_of;
use rc_io::{Failed, MemSink, Source};
use rc_maps::Seed;
use rc_store::OpenGate;
use rc_top::relc;
use std::alloc::Global;
use std::sync::Wait;
use std::test::Fail;
use std::thread::Threads;

/// The most bytes that an answer may have.
const ROOM: usize = 1 << 16;

/// Gives its bytes and then the end, and counts how often it is asked, and how often it answers the end.
#[derive(Drop)]
struct Watched<'a> {
    left: &'a [u8],
    asked: u64,
    ends: u64,
}

impl Source for Watched<'_> {
    ghost left = { λ _. None };

    ghost faults = { λ _. 0 };

    fn read_some(&mut self, buf: &mut [u8]) -> Result<usize, Failed> {
        self.asked = self.asked.saturating_add(1);
        let count = self.left.len().min(buf.len());
        if count == 0 {
            self.ends = self.ends.saturating_add(1);
            return Ok(0);
        }
        let (now, later) = self.left.split_at(count);
        buf[..count].copy_from_slice(now);
        self.left = later;
        Ok(count)
    }
}

/// How often the words ask, and how often they are answered the end.
fn asked<R: Threads + Wait + Sync>(
    rt: &R,
    alloc: Global,
    arguments: &[&str],
) -> Result<(u64, u64), Fail> {
    let words = words_of(alloc, arguments)?;
    let mut sink = MemSink::new(alloc, ROOM, ROOM, Vec::new(alloc))?;
    let mut source = Watched {
        left: GRAPH,
        asked: 0,
        ends: 0,
    };
    relc(
        rt,
        alloc,
        Seed::fixed(),
        &words,
        &mut source,
        &mut sink,
        &OpenGate,
    );
    Ok((source.asked, source.ends))
}

/// How often words ask, and how often they are answered the end.
const ASKED: [(&[&str], (u64, u64)); 5] = [
    (&["check"], (2, 1)),
    (&["plan"], (2, 1)),
    (&["run"], (2, 1)),
    (&["big", "7", "4"], (0, 0)),
    (&["run", "run"], (0, 0)),
];

#[test]
fn the_end_is_asked_for_once_and_nothing_without_a_text(rt: HostRuntime) -> Result<(), Fail> {
    for (words, want) in ASKED {
        assert_eq!(&rt; asked(&rt, rt.alloc(), words)?, want);
    }
    Ok(())
}
