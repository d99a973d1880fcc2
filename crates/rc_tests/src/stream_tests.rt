//! Streams over a reader and a writer, whose own faults no clause speaks of.

use rc_io::{ReadFault, StdSink, StdSource, WriteFault, read_all, write_all};
use std::alloc::Global;
use std::io;
use std::io::{ErrorKind, Read, Write};
use std::test::Fail;

const TEXT: &[u8] = b"plan ins\nlock k1 keyed\n";

/// Gives its bytes, and then fails.
#[derive(Drop)]
struct Torn<'a> {
    bytes: &'a [u8],
}

impl Read for Torn<'_> {
    fn read(&mut self, buf: &mut [u8]) -> io::Result<usize> {
        if self.bytes.is_empty() {
            return Err(io::Error::from(ErrorKind::BrokenPipe));
        }
        self.bytes.read(buf)
    }
}

#[test]
fn reads_from_a_reader(rt: HostRuntime) -> Result<(), Fail> {
    let mut reader = TEXT;
    let mut source = StdSource::new(&mut reader);
    assert_eq!(rt; read_all(rt.alloc(), &mut source, 100)?.as_slice(), TEXT);
    Ok(())
}

#[test]
fn fails_where_the_reader_fails(rt: HostRuntime) {
    let mut source = StdSource::new(Torn { bytes: TEXT });
    assert_eq!(rt;
        read_all(rt.alloc(), &mut source, 100).err(),
        Some(ReadFault::Source)
    );
}

/// Takes at most 7 bytes in a write, and shows them once they are flushed. The flush after `lasts` others fails.
#[derive(Drop)]
struct Held {
    taken: Vec<u8>,
    shown: usize,
    lasts: u32,
}

impl Write for Held {
    fn write(&mut self, buf: &[u8]) -> io::Result<usize> {
        let count = buf.len().min(7);
        self.taken.extend_from_slice(&buf[..count])?;
        Ok(count)
    }

    fn flush(&mut self) -> io::Result<()> {
        if self.lasts == 0 {
            return Err(io::Error::from(ErrorKind::BrokenPipe));
        }
        self.lasts -= 1;
        self.shown = self.taken.len();
        Ok(())
    }
}

fn writer_that_lasts(alloc: Global, lasts: u32) -> Held {
    Held {
        taken: Vec::new(alloc),
        shown: 0,
        lasts,
    }
}

#[test]
fn writes_to_a_writer(rt: HostRuntime) {
    let mut writer = writer_that_lasts(rt.alloc(), 9);
    assert_eq!(rt; write_all(&mut StdSink::new(&mut writer), TEXT), Ok(()));
    assert_eq!(rt; writer.shown, 23);
}

#[test]
fn fails_where_a_flush_fails(rt: HostRuntime) {
    let mut writer = writer_that_lasts(rt.alloc(), 2);
    assert_eq!(rt;
        write_all(&mut StdSink::new(&mut writer), TEXT),
        Err(WriteFault::Sink)
    );
    assert_eq!(rt; writer.shown, 14);
}

#[test]
fn fails_where_the_writer_is_full(rt: HostRuntime) {
    let mut four = [0u8; 4];
    let mut full = four.as_mut_slice();
    assert_eq!(rt;
        write_all(&mut StdSink::new(&mut full), TEXT),
        Err(WriteFault::Sink)
    );
}
