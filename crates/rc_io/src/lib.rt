//! The outside: sources and sinks of bytes that may fail, and that count how often they did.
#![tactic(auto)]

mod mem_sink;
mod mem_source;
mod sink;
mod source;
mod std_sink;
mod std_source;

pub use mem_sink::MemSink;
pub use mem_source::MemSource;
pub use sink::{Sink, WriteFault, write_all};
pub use source::{Failed, ReadFault, Source, read_all};
pub use std_sink::StdSink;
pub use std_source::StdSource;
