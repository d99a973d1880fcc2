//! The points of a call, at which a gate may hold it.

/// A point that a call reaches.
#[derive(Clone, Copy, Debug, PartialEq, Eq)]
pub enum Point {
    /// Its pass may make one entry more, and it hasn't taken anything yet.
    BeforeLocks,
    /// All its stripes are held, and its reply is known. Nothing can be refused any more.
    BeforeCommit,
    /// It is committed, and still holds all its stripes.
    AfterCommit,
    /// It has given all back.
    Answered,
}

/// Is told of each point that a call reaches, by the call's own thread, which goes on when it returns. A call that is
/// refused reaches no further point. Contracts say nothing of what it is told.
pub trait Gate {
    /// The call of the pass with this number has come to the point.
    fn at(&self, pass: u32, point: Point);
}

/// Does nothing.
#[derive(Clone, Copy, Debug)]
pub struct OpenGate;

impl Gate for OpenGate {
    fn at(&self, _pass: u32, _point: Point) {}
}
