ghost use Rattle.std.specs.Prelude.{◌≡◌};
ghost use Rattle.rc_answer.specs.declared.status.Stop.TheVariants as stops;

use rc_io::WriteFault;
use rc_tuple::Memory;

/// How a command ended.
#[derive(Clone, Copy, Debug, PartialEq, Eq)]
pub enum Status {
    /// It did all that was asked, and wrote the whole text.
    Done,
    /// The judged report isn't that of a run; its first bad line is written.
    Bad,
    /// The words are no command; the usage line is written.
    Usage,
    /// A rule is broken, or the text is too long; the refusal is written.
    Refused,
    /// A read failed; nothing is written.
    SourceFailed,
    /// A write failed; a prefix of the text is written.
    SinkFailed,
    /// Memory was wanted and not given; nothing or a prefix of the text is written.
    OutOfMemory,
}

impl Status {
    ghost use Rattle.rc_answer.specs.Statuses.{status_code};

    /// The program's exit status.
    pub fn code(self) -> u8
        ensures { result ≡ status_code self }
    {
        match self {
            Status::Done => 0,
            Status::Bad => 1,
            Status::Usage => 2,
            Status::Refused => 3,
            Status::SourceFailed => 4,
            Status::SinkFailed => 5,
            Status::OutOfMemory => 6,
        }
    }
}

/// Why the writing of a text stopped.
#[derive(Clone, Copy, Debug, PartialEq, Eq)]
pub enum Stop {
    /// Memory was wanted and not given.
    Memory,
    /// A write failed.
    Sink,
}

impl From<Memory> for Stop {
    ghost from_gives = { λ _ stop. stop ≡ stops.Memory };

    fn from(_: Memory) -> Self {
        Stop::Memory
    }
}

impl From<WriteFault> for Stop {
    ghost from_gives = { λ _ stop. stop ≡ stops.Sink };

    fn from(_: WriteFault) -> Self {
        Stop::Sink
    }
}

impl Stop {
    ghost use Rattle.rc_answer.specs.Statuses.{stop_status};

    /// The status that answers it.
    pub fn status(self) -> Status
        ensures { result ≡ stop_status self }
    {
        match self {
            Stop::Memory => Status::OutOfMemory,
            Stop::Sink => Status::SinkFailed,
        }
    }
}
