//! Reads the lines of a language, one after another.

ghost use Rattle.std.specs.Prelude.{◌≡◌, ◌+◌, ◌≤◌, ◌^◌, ℕ, Bool, List, IfOk, IfErr, IfSome};
ghost use Rattle.rc_text.specs.Lines.{content_from, IsLineStart};
ghost use Rattle.rc_text.specs.Reads.{Reads};

use crate::lines::{Line, Lines};

/// A language of lines, by what reading a line does to the state that the lines before it left.
pub trait Language {
    /// What the lines so far leave.
    type State;

    /// Why a line is not read.
    type Fault;

    /// A line is read from one state to another, and is the last that is read, or not.
    ghost reads: { Self → Self.State → List ℕ → Bool → Self.State → Type 0 };

    /// A line is not read behind a state.
    ghost fails: { Self → Self.State → List ℕ → Self.Fault → Type 0 };

    /// Lines may be read from the state on.
    ghost can: { Self → Self.State → Type 0 };

    /// Reads a line into the state, and says whether it was the last. After a fault the state is of no use.
    fn read_line(&self, state: &mut Self::State, bytes: &[u8]) -> Result<bool, Self::Fault>
        requires { can self.now state.old }
        ensures ok { IfOk result (λ ended. reads self.now state.old bytes.now ended state.new) }
        ensures err { IfErr result (λ fault. fails self.now state.old bytes.now fault) }
        ensures can { IfOk result (λ ended. can self.now state.new) };
}

/// A line that is not read.
#[derive(Clone, Copy, Debug)]
pub struct Unread<Fault> {
    /// Why it isn't.
    pub fault: Fault,
    /// Its number.
    pub line: u32,
}

/// Reads lines into the state up to the last one, which is handed out; `None` where they run out before it.
pub fn read_lines<'a, L: Language>(
    language: &L,
    state: &mut L::State,
    lines: &mut Lines<'a>,
) -> Result<Option<Line<'a>>, Unread<L::Fault>>
    requires { L.can language.now state.old }
    ensures lines { Reads (L.reads language.now) (L.fails language.now) state.old (content_from lines.old) result state.new (content_from lines.new) }
    ensures behind { IfOk result (λ read. IfSome read (λ line.
        lines.new ≡ record { text = lines.old.text; at = line.next; line = line.number + 1 })) }
    ensures number { IfOk result (λ read. IfSome read (λ line. line.number ≤ 2 ^ 24)) }
    ensures start { IsLineStart lines.new }
    ensures text { lines.new.text ≡ lines.old.text }
{
    while let Some(line) = lines.next_line() {
        match language.read_line(state, line.bytes) {
            Ok(false) => {}
            Ok(true) => return Ok(Some(line)),
            Err(fault) => {
                return Err(Unread {
                    fault,
                    line: line.number,
                });
            }
        }
    }
    Ok(None)
}
