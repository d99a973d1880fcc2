ghost use Rattle.std.specs.Prelude.{◌<◌, ◌+◌, ◌^◌, [], get_or, length};
ghost use Rattle.rc_audit.specs.Judging.{HasMet};

use crate::fault::Fault;
use rc_tuple::SmallList;

/// Lines, each without its line feed.
pub(crate) type TextLines = SmallList<SmallList<u8>>;

/// Passes the line where it is the wanted one.
pub(crate) fn meet(line: &[u8], wanted: &[u8]) -> Result<(), Fault>
    ensures { HasMet wanted.now line.now result }
{
    if line == wanted {
        Ok(())
    } else {
        Err(Fault::Bad)
    }
}

/// Passes the line where it is the one at this place of some lines.
pub(crate) fn meet_at(line: &[u8], lines: &TextLines, at: usize) -> Result<(), Fault>
    requires { at < length lines.now }
    ensures met { HasMet (get_or lines.now at []) line.now result }
    ensures few { at + 1 < 2 ^ 64 }
{
    meet(line, lines.list()[at].list())
}
