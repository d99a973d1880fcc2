//! What is appended to a text that is being written. Where memory is wanted, the text stays as it was.

ghost use Rattle.std.specs.Prelude.{◌≡◌, ◌++◌, decimal, length, take, OnOk, OnErr};
ghost use Rattle.rc_text.specs.Words.{quoted};

use itoa::Buffer;
use rc_tuple::Memory;

/// Appends the decimal digits of a number, with no zero in front.
pub fn push_u64(out: &mut Vec<u8>, number: u64) -> Result<(), Memory>
    ensures ok { OnOk result (out.new.items ≡ out.old.items ++ decimal number) }
    ensures err { OnErr result (out.new.items ≡ out.old.items) }
{
    let mut buffer = Buffer::new();
    push_bytes(out, buffer.format(number).as_bytes())
}

/// Appends bytes.
pub fn push_bytes(out: &mut Vec<u8>, bytes: &[u8]) -> Result<(), Memory>
    ensures ok { OnOk result (out.new.items ≡ out.old.items ++ bytes.now) }
    ensures err { OnErr result (out.new.items ≡ out.old.items) }
{
    out.extend_from_slice(bytes)?;
    Ok(())
}

/// Appends a quote, the bytes and a quote.
pub fn push_quoted(out: &mut Vec<u8>, bytes: &[u8]) -> Result<(), Memory>
    ensures ok { OnOk result (out.new.items ≡ out.old.items ++ quoted bytes.now) }
    ensures err { OnErr result (out.new.items ≡ out.old.items) }
{
    let length = out.len();
    let pushed = push_parts(out, bytes);
    if pushed.is_err() {
        out.truncate(length);
    }
    pushed
}

/// Appends a text in quotes, or a part of it where memory is wanted.
fn push_parts(out: &mut Vec<u8>, bytes: &[u8]) -> Result<(), Memory>
    ensures ok { OnOk result (out.new.items ≡ out.old.items ++ quoted bytes.now) }
    ensures err { OnErr result (out.old.items ≡ take (length out.old.items) out.new.items) }
{
    out.push(b'"')?;
    out.extend_from_slice(bytes)?;
    out.push(b'"')?;
    Ok(())
}
