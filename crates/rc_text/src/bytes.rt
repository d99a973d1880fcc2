//! The kinds of bytes that the text language knows.

ghost use Rattle.std.specs.Prelude.{◌≡◌, ◌≤◌, length};
ghost use Rattle.std.specs.List.{position_or_len, list_all};
ghost use Rattle.rc_text.specs.Bytes.{is_blank, is_quote, is_text_byte, without_blanks};

/// A space or a tab.
pub(crate) fn is_blank(byte: u8) -> bool
    ensures { result ≡ is_blank byte }
{
    matches!(byte, b' ' | b'\t')
}

/// A byte that a word may hold.
fn is_text_byte(byte: u8) -> bool
    ensures { result ≡ is_text_byte byte }
{
    matches!(byte, b' '..=b'~' | b'\t')
}

/// Whether a word may hold each of these bytes.
pub(crate) fn is_text(bytes: &[u8]) -> bool
    ensures { result ≡ list_all is_text_byte bytes.now }
{
    bytes.iter().all(|byte| is_text_byte(*byte))
}

/// The bytes from the first on that is neither a space nor a tab.
pub(crate) fn skip_blanks(bytes: &[u8]) -> &[u8]
    ensures { result.now ≡ without_blanks bytes.now }
{
    for (i, byte) in bytes.iter().enumerate() {
        if !is_blank(*byte) {
            return &bytes[i..];
        }
    }
    &[]
}

/// Where the first space or tab stands, or the length.
pub(crate) fn blank_place(bytes: &[u8]) -> usize
    ensures within { result ≤ length bytes.now }
    ensures place { result ≡ position_or_len is_blank bytes.now }
{
    for (i, byte) in bytes.iter().enumerate() {
        if is_blank(*byte) {
            return i;
        }
    }
    bytes.len()
}

/// Where the first quote stands, or the length.
pub(crate) fn quote_place(bytes: &[u8]) -> usize
    ensures within { result ≤ length bytes.now }
    ensures place { result ≡ position_or_len is_quote bytes.now }
{
    for (i, byte) in bytes.iter().enumerate() {
        if *byte == b'"' {
            return i;
        }
    }
    bytes.len()
}
