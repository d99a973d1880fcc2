//! Names: the words that columns, nodes, edges, classes and operations can have.

ghost use Rattle.std.specs.Prelude.{◌≡◌};
ghost use Rattle.std.specs.List.{list_all};
ghost use Rattle.rc_spec.specs.Names.{begins_name, is_name, is_name_byte};

fn is_name_byte(byte: u8) -> bool
    ensures { result ≡ is_name_byte byte }
{
    byte.is_ascii_lowercase() || byte.is_ascii_digit() || byte == b'_'
}

fn begins_name(word: &[u8]) -> bool
    ensures { result ≡ begins_name word.now }
{
    match word {
        [] => false,
        [first, ..] => first.is_ascii_lowercase(),
    }
}

fn has_name_bytes_only(word: &[u8]) -> bool
    ensures { result ≡ list_all is_name_byte word.now }
{
    word.iter().all(|byte| is_name_byte(*byte))
}

/// The most bytes of a name.
const MAX_NAME_LEN: usize = 16;

/// Whether a word is a name: 1 to 16 bytes of `a` to `z`, `0` to `9` and `_`, the first of them a letter.
pub fn is_name(word: &[u8]) -> bool
    ensures { result ≡ is_name word.now }
{
    begins_name(word) && word.len() <= MAX_NAME_LEN && has_name_bytes_only(word)
}
