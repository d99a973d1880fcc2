//! The versions of the text language.

ghost use Rattle.std.specs.Prelude.{◌≡◌};
ghost use Rattle.rc_reader.specs.Versions.{version_number, is_version, version_of_word};

/// A version of the text language, which the header of a text names.
#[derive(Clone, Copy, Debug)]
pub enum Version {
    /// `relc 1`: at most 16 columns, queries without ranges, and no update.
    One,
    /// `relc 2`: at most 32 columns, and queries with ranges and updates too.
    Two,
}

impl Version {
    /// Its number, as the header has it.
    pub fn number(self) -> u32
        ensures { result ≡ version_number self }
    {
        match self {
            Version::One => 1,
            Version::Two => 2,
        }
    }

    /// Whether a header names it by this word: by its number, without leading zeros.
    pub(crate) fn is_named(self, word: &[u8]) -> bool
        ensures { result ≡ is_version self word.now }
    {
        match self {
            Version::One => word == b"1".as_slice(),
            Version::Two => word == b"2".as_slice(),
        }
    }

    /// The version that a header names by this word.
    pub(crate) fn of_word(word: &[u8]) -> Option<Version>
        ensures { result ≡ version_of_word word.now }
    {
        if Version::One.is_named(word) {
            Some(Version::One)
        } else if Version::Two.is_named(word) {
            Some(Version::Two)
        } else {
            None
        }
    }
}
