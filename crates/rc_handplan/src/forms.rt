//! The forms of a statement's line.

ghost use Rattle.std.specs.Prelude.{◌≡◌};
ghost use Rattle.std.specs.Option.{option_map};
ghost use Rattle.rc_reader.specs.Forms.{texts};
ghost use Rattle.rc_handplan.specs.Forms.{form_text, form_of, form_by, keyword_of};
ghost use Rattle.rc_handplan.specs.Forms.{which_of, lock_mode_of, read_mode_of};
ghost use Rattle.rc_handplan.specs.Forms.{lock_words, read_words, check_words, release_words, alone};

use rc_plan::{ReadMode, Which};
use rc_spec::Mode;
use rc_text::is_number;

/// The first word of a statement's line.
#[derive(Clone, Copy, Debug, PartialEq, Eq)]
pub(crate) enum Keyword {
    Lock,
    Probe,
    Read,
    Absent,
    Found,
    Check,
    Apply,
    Emit,
    Commit,
    Release,
}

/// What the line of a statement says, with its words as they stand.
#[derive(Clone, Copy, Debug)]
pub(crate) enum Form<'a> {
    Lock {
        class: &'a [u8],
        which: Which,
        mode: Mode,
    },
    Probe {
        columns: &'a [&'a [u8]],
    },
    Read {
        edge: &'a [u8],
        mode: ReadMode,
    },
    Absent,
    Found,
    /// The word is digits.
    Check {
        number: &'a [u8],
    },
    Apply,
    Emit,
    Commit,
    Release {
        class: &'a [u8],
    },
}

fn keyword_of(word: &[u8]) -> Option<Keyword>
    ensures { result ≡ keyword_of word.now }
{
    if word == b"lock".as_slice() {
        Some(Keyword::Lock)
    } else if word == b"probe".as_slice() {
        Some(Keyword::Probe)
    } else if word == b"read".as_slice() {
        Some(Keyword::Read)
    } else if word == b"absent".as_slice() {
        Some(Keyword::Absent)
    } else if word == b"found".as_slice() {
        Some(Keyword::Found)
    } else if word == b"check".as_slice() {
        Some(Keyword::Check)
    } else if word == b"apply".as_slice() {
        Some(Keyword::Apply)
    } else if word == b"emit".as_slice() {
        Some(Keyword::Emit)
    } else if word == b"commit".as_slice() {
        Some(Keyword::Commit)
    } else if word == b"release".as_slice() {
        Some(Keyword::Release)
    } else {
        None
    }
}

fn which_of(word: &[u8]) -> Option<Which>
    ensures { result ≡ which_of word.now }
{
    if word == b"keyed".as_slice() {
        Some(Which::Keyed)
    } else if word == b"all".as_slice() {
        Some(Which::All)
    } else {
        None
    }
}

/// The mode of a Lock, of the words behind which stripes it takes.
fn lock_mode_of(words: &[&[u8]]) -> Option<Mode>
    ensures { result ≡ lock_mode_of (texts words.now) }
{
    match words {
        [] => Some(Mode::Exclusive),
        [word] if *word == b"shared".as_slice() => Some(Mode::Shared),
        _ => None,
    }
}

fn read_mode_of(word: &[u8]) -> Option<ReadMode>
    ensures { result ≡ read_mode_of word.now }
{
    if word == b"lookup".as_slice() {
        Some(ReadMode::Lookup)
    } else if word == b"scan".as_slice() {
        Some(ReadMode::Scan)
    } else {
        None
    }
}

fn lock_words<'a>(words: &'a [&'a [u8]]) -> Option<Form<'a>>
    ensures { option_map form_text result ≡ lock_words (texts words.now) }
{
    match words {
        [class, which, mode @ ..] => {
            let which = which_of(which)?;
            let mode = lock_mode_of(mode)?;
            Some(Form::Lock { class, which, mode })
        }
        _ => None,
    }
}

fn read_words<'a>(words: &'a [&'a [u8]]) -> Option<Form<'a>>
    ensures { option_map form_text result ≡ read_words (texts words.now) }
{
    match words {
        [edge, mode] => {
            let mode = read_mode_of(mode)?;
            Some(Form::Read { edge, mode })
        }
        _ => None,
    }
}

fn check_words<'a>(words: &'a [&'a [u8]]) -> Option<Form<'a>>
    ensures { option_map form_text result ≡ check_words (texts words.now) }
{
    match words {
        [number] if is_number(number) => Some(Form::Check { number }),
        _ => None,
    }
}

fn release_words<'a>(words: &'a [&'a [u8]]) -> Option<Form<'a>>
    ensures { option_map form_text result ≡ release_words (texts words.now) }
{
    match words {
        [class] => Some(Form::Release { class }),
        _ => None,
    }
}

/// The form of a line of one word.
fn alone<'a>(form: Form<'a>, words: &'a [&'a [u8]]) -> Option<Form<'a>>
    ensures { option_map form_text result ≡ alone (form_text form.entry) (texts words.now) }
{
    words.is_empty().then_some(form)
}

/// What a line with this first word says, from the words behind it.
fn form_by<'a>(keyword: Keyword, words: &'a [&'a [u8]]) -> Option<Form<'a>>
    ensures { option_map form_text result ≡ form_by (texts words.now) keyword }
{
    match keyword {
        Keyword::Lock => lock_words(words),
        Keyword::Probe => Some(Form::Probe { columns: words }),
        Keyword::Read => read_words(words),
        Keyword::Absent => alone(Form::Absent, words),
        Keyword::Found => alone(Form::Found, words),
        Keyword::Check => check_words(words),
        Keyword::Apply => alone(Form::Apply, words),
        Keyword::Emit => alone(Form::Emit, words),
        Keyword::Commit => alone(Form::Commit, words),
        Keyword::Release => release_words(words),
    }
}

/// What a line of these words says, if it has a form of a statement.
#[tactic(auto, unfolding(crate::specs::Forms::form_of))]
pub(crate) fn form_of<'a>(words: &'a [&'a [u8]]) -> Option<Form<'a>>
    ensures { option_map form_text result ≡ form_of (texts words.now) }
{
    let [first, words @ ..] = words else {
        return None;
    };
    let keyword = keyword_of(first)?;
    form_by(keyword, words)
}
