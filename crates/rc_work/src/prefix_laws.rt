//! Laws of a text that is cut.

ghost use Rattle.rc_work.specs.Prefix.{CutTextsAreRefused, LastLetterIsThere};

/// Where a text gives a specification and a workload, each prefix of it that ends before the `d` of its last content
/// line is refused.
pub fn cut_texts_are_refused()
    ensures { CutTextsAreRefused }
{}

/// Such a text has that `d`: its last content line has the word `end` alone.
pub fn last_letter_is_there()
    ensures { LastLetterIsThere }
{}
