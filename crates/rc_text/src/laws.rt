//! Laws of the definitions, in the words of the format.

ghost use Rattle.std.specs.Prelude.{◌≡◌, ℕ, ◌+◌, ◌<◌, ◌^◌, ◌↔◌, true, List, [], ◌∷◌, ◌++◌, length, map, Ok, decimal};
ghost use Rattle.std.specs.List.{concat, join_with_byte, AllByRecursion};
ghost use Rattle.rc_text.specs.Lines.{lines_of, lacks_line_feed, IsLine, start_of, content_from, printed_lines, IsPrintable, bytes_of_content};
ghost use Rattle.rc_text.specs.Words.{WordText, Found, next_word_of, words_of, written, IsPlain, IsWritable, ComesNext};
ghost use Rattle.rc_text.specs.Numbers.{u64_of};

/// The lines of a text, one after another, are the text. A line feed stands in each at its end alone.
/// A line ends at a line feed or at the text's end, and a line feed at the very end begins no further line.
pub fn lines_are_the_text()
    ensures joined { (text : List ℕ) → concat (lines_of text) ≡ text }
    ensures each { (text : List ℕ) → AllByRecursion IsLine (lines_of text) }
    ensures ended { (line rest : List ℕ) → lacks_line_feed line ≡ true → lines_of (line ++ 10 ∷ rest) ≡ (line ++ 10 ∷ []) ∷ lines_of rest }
    ensures last { (line : List ℕ) → lacks_line_feed line ≡ true → 0 < length line → lines_of line ≡ line ∷ [] }
{}

/// Lines that are printed with a line feed behind each are the content lines of the text.
pub fn printed_lines_are_read()
    ensures { (lines : List (List ℕ)) → AllByRecursion IsPrintable lines → bytes_of_content (content_from (start_of (printed_lines lines))) ≡ lines }
{}

/// What is found as a line's next word, none or a fault is what the format says, and nothing else is.
pub fn next_word_is_exact()
    ensures { (line : List ℕ) (found : Found) → (next_word_of line ≡ found) ↔ ComesNext line found }
{}

/// Words that are written with one space between them are the words of the line.
pub fn written_words_are_read()
    ensures { (words : List WordText) → AllByRecursion IsWritable words → words_of (join_with_byte 32 (map written words)) ≡ map (λ word. Ok word) words }
{}

/// A number that is printed is read, and is a word that is written plain.
pub fn printed_numbers_are_read()
    ensures read { (n : ℕ) → n < 2 ^ 64 → u64_of (decimal n) ≡ Ok n }
    ensures plain { (n : ℕ) → n < 2 ^ 64 → IsPlain (decimal n) }
{}

/// Zeros in front of a number do not count.
pub fn leading_zeros_do_not_count()
    ensures { (word : List ℕ) → 0 < length word → u64_of (48 ∷ word) ≡ u64_of word }
{}
