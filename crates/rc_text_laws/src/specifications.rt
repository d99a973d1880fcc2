//! Laws of the language of specifications.

ghost use Rattle.std.specs.Prelude.{◌≡◌, ◌⊎◌, ◌↔◌, ℕ, ◌≤◌, true, false, List, Option, Some, Ok, Err};
ghost use Rattle.rc_text.specs.Lines.{ContentLine, printed_lines};
ghost use Rattle.rc_spec.specs.InRange.{IsInRange, HasColumnAndNode};
ghost use Rattle.rc_spec.specs.Names.{IsWellNamed};
ghost use Rattle.rc_spec.specs.Spec.{empty};
ghost use Rattle.rc_reader.specs.declared.refusal.LineRule.TheVariants.{S6, S7};
ghost use Rattle.rc_reader.specs.Forms.{FormText, form_of};
ghost use Rattle.rc_reader.specs.Rules.{breaks_limit, breaks_order};
ghost use Rattle.rc_reader.specs.Grammar.{After, Reading, after_form_of, after_bytes, spec_of, spec_reading};
ghost use Rattle.rc_reader.specs.FirstBroken.{AreTaken};
ghost use Rattle.rc_reader.specs.TextLimits.{KeepsTextLimits, KeepsVersion};
ghost use Rattle.rc_text_laws.specs.Written.{words_of_form, HasForm, DifferInNumber, CanBeLine, written_line, spec_lines, spec_text, CanBeWritten};
ghost use Rattle.rc_reader.specs.Sections.{line_kind, limit_of};
ghost use Rattle.rc_reader.specs.declared.version.Version.{Version};
ghost use Rattle.rc_reader.specs.declared.sections.LineKind.{LineKind};
ghost use Rattle.rc_text_laws.specs.Kinds.{line_form, Says, kinds_of, how_many, is_one_too_many, is_out_of_order};

use rc_spec::Spec;

/// A specification that is in range and well named, has a column and a node, and keeps the limits of a text of a version
/// is what the text of its lines in that version is read as, and the version is told. No text is read as another
/// specification, whether it stands alone or a workload stands behind it, and specifications with the same text are the
/// same, and of one version.
pub fn specifications_are_read_back()
    ensures read_back { (version : Version) (spec : Spec) → IsInRange spec → IsWellNamed spec → HasColumnAndNode spec
        → KeepsTextLimits spec → KeepsVersion version spec
        → spec_of (printed_lines (spec_lines version spec)) ≡ Ok spec }
    ensures version { (version : Version) (spec : Spec) → CanBeWritten spec → KeepsVersion version spec
        → (reading : Reading) × (spec_reading (spec_text version spec) ≡ Ok reading) × (reading.version ≡ version) }
    ensures some_text { (spec : Spec) → ((text : List ℕ) × (spec_of text ≡ Ok spec)) ↔ CanBeWritten spec }
    ensures readings { (text : List ℕ) (reading : Reading) → spec_reading text ≡ Ok reading
        → CanBeWritten reading.spec × KeepsVersion reading.version reading.spec }
    ensures told_apart { (version other_version : Version) (spec other : Spec) → CanBeWritten spec
        → CanBeWritten other → KeepsVersion version spec → KeepsVersion other_version other
        → spec_text version spec ≡ spec_text other_version other → (version ≡ other_version) × (spec ≡ other) }
{}

/// Words are read as a form exactly where they have it. What they say is said again by the words of the form, and words
/// that say the same are the same, save for the digits of a number of stripes.
pub fn forms_are_exact()
    ensures exact { (version : Version) (words : List (List ℕ)) (form : FormText)
        → (form_of version words ≡ Some form) ↔ HasForm version words form }
    ensures again { (version : Version) (words : List (List ℕ)) (form : FormText)
        → form_of version words ≡ Some form → form_of version (words_of_form version form) ≡ Some form }
    ensures same_words { (version : Version) (words others : List (List ℕ)) (form : FormText)
        → form_of version words ≡ Some form → form_of version others ≡ Some form
        → (words ≡ others) ⊎ DifferInNumber words others }
{}

/// What a line does to the specification before it is told by what it says. What a line can say has words that can be
/// written plain; and what it says is said again by the line of these words, with one space between them.
pub fn lines_do_what_they_say()
    ensures told { (version : Version) (spec : Spec) (bytes : List ℕ)
        → after_bytes version spec bytes ≡ after_form_of version spec (line_form version bytes) }
    ensures some_line { (version : Version) (form : FormText)
        → ((bytes : List ℕ) × (line_form version bytes ≡ Some form)) ↔ CanBeLine version form }
    ensures again { (version : Version) (bytes : List ℕ) (form : FormText) → line_form version bytes ≡ Some form
        → line_form version (written_line version form) ≡ Some form }
{}

/// Whether a line is one more than its kind's limit, and whether it comes too late, is told by how many lines of each
/// kind stand before it, and by nothing else that was read but the version. A line refused by S6 is one too many, one
/// refused by S7 is not and comes too late, and one that is taken is neither: so no kind has more lines than its limit.
pub fn limits_and_order_are_told_by_kinds()
    ensures limit { (version : Version) (lines : List ContentLine) (spec : Spec) → AreTaken version empty lines spec
        → (form : FormText)
        → breaks_limit version spec form ≡ is_one_too_many version (kinds_of version lines) (line_kind form) }
    ensures order { (version : Version) (lines : List ContentLine) (spec : Spec) → AreTaken version empty lines spec
        → (form : FormText) → breaks_order spec form ≡ is_out_of_order (kinds_of version lines) (line_kind form) }
    ensures too_many { (version : Version) (lines : List ContentLine) (spec : Spec) (bytes : List ℕ)
        → AreTaken version empty lines spec → after_bytes version spec bytes ≡ Err S6
        → Says version bytes (λ form. is_one_too_many version (kinds_of version lines) (line_kind form) ≡ true) }
    ensures out_of_order { (version : Version) (lines : List ContentLine) (spec : Spec) (bytes : List ℕ)
        → AreTaken version empty lines spec → after_bytes version spec bytes ≡ Err S7
        → Says version bytes (λ form. (is_one_too_many version (kinds_of version lines) (line_kind form) ≡ false)
        × (is_out_of_order (kinds_of version lines) (line_kind form) ≡ true)) }
    ensures taken { (version : Version) (lines : List ContentLine) (spec : Spec) (bytes : List ℕ)
        → AreTaken version empty lines spec → (after : After) → after_bytes version spec bytes ≡ Ok after
        → Says version bytes (λ form. (is_one_too_many version (kinds_of version lines) (line_kind form) ≡ false)
        × (is_out_of_order (kinds_of version lines) (line_kind form) ≡ false)) }
    ensures few { (version : Version) (lines : List ContentLine) (spec : Spec) → AreTaken version empty lines spec
        → (kind : LineKind) (limit : ℕ) → limit_of version kind ≡ Some limit
        → how_many kind (kinds_of version lines) ≤ limit }
{}
