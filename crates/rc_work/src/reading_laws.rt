//! Laws of reading, in the words of the format.

ghost use Rattle.std.specs.Prelude.{◌≡◌, ◌↔◌, ℕ, List, Result};
ghost use Rattle.rc_text.specs.Lines.{TextPlace};
ghost use Rattle.rc_spec.specs.declared.items.Op.{Op};
ghost use Rattle.rc_spec.specs.declared.spec.Spec.{Spec};
ghost use Rattle.rc_reader.specs.Grammar.{Broken};
ghost use Rattle.rc_reader.specs.declared.version.Version.{Version};
ghost use Rattle.rc_work.specs.declared.also.Also.{Also};
ghost use Rattle.rc_work.specs.declared.work.Work.{Work};
ghost use Rattle.rc_work.specs.Ranking.{work_reading};
ghost use Rattle.rc_work.specs.FirstBroken.{PartMeans, WorkMeans};
ghost use Rattle.rc_work.specs.PartGrammar.{WorkPart, part_reading};
ghost use Rattle.rc_work.specs.ShapesGrammar.{ShapesMean, shapes_of};

/// A workload is read where the header stands first, each line behind it breaks no rule, and `end` is one of them;
/// else the refusal is of the first line that breaks a rule, or the lines run out. Nothing else is what lines give.
pub fn first_broken_work_line()
    ensures { (also : Also) (spec : Spec) (place : TextPlace) (gives : Result Work Broken)
        → (work_reading also spec place ≡ gives) ↔ WorkMeans also spec place gives }
{}

/// A workload is read up to its `end` where the header stands first, `end` is one of the lines behind
/// it, and none up to there breaks a rule; else the refusal is of the first line that breaks a rule, or
/// the lines run out. What stands behind `end` is left open.
pub fn first_broken_part_line()
    ensures { (also : Also) (spec : Spec) (place : TextPlace) (gives : Result WorkPart Broken)
        → (part_reading also spec place ≡ gives) ↔ PartMeans also spec place gives }
{}

/// A text of shapes gives its operations where none of its lines breaks a rule; else the refusal is of the first line that
/// does. Nothing else is what lines give.
pub fn first_broken_shape_line()
    ensures { (version : Version) (spec : Spec) (text : List ℕ) (gives : Result (List Op) Broken)
        → (shapes_of version spec text ≡ gives) ↔ ShapesMean version spec text gives }
{}
