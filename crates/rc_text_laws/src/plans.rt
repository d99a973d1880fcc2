//! Laws of plans that are written.

ghost use Rattle.rc_text_laws.specs.PlansRead.{AllPlansAreReadBack, PlanLinesArePrinted};
ghost use Rattle.rc_text_laws.specs.PlansRead.{PlansAreReadAgain, PlansAreReadBack};
ghost use Rattle.rc_text_laws.specs.PlansRead.{PrintedPlansAreChosen, PrintedPlansAreTaken};
ghost use Rattle.rc_text_laws.specs.StorePlans.{PrintedPlansAreNotRefused, PrintedPlansAreTheStores};

/// Printed plans are read again: whatever plans of different operations there are, of at most 256
/// statements each, which name what the specification has, they are read where their lines stand
/// in front of a line that closes them, `work` or `end`, and the lines from that on are left. So is
/// whatever was read. The lines are those of the text in which a plan is printed.
pub fn printed_plans_are_read_back()
    ensures all { AllPlansAreReadBack }
    ensures one { PlansAreReadBack }
    ensures again { PlansAreReadAgain }
    ensures printed { PlanLinesArePrinted }
{}

/// The plans of all operations of a specification, printed with the line `end` behind them, are read as
/// plans that stand alone, where none has more than 256 statements. Written for their operations they
/// keep the rules of plans, and are the chosen ones.
pub fn printed_plans_are_taken()
    ensures taken { PrintedPlansAreTaken }
    ensures chosen { PrintedPlansAreChosen }
{}

/// What a store of whose operations all are declared prints of its plans, with the line `end` behind it,
/// opens a store of the same text and options with the same plans, and none of them is refused. So it is whichever
/// plans the first was opened with, where none has more than 256 statements.
pub fn opened_plans_are_given_back()
    ensures taken { PrintedPlansAreNotRefused }
    ensures same { PrintedPlansAreTheStores }
{}
