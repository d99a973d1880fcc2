//! What a reader may conclude from a printed report.

ghost use Rattle.rc_text_laws.specs.AuditsLaws.{AuditsAreOne, GroupsAreLegal, JournalsAreLegal};
ghost use Rattle.rc_text_laws.specs.AuditsLaws.{RunLinesAreWritten, RunsAreLegal};
ghost use Rattle.rc_text_laws.specs.HistoriesLaws.{OneReportOneHistory};
ghost use Rattle.rc_text_laws.specs.LegalLaws.{OneReportOneJournal};
ghost use Rattle.rc_text_laws.specs.QuotableLaws.{TextsAreQuotable};
ghost use Rattle.rc_text_laws.specs.RunsLaws.{OneReportOneRun, ReportsTellRuns};
ghost use Rattle.rc_text_laws.specs.RunTextsLaws.{PrintedTextsHaveOneHistory, PrintedTextsTellRuns};
ghost use Rattle.rc_text_laws.specs.RunTextsLaws.{PrintedTextsByHandHaveOneHistory, PrintedTextsTellRunsByHand};
ghost use Rattle.rc_text_laws.specs.TextsLaws.{OneTextOneHistory};

/// The lines of a report tell everything: two histories that can be reported, numbered and with a step or more in each entry,
/// over distinct texts that may stand in quotes, with the same lines, are the same, entry by entry, each with its thread, call and
/// reply, and so are the relations that they end with.
pub fn one_report_one_history()
    ensures { OneReportOneHistory }
{}

/// So does the text that is printed, in which the lines stand one behind another: no value, name or text can make two
/// such reports look alike.
pub fn one_text_one_history()
    ensures { OneTextOneHistory }
{}

/// Two legal, numbered histories of calls that fit, with a call or more in each entry, with the same printed report, are the
/// same. Nothing is presumed of the replies and of the final relation: the calls determine them.
pub fn one_report_one_journal()
    ensures { OneReportOneJournal }
{}

/// Two runs of a workload that keeps the limits and fits, with the same printed report, have the same journal: whoever has
/// the report knows who called what, in which order, and what each call was told.
pub fn one_report_one_run()
    ensures { OneReportOneRun }
{}

/// The texts of a workload that is read are distinct and rising, and each consists of bytes that may stand in quotes:
/// so a text in a report ends at the next quote.
pub fn texts_are_quotable()
    ensures { TextsAreQuotable }
{}

/// Two runs of a workload that was read, with the same printed report, have the same journal: the report tells
/// everything. Nothing else is asked of the workload, and of the specification only what holds of each that is read.
pub fn reports_tell_runs()
    ensures { ReportsTellRuns }
{}

/// Two runs of what one input is read as, for which the program prints the same text, have the same journal and end
/// with the same rows. The plans in front of the report hide nothing, since a specification has them in one way only.
pub fn printed_texts_tell_runs()
    ensures { PrintedTextsTellRuns }
{}

/// A text that the program may print for an input is that of one history: who has the input and the text needs no
/// other record of the run.
pub fn printed_texts_have_one_history()
    ensures { PrintedTextsHaveOneHistory }
{}

/// Both are so of what `hand` prints for an input: what is read are plans too, and each operation has
/// one chosen plan.
pub fn printed_texts_by_hand_tell_runs()
    ensures runs { PrintedTextsTellRunsByHand }
    ensures texts { PrintedTextsByHandHaveOneHistory }
{}

/// The lines that `audit` wants of a run, each with a line feed behind it, are what `run` prints of
/// it.
pub fn run_lines_are_written()
    ensures { RunLinesAreWritten }
{}

/// Whatever `run` may write for an input that ends with a line feed is legal where it stands behind
/// that input. (`audit` reads both together where they have at most 2^24 bytes.)
pub fn runs_are_legal()
    ensures { RunsAreLegal }
{}

/// Whatever `group` may write for such an input is legal behind it, as `audit group` judges it.
pub fn groups_are_legal()
    ensures { GroupsAreLegal }
{}

/// So is the journal in it, alone. What `run` may write for such an input is the lines of the plans,
/// of the journal and of the final relation; and `audit bare` finds the journal's legal, from the
/// number of its entries to its last entry and with `end` behind them, where they stand behind the
/// input.
pub fn journals_are_legal()
    ensures { JournalsAreLegal }
{}

/// `audit` may write one text for an input, with one status: a text has one verdict, or one refusal.
/// So may `audit bare`.
pub fn audits_are_one()
    ensures { AuditsAreOne }
{}
