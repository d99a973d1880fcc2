//! The command that the words of the command line give, as clap reads them.
ghost use Rattle.std.specs.Prelude.{◌≡◌, IfOk, IfSome, codes, map, option_map, string_bytes};
ghost use Rattle.std.specs.List.{list_any};
ghost use Rattle.clap.specs.Words.{app_of, first_value, found_of, rows_of, subcommand_rows_of, with_subcommand};
ghost use Rattle.rc_text.specs.Numbers.{u64_of};
ghost use Rattle.rc_command.specs.declared.command.Command.TheVariants.{OfText};
ghost use Rattle.rc_command.specs.Command.{IsWithinLimits, audit_of, big_of, command_named, command_of, dot_of};
ghost use Rattle.rc_command.specs.Grammar.{audit_app, audit_words, big_app, big_words, dot_app, dot_words, grammar, is_flag, met, met_as};

use clap::error::ErrorKind;
use clap::{Arg, ArgMatches};
use rc_spec::is_name;
use rc_text::read_u64;
use rc_tuple::{Memory, SmallList};
use std::alloc::{AllocError, Global};

/// What a text is read for.
#[derive(Debug, Drop)]
pub enum TextCommand {
    /// Reads a specification alone, and says whether it is accepted.
    Check,
    /// Reads a specification alone, and prints the plans of its operations.
    Plan,
    /// Reads a specification and a workload, makes the calls, and prints the plans, the journal and the final relation.
    Run,
    /// Does so with a workload in which some calls may stand as groups, which are made as one.
    Group,
    /// Reads a specification, a workload and what `run` is said to have printed for them, and says
    /// whether it may have.
    Audit,
    /// Does so with a workload in which some calls may stand as groups, and what `group` is said to have printed.
    AuditGroup,
    /// Reads a specification, a workload and the journal of a run, which stands there alone, and says
    /// whether the workload has such a run.
    AuditJournal,
    /// Reads a specification, plans that are written for some of its operations, and a workload, and
    /// does as `run` does, by these plans in the place of the planned ones.
    Hand,
    /// Reads a specification and a workload whose calls may bring their own operation, and does as `run` does, with a line for
    /// each such operation before the plans.
    Open,
    /// Reads a specification alone, and prints its drawing.
    Dot,
    /// Reads a specification alone, and prints its drawing with the plan of an operation.
    DotPlan {
        /// The bytes of a word that is a name. Whether an operation has it the text tells.
        op: SmallList<u8>,
    },
}

/// What the program is asked to do.
#[derive(Debug, Drop)]
pub enum Command {
    /// Reads a text, and answers it.
    OfText(TextCommand),
    /// Reads nothing: makes the calls of a workload that a seed generates, and prints the summary of their replies.
    Big {
        /// A number of 31 bits.
        seed: u32,
        /// How many calls, from 1 to 20,000.
        calls: u32,
    },
}

/// The largest seed: it has 31 bits.
const MAX_SEED: u64 = 2_147_483_647;

/// How many calls are generated at most.
const MAX_CALLS: u64 = 20_000;

/// The command of the words, of which the first is the program's name.
///
/// `None` where they are no command: too few or too many words, another name, a word that begins with `-`, one that
/// should be a number and is none or beyond its limits, or one that no operation can have as its name. `Err` where
/// memory is wanted and not given.
pub fn command_in(alloc: Global, words: &[String]) -> Result<Option<Command>, Memory>
    ensures value { IfOk result (λ c. c ≡ command_of (map string_bytes words.now)) }
    ensures limits { IfOk result (λ c. IfSome c IsWithinLimits) }
{
    let [_, arguments @ ..] = words else {
        return Ok(None);
    };
    if has_flag(arguments) {
        return Ok(None);
    }
    let reader = reader(alloc)?;
    match reader.try_get_matches_from(words) {
        Ok(matches) => command_met(alloc, &matches),
        Err(error) => match error.kind() {
            ErrorKind::OutOfMemory => Err(Memory),
            _ => Ok(None),
        },
    }
}

/// What clap reads: the commands as subcommands, of which one must be there, and neither help nor version.
fn reader<'a>(alloc: Global) -> Result<clap::Command<'a>, AllocError>
    ensures { IfOk result (λ c. app_of c ≡ grammar) }
{
    let check = clap::Command::new(alloc, "check");
    let plan = clap::Command::new(alloc, "plan");
    let run = clap::Command::new(alloc, "run");
    let hand = clap::Command::new(alloc, "hand");
    let group = clap::Command::new(alloc, "group");
    let opened = clap::Command::new(alloc, "open");
    let program = clap::Command::new(alloc, "relc")
        .subcommand_required(true)
        .disable_help_flag(true)
        .disable_help_subcommand(true)
        .subcommand(check)?
        .subcommand(plan)?
        .subcommand(run)?
        .subcommand(hand)?
        .subcommand(group)?
        .subcommand(opened)?;
    let program = add_audit(alloc, program)?;
    let program = add_dot(alloc, program)?;
    add_big(alloc, program)
}

/// Adds `audit`, which takes a word that may be left out.
fn add_audit<'a>(alloc: Global, program: clap::Command<'a>) -> Result<clap::Command<'a>, AllocError>
    ensures { IfOk result (λ c. app_of c ≡ with_subcommand (app_of program.entry) audit_app.top) }
{
    let form = Arg::new(alloc, "FORM");
    let audit = clap::Command::new(alloc, "audit").arg(form)?;
    program.subcommand(audit)
}

/// Adds `dot`, which takes a word that may be left out.
fn add_dot<'a>(alloc: Global, program: clap::Command<'a>) -> Result<clap::Command<'a>, AllocError>
    ensures { IfOk result (λ c. app_of c ≡ with_subcommand (app_of program.entry) dot_app.top) }
{
    let op = Arg::new(alloc, "OP");
    let dot = clap::Command::new(alloc, "dot").arg(op)?;
    program.subcommand(dot)
}

/// Adds `big`, which takes two words.
fn add_big<'a>(alloc: Global, program: clap::Command<'a>) -> Result<clap::Command<'a>, AllocError>
    ensures { IfOk result (λ c. app_of c ≡ with_subcommand (app_of program.entry) big_app.top) }
{
    let seed = Arg::new(alloc, "SEED").required(true);
    let calls = Arg::new(alloc, "N").required(true);
    let big = clap::Command::new(alloc, "big").arg(seed)?.arg(calls)?;
    program.subcommand(big)
}

/// Whether a word begins with `-`. clap itself passes over a `--`, as in `relc run --`.
fn has_flag(words: &[String]) -> bool
    ensures { result ≡ list_any is_flag (map string_bytes words.now) }
{
    for word in words {
        if is_flag(word) {
            return true;
        }
    }
    false
}

fn is_flag(word: &str) -> bool
    ensures { result ≡ is_flag word.now }
{
    word.starts_with('-')
}

/// The command of the subcommand that clap met.
fn command_met(alloc: Global, matches: &ArgMatches) -> Result<Option<Command>, Memory>
    ensures value { IfOk result (λ c. c ≡ met (subcommand_rows_of matches.now)) }
    ensures limits { IfOk result (λ c. IfSome c IsWithinLimits) }
{
    match matches.subcommand() {
        Some((name, inner)) => command_behind(alloc, name, inner),
        None => Ok(None),
    }
}

/// The command of a subcommand's name and the words that clap found behind it.
fn command_behind(alloc: Global, name: &str, inner: &ArgMatches) -> Result<Option<Command>, Memory>
    ensures value { IfOk result (λ c. c ≡ met_as name.now (rows_of (found_of inner.now))) }
    ensures limits { IfOk result (λ c. IfSome c IsWithinLimits) }
{
    match name {
        "big" => Ok(big_met(inner)),
        "dot" => dot_met(alloc, inner),
        "audit" => Ok(audit_met(inner)),
        _ => Ok(alone_met(name)),
    }
}

/// The command of the word that clap met behind `dot`, where it met one.
fn dot_met(alloc: Global, matches: &ArgMatches) -> Result<Option<Command>, Memory>
    ensures value { IfOk result (λ c. c ≡ dot_words (first_value (found_of matches.now) (codes "OP"))) }
    ensures limits { IfOk result (λ c. IfSome c IsWithinLimits) }
{
    match matches.get_str("OP") {
        Some(op) => dot_in(alloc, op),
        None => Ok(Some(Command::OfText(TextCommand::Dot))),
    }
}

/// The command of `dot` with a word, where an operation can have the word as its name.
fn dot_in(alloc: Global, op: &str) -> Result<Option<Command>, Memory>
    ensures value { IfOk result (λ c. c ≡ dot_of op.now) }
    ensures limits { IfOk result (λ c. IfSome c IsWithinLimits) }
{
    if !is_name(op.as_bytes()) {
        return Ok(None);
    }
    let op = SmallList::from_slice(alloc, op.as_bytes())?;
    Ok(Some(Command::OfText(TextCommand::DotPlan { op })))
}

/// The command of the word that clap met behind `audit`, where it met one.
fn audit_met(matches: &ArgMatches) -> Option<Command>
    ensures value { result ≡ audit_words (first_value (found_of matches.now) (codes "FORM")) }
    ensures limits { IfSome result IsWithinLimits }
{
    match matches.get_str("FORM") {
        Some(form) => audit_in(form),
        None => Some(Command::OfText(TextCommand::Audit)),
    }
}

/// The command of `audit` with a word, where the word names a form of what is judged.
fn audit_in(form: &str) -> Option<Command>
    ensures value { result ≡ audit_of form.now }
    ensures limits { IfSome result IsWithinLimits }
{
    match form {
        "bare" => Some(Command::OfText(TextCommand::AuditJournal)),
        "group" => Some(Command::OfText(TextCommand::AuditGroup)),
        _ => None,
    }
}

/// The command of the two words that clap met behind `big`.
fn big_met(matches: &ArgMatches) -> Option<Command>
    ensures value { result ≡ big_words (first_value (found_of matches.now) (codes "SEED"))
        (first_value (found_of matches.now) (codes "N")) }
    ensures limits { IfSome result IsWithinLimits }
{
    big_in(matches.get_str("SEED")?, matches.get_str("N")?)
}

/// The command of the name of a subcommand that takes no word.
fn alone_met(name: &str) -> Option<Command>
    ensures value { result ≡ option_map OfText (command_named name.now) }
    ensures limits { IfSome result IsWithinLimits }
{
    Some(Command::OfText(command_named(name)?))
}

/// What a text is read for, by the name of a subcommand that takes no word.
fn command_named(name: &str) -> Option<TextCommand>
    ensures { result ≡ command_named name.now }
{
    match name {
        "check" => Some(TextCommand::Check),
        "plan" => Some(TextCommand::Plan),
        "run" => Some(TextCommand::Run),
        "hand" => Some(TextCommand::Hand),
        "group" => Some(TextCommand::Group),
        "open" => Some(TextCommand::Open),
        _ => None,
    }
}

/// The workload of a seed and a number of calls, where both texts are numbers within their limits.
fn big_in(seed: &str, calls: &str) -> Option<Command>
    ensures value { result ≡ big_of (u64_of seed.now) (u64_of calls.now) }
    ensures limits { IfSome result IsWithinLimits }
{
    let seed = read_u64(seed.as_bytes()).ok()?;
    let calls = read_u64(calls.as_bytes()).ok()?;
    if seed > MAX_SEED || calls == 0 || calls > MAX_CALLS {
        return None;
    }
    Some(Command::Big {
        seed: seed as u32,
        calls: calls as u32,
    })
}
