//! Frames by which stores are opened and operations looked up.

ghost use Rattle.std.specs.Prelude.{◌≡◌, ◌<◌, [], length, IfErr, IfOk};
ghost use Rattle.rc_row.specs.Passes.{spec_of};
ghost use Rattle.rc_embed.specs.OpenFrames.{AnswersOperation, BreaksRule, HasItem};
ghost use Rattle.rc_embed.specs.OpenFrames.{TellsFault, TellsOperation};
ghost use Rattle.rc_embed.specs.OpenFrames.{IsOpenedBy, IsOpenedWithBy, IsRefusedBy, IsRefusedWithBy};
ghost use Rattle.rc_embed.specs.OpenFrames.{KeepsAsked, KeepsName, fault_text, line_text};
ghost use Rattle.rc_embed.specs.OpenFrames.{plan_line_text};
ghost use Rattle.rc_embed.specs.OpenFrames.{op_kind_code, open_code, options_asked, row_width, rows_asked};
ghost use Rattle.rc_embed.specs.OpenFrames.{session_code};

use crate::codes::{
    DONE, LINE, MEMORY, NONE_LEFT, OPERATION, OPTIONS, PLAN, PLAN_LINE, RULE, SHAPE_LINE, TOO_LONG,
};
use crate::fault::{OpenFault, SessionFault};
use crate::frame::{MAX_CELLS, MAX_VALUES};
use crate::opening::{OpenStore, Options, open_with};
use crate::replies::copy_over;
use rc_handplan::{HandRule, print_plan_refusal};
use rc_maps::Seed;
use rc_reader::LineRule;
use rc_spec::{Op, OpKind, Spec, print_refusal};
use rc_tuple::Memory;
use std::alloc::Global;

/// The longest refusal that a frame has room for.
pub const MAX_REFUSAL: usize = 64;

/// How a store is to be opened, and why it is not.
#[repr(C)]
#[derive(Drop)]
pub struct OpenFrame {
    /// Asked: how many sessions there may be, 1 to 255.
    pub passes: u32,
    /// Told of a text that is refused: how many bytes the refusal has.
    pub length: u32,
    /// Asked: how many calls each session may make, 1 to 2^48.
    pub limit: u64,
    /// Asked: the most rows that a query answers one by one, 1 to 2^32 - 1, or 0 for no limit; of
    /// more it answers their number.
    pub rows: u64,
    /// Asked: the secret of the store's hash tables, two numbers drawn at random and told to
    /// nobody, where who chooses the values isn't trusted.
    pub seed: [u64; 2],
    /// Told of a text that is refused: the refusal, as the command line prints it.
    pub refusal: [u8; MAX_REFUSAL],
}

/// The code of a store that is not opened.
fn open_code(fault: &OpenFault) -> u32
    ensures { result ≡ open_code fault.now }
{
    match fault {
        OpenFault::Memory => MEMORY,
        OpenFault::Options => OPTIONS,
        OpenFault::TooLong => TOO_LONG,
        OpenFault::Line { rule: _, line: _ } => LINE,
        OpenFault::Rule(_, _) => RULE,
        OpenFault::ShapeLine { rule: _, line: _ } => SHAPE_LINE,
        OpenFault::PlanLine { rule: _, line: _ } => PLAN_LINE,
        OpenFault::Plan {
            spec: _,
            op: _,
            refusal: _,
        } => PLAN,
    }
}

/// The code of a session that does not begin.
pub fn session_code(fault: SessionFault) -> u32
    ensures { result ≡ session_code fault }
{
    match fault {
        SessionFault::Memory => MEMORY,
        SessionFault::NoneLeft => NONE_LEFT,
    }
}

/// The refusal of a text, as the command line prints it, without a line feed; nothing for other
/// faults.
fn fault_text(alloc: Global, fault: &OpenFault) -> Result<Vec<u8>, Memory>
    requires { HasItem fault.now }
    ensures text { IfOk result (λ text. text.items ≡ fault_text fault.now) }
    ensures memory { IfErr result (λ _. BreaksRule fault.now) }
{
    match fault {
        OpenFault::Line { rule, line } | OpenFault::ShapeLine { rule, line } => {
            line_text(alloc, *rule, *line)
        }
        OpenFault::Rule(spec, refusal) => print_refusal(alloc, spec, refusal),
        OpenFault::PlanLine { rule, line } => plan_line_text(alloc, *rule, *line),
        OpenFault::Plan { spec, op, refusal } => print_plan_refusal(alloc, spec, *op, refusal),
        OpenFault::Memory | OpenFault::Options | OpenFault::TooLong => Ok(Vec::new(alloc)),
    }
}

/// The refusal of a text for its first broken line rule.
fn line_text(alloc: Global, rule: LineRule, line: u32) -> Result<Vec<u8>, Memory>
    ensures { IfOk result (λ text. text.items ≡ line_text rule line) }
{
    let text = format!(in alloc; "refused {rule} line {line}")?;
    Ok(text.into_bytes())
}

/// The refusal of plans for the first broken rule of their lines.
fn plan_line_text(alloc: Global, rule: HandRule, line: u32) -> Result<Vec<u8>, Memory>
    ensures { IfOk result (λ text. text.items ≡ plan_line_text rule line) }
{
    let text = format!(in alloc; "refused {rule} line {line}")?;
    Ok(text.into_bytes())
}

impl OpenFrame {
    /// What it asks for.
    pub(crate) fn options(&self) -> Options
        ensures { result ≡ options_asked self.now }
    {
        Options {
            passes: self.passes,
            limit: self.limit,
            rows: rows_asked(self.rows),
            seed: Seed::new(self.seed[0], self.seed[1]),
        }
    }

    /// Tells why no store was opened, and answers the code. Where memory is wanted for the refusal, that is the code.
    pub(crate) fn tell_fault(&mut self, alloc: Global, fault: OpenFault) -> u32
        requires { HasItem fault }
        ensures told { TellsFault fault self.new result }
        ensures asked { KeepsAsked self.old self.new }
    {
        let code = open_code(&fault);
        let text = fault_text(alloc, &fault);
        drop(fault);
        self.length = 0;
        let Ok(text) = text else {
            return MEMORY;
        };
        if let Some(length) = copy_over(&text, &mut self.refusal) {
            self.length = length as u32;
        }
        code
    }
}

/// The most rows that a frame asks for, where it asks for a limit.
fn rows_asked(rows: u64) -> Option<u64>
    ensures { result ≡ rows_asked rows }
{
    if rows == 0 { None } else { Some(rows) }
}

/// Opens a store by the text, as the frame asks, or tells the frame why not and answers the code.
/// Where memory is wanted for the refusal, that is the code.
pub fn open_by(alloc: Global, text: &[u8], frame: &mut OpenFrame) -> Result<OpenStore, u32>
    ensures opened { IfOk result (IsOpenedBy text.now frame.old) }
    ensures none { IfOk result (λ _. frame.new.length ≡ 0) }
    ensures refused { IfErr result (IsRefusedBy text.now frame.old frame.new) }
    ensures asked { KeepsAsked frame.old frame.new }
{
    open_with_by(alloc, text, b"".as_slice(), b"".as_slice(), frame)
}

/// Opens a store by the text so, and by the plans that are written in the second text.
pub fn open_with_plans_by(
    alloc: Global,
    text: &[u8],
    plans: &[u8],
    frame: &mut OpenFrame,
) -> Result<OpenStore, u32>
    ensures opened { IfOk result (IsOpenedWithBy text.now [] plans.now frame.old) }
    ensures none { IfOk result (λ _. frame.new.length ≡ 0) }
    ensures refused { IfErr result (IsRefusedWithBy text.now [] plans.now frame.old frame.new) }
    ensures asked { KeepsAsked frame.old frame.new }
{
    open_with_by(alloc, text, b"".as_slice(), plans, frame)
}

/// Opens a store by the text so, with the further operations of a text of shapes, and by the plans that
/// are written in the third text.
pub fn open_with_by(
    alloc: Global,
    text: &[u8],
    shapes: &[u8],
    plans: &[u8],
    frame: &mut OpenFrame,
) -> Result<OpenStore, u32>
    ensures opened { IfOk result (IsOpenedWithBy text.now shapes.now plans.now frame.old) }
    ensures none { IfOk result (λ _. frame.new.length ≡ 0) }
    ensures refused { IfErr result
        (IsRefusedWithBy text.now shapes.now plans.now frame.old frame.new) }
    ensures asked { KeepsAsked frame.old frame.new }
{
    frame.length = 0;
    match open_with(alloc, text, shapes, plans, frame.options()) {
        Ok(store) => Ok(store),
        Err(fault) => Err(frame.tell_fault(alloc, fault)),
    }
}

/// Which operation is meant, and what its calls give and are told.
#[repr(C)]
#[derive(Drop)]
pub struct OperationFrame {
    /// Asked: how many bytes the name has, at most 16.
    pub length: u32,
    /// Told: the number by which it is called.
    pub op: u32,
    /// Told: 0 for a query, 1 for an insert, 2 for a remove, 3 for an update.
    pub kind: u32,
    /// Told: how many values a call gives.
    pub count: u32,
    /// Told: how many values a row of its reply has.
    pub width: u64,
    /// Asked: the bytes of the name.
    pub name: [u8; MAX_NAME],
    /// Told: the columns of the values that a call gives, by their numbers, in the order in which
    /// it gives them, a range column twice.
    pub columns: [u8; MAX_VALUES],
    /// Told: how many columns its pattern has.
    pub pattern_count: u64,
    /// Told: these columns, in the order in which the pattern is written.
    pub pattern: [u8; MAX_CELLS],
}

/// The longest name.
pub const MAX_NAME: usize = 16;

/// The code of an operation's kind.
fn kind_of(op: &Op) -> u32
    ensures { result ≡ op_kind_code op.now.kind }
{
    match &op.kind {
        OpKind::Query { .. } => 0,
        OpKind::Insert => 1,
        OpKind::Remove => 2,
        OpKind::Update => 3,
    }
}

/// How many values a row of the operation's reply has.
fn width_of(spec: &Spec, op: &Op) -> usize
    ensures { result ≡ row_width spec.now op.now.kind }
{
    match &op.kind {
        OpKind::Query { outs, ranges: _ } => outs.list().len(),
        OpKind::Insert => 0,
        OpKind::Remove | OpKind::Update => spec.columns.list().len(),
    }
}

impl OpenStore {
    /// Looks the operation up that the frame names, and tells the frame its number and what its
    /// calls give and are told.
    pub fn operation_by(&self, frame: &mut OperationFrame) -> u32
        ensures { AnswersOperation (spec_of self.now.store.row) frame.old frame.new result }
    {
        let length = frame.length as usize;
        if length > MAX_NAME {
            return OPERATION;
        }
        let Some(number) = self.operation(&frame.name[..length]) else {
            return OPERATION;
        };
        self.tell_operation(number, frame);
        DONE
    }

    /// Tells the frame of an operation.
    pub(crate) fn tell_operation(&self, number: u32, frame: &mut OperationFrame)
        requires { number < length (spec_of self.now.store.row).ops }
        ensures told { TellsOperation (spec_of self.now.store.row) number frame.new }
        ensures name { KeepsName frame.old frame.new }
    {
        let spec = self.spec();
        let op = spec.op(number as u8);
        frame.op = number;
        frame.kind = kind_of(op);
        frame.width = width_of(spec, op) as u64;
        let Some(count) = copy_over(self.shared().columns(number), &mut frame.columns) else {
            unreachable!()
        };
        frame.count = count as u32;
        let Some(count) = copy_over(self.shared().pattern(number), &mut frame.pattern) else {
            unreachable!()
        };
        frame.pattern_count = count as u64;
    }
}
