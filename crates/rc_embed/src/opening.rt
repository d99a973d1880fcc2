//! How a store is opened, and what it hands out.

ghost use Rattle.std.specs.Prelude.{◌≡◌, ◌<◌, ◌≤◌, ◌^◌, ◌↔◌, [], Err, IfErr, IfOk, IfSome, IsOk, IsTrue, Ok};
ghost use Rattle.std.specs.Prelude.{length, option_copied};
ghost use Rattle.std.specs.Arc.{arc_value};
ghost use Rattle.std.specs.List.{AllByRecursion};
ghost use Rattle.rc_spec.specs.InRange.{IsInRange};
ghost use Rattle.rc_spec.specs.Names.{IsWellNamed, op_names};
ghost use Rattle.rc_reader.specs.Grammar.{text_version};
ghost use Rattle.rc_reader.specs.Names.{number_among};
ghost use Rattle.rc_work.specs.CallColumns.{HasKnownColumns};
ghost use Rattle.rc_work.specs.Shapes.{IsShapeOf};
ghost use Rattle.rc_work.specs.ShapesGrammar.{shapes_of};
ghost use Rattle.rc_handplan.specs.PlansText.{OpsHaveSets, plans_text};
ghost use Rattle.rc_row.specs.Passes.{compiled_of, spec_of};
ghost use Rattle.rc_store.specs.Store.{IsFree};
ghost use Rattle.rc_embed.specs.Asked.{columns_of_all, known_columns};
ghost use Rattle.rc_embed.specs.Declaring.{known_pattern};
ghost use Rattle.rc_embed.specs.Opened.{AreInBounds, ArePlannedOf, AreRowsInBounds};
ghost use Rattle.rc_embed.specs.Opened.{AreShapesUnreadFor, HasDealt};
ghost use Rattle.rc_embed.specs.Opened.{IsAskedBy, IsBuiltOf, IsCompiledWith, IsOpened, IsOpenedWith, IsRefusedFor};
ghost use Rattle.rc_embed.specs.Opened.{IsRefusedWith, IsUnreadFor, ReadsAccepted};
ghost use Rattle.rc_embed.specs.Opened.{most_rows_asked, new_session};
ghost use Rattle.rc_embed.specs.Shaped.{shape_number};
ghost use Rattle.rc_embed.specs.declared.fault.OpenFault.TheVariants as faults;
ghost use Rattle.rc_embed.specs.declared.fault.SessionFault.TheVariants as session_faults;

use crate::fault::{OpenFault, SessionFault};
use crate::hold::Hold;
use crate::planning::plan_embedded;
use crate::session::{Last, Session, State};
use crate::shaped::shape_number;
use crate::shared::{Shared, blank_call};
use rc_handplan::print_plans;
use rc_maps::Seed;
use rc_place::{AcceptFault, accept};
use rc_plan::Compiled;
use rc_reader::{ReadRefusal, number_among, read_spec_only, text_version};
use rc_row::{Keeping, Pass};
use rc_spec::{Accepted, Ops, Spec, WellFormed};
use rc_store::{Quiet, Store};
use rc_tuple::{Cols, Memory};
use rc_work::{read_shapes, written_columns_at};
use std::alloc::{AllocFailed, Global};
use std::marker::Model;
use std::sync::Arc;

/// The longest text that is read.
pub const MAX_TEXT: usize = 1 << 24;

/// How much a store is opened for.
#[derive(Clone, Copy, Debug)]
pub struct Options {
    /// How many sessions there may be, 1 to 255.
    pub passes: u32,
    /// How many calls each may make, 1 to 2^48.
    pub limit: u64,
    /// The most rows that a query answers one by one, 1 to 2^32 - 1; of more it answers their
    /// number. `None` sets no limit.
    pub rows: Option<u64>,
    /// The secret of the store's hash tables: two numbers drawn at random, and told to nobody,
    /// where who chooses the values isn't trusted.
    pub seed: Seed,
}

impl Options {
    /// Whether the passes, the limit and the rows are in their ranges.
    pub(crate) fn are_in_bounds(self) -> bool
        ensures { IsTrue result ↔ AreInBounds self }
    {
        1 <= self.passes
            && self.passes <= 255
            && 1 <= self.limit
            && self.limit <= 1 << 48
            && are_rows_in_bounds(self.rows)
    }

    /// The most rows that a query answers one by one, as the specification has them.
    fn most_rows(self) -> u64
        ensures { result ≡ most_rows_asked self }
    {
        match self.rows {
            Some(rows) => rows,
            None => u64::MAX,
        }
    }
}

/// Whether the rows, where they are limited, are 1 to 2^32 - 1.
fn are_rows_in_bounds(rows: Option<u64>) -> bool
    ensures { IsTrue result ↔ IfSome rows AreRowsInBounds }
{
    match rows {
        Some(rows) => 1 <= rows && rows < 1 << 32,
        None => true,
    }
}

/// A store that was opened, with the passes that no session has. Its sessions live on when it is
/// dropped.
#[derive(Drop)]
pub struct OpenStore {
    pub(crate) hold: Hold,
    pub(crate) alloc: Global,
    pub(crate) passes: Vec<Pass>,
    /// How many passes the store has, its sessions' too.
    pub(crate) count: u32,
}

impl Model for OpenStore {
    ghost use Rattle.rc_embed.specs.Opened.{OpenSeen};

    ghost Value = { OpenSeen };

    ghost use Rattle.rc_embed.specs.OpenedInside.{IsWholeOpen, open_seen};

    ghost view = { open_seen };

    ghost invariant = { IsWholeOpen };
}

/// Opens a store with no tuple by the text of its specification, with its singletons inlined and its
/// edges placed together, for so many sessions. Its queries answer one by one as many rows as the
/// options say. Costs what reading, embedding and planning cost, and for each session room for a
/// fragment of each stripe.
pub fn open(alloc: Global, text: &[u8], options: Options) -> Result<OpenStore, OpenFault>
    ensures opened { IfOk result (IsOpened text.now options) }
    ensures planned { IfOk result (λ opened. ArePlannedOf (compiled_of opened.store.row)) }
    ensures refused { IfErr result (IsRefusedFor text.now options) }
{
    open_with(alloc, text, b"".as_slice(), b"".as_slice(), options)
}

/// Opens a store so, with plans of operations that are written in a second text: in the form in which
/// `OpenStore::plans` prints them, each under a line `plan NAME`, and the line `end` behind the last. They
/// name the items of the specification that the store has (`OpenStore::spec`). An operation that has no
/// plan there gets its planned plan; so do all where the text is empty.
///
/// A written plan is taken exactly where it keeps K1 to K7, and whichever it is, replies and histories
/// are those of the specification. `PlanLine` is for the first broken rule of the lines of plans, H1 to
/// H4 and S8, with its line; `Plan` for the first plan that breaks one of K1 to K7.
pub fn open_with_plans(
    alloc: Global,
    text: &[u8],
    plans: &[u8],
    options: Options,
) -> Result<OpenStore, OpenFault>
    ensures opened { IfOk result (IsOpenedWith text.now [] plans.now options) }
    ensures refused { IfErr result (IsRefusedWith text.now [] plans.now options) }
{
    open_with(alloc, text, b"".as_slice(), plans, options)
}

/// Opens a store so, with further operations that a text of shapes gives: a line for each, in the form of
/// an `op` line behind its name, as `query src -> dst`. They stand behind the operations that the
/// specification declares, in the order of their first lines, as `?1`, `?2` and so on; `OpenStore::shape`
/// finds them by what they ask. The text of plans has plans of declared operations alone.
///
/// `ShapeLine` is for the first broken rule of the lines of shapes, one of S2, S3, S4, S6 and W4, with its
/// line. It comes behind the faults of the specification, and before those of plans.
pub fn open_with(
    alloc: Global,
    text: &[u8],
    shapes: &[u8],
    plans: &[u8],
    options: Options,
) -> Result<OpenStore, OpenFault>
    ensures opened { IfOk result (IsOpenedWith text.now shapes.now plans.now options) }
    ensures refused { IfErr result (IsRefusedWith text.now shapes.now plans.now options) }
{
    if !options.are_in_bounds() {
        return Err(OpenFault::Options);
    }
    let compiled = compile_texts(alloc, text, shapes, plans, options)?;
    open_compiled(alloc, compiled, options)
}

/// Reads the texts, accepts what they give, and plans it as a store has it.
pub(crate) fn compile_texts(
    alloc: Global,
    text: &[u8],
    shapes: &[u8],
    plans: &[u8],
    options: Options,
) -> Result<Compiled, OpenFault>
    requires { AreInBounds options }
    ensures compiled { IfOk result (IsCompiledWith text.now shapes.now plans.now options) }
    ensures refused { IfErr result (IsRefusedWith text.now shapes.now plans.now options) }
{
    if text.len() > MAX_TEXT || shapes.len() > MAX_TEXT || plans.len() > MAX_TEXT {
        return Err(OpenFault::TooLong);
    }
    let accepted = read_accepted(alloc, text, options)?;
    let further = read_further(alloc, text, shapes, &accepted)?;
    plan_embedded(alloc, accepted, further, plans)
}

/// Reads a specification that stands alone, which has then the most rows of a reply that are asked
/// for.
fn read_asked(alloc: Global, text: &[u8], options: Options) -> Result<WellFormed, OpenFault>
    requires { length text.now ≤ 2 ^ 24 }
    ensures read { IfOk result (IsAskedBy text.now options) }
    ensures named { IfOk result IsWellNamed }
    ensures few { IfOk result (λ spec. length spec.ops ≤ 32) }
    ensures unread { IfErr result (IsUnreadFor text.now) }
{
    match read_spec_only(alloc, text) {
        Ok(mut spec) => {
            spec.set_most_rows(options.most_rows());
            Ok(spec)
        }
        Err(ReadRefusal::Memory) => Err(OpenFault::Memory),
        Err(ReadRefusal::Line { rule, line }) => Err(OpenFault::Line { rule, line }),
    }
}

/// Reads it so, and tests its rules.
fn read_accepted(alloc: Global, text: &[u8], options: Options) -> Result<Accepted, OpenFault>
    requires { length text.now ≤ 2 ^ 24 }
    ensures reads { ReadsAccepted text.now options result }
    ensures named { IfOk result IsWellNamed }
    ensures few { IfOk result (λ accepted. length accepted.ops ≤ 32) }
{
    let spec = read_asked(alloc, text, options)?;
    match accept(alloc, spec) {
        Ok(accepted) => Ok(accepted),
        Err(AcceptFault::Memory) => Err(OpenFault::Memory),
        Err(AcceptFault::Refused(spec, refusal)) => Err(OpenFault::Rule(spec.into_spec(), refusal)),
    }
}

/// Reads the operations that a text of shapes gives for the specification of a text.
fn read_further(
    alloc: Global,
    text: &[u8],
    shapes: &[u8],
    accepted: &Accepted,
) -> Result<Ops, OpenFault>
    requires text { length text.now ≤ 2 ^ 24 }
    requires shapes { length shapes.now ≤ 2 ^ 24 }
    ensures read { IfOk result (λ further.
        shapes_of (text_version text.now) accepted.now shapes.now ≡ Ok further) }
    ensures few { IfOk result (λ further. length further ≤ 32) }
    ensures shapes { IfOk result (λ further. AllByRecursion (IsShapeOf accepted.now) further) }
    ensures unread { IfErr result (AreShapesUnreadFor text.now shapes.now accepted.now) }
{
    let version = text_version(alloc, text)?;
    match read_shapes(alloc, shapes, version, accepted.spec()) {
        Ok(further) => Ok(further),
        Err(ReadRefusal::Memory) => Err(OpenFault::Memory),
        Err(ReadRefusal::Line { rule, line }) => Err(OpenFault::ShapeLine { rule, line }),
    }
}

/// Opens a store of a specification whose operations are planned.
fn open_compiled(
    alloc: Global,
    compiled: Compiled,
    options: Options,
) -> Result<OpenStore, OpenFault>
    requires columns { HasKnownColumns compiled.spec }
    requires options { AreInBounds options }
    ensures store { IfOk result (IsBuiltOf compiled options) }
    ensures memory { IfErr result (λ fault. fault ≡ faults.Memory) }
{
    let columns = all_columns(alloc, compiled.accepted().spec())?;
    let Options {
        passes,
        limit,
        rows: _,
        seed,
    } = options;
    let (store, dealt) = Store::build(
        alloc,
        seed,
        compiled,
        passes,
        limit,
        Keeping::Counts,
        Quiet,
    )?;
    Ok(OpenStore {
        hold: Hold::Alone(Shared {
            store,
            columns,
            limit,
        }),
        alloc,
        passes: dealt,
        count: passes,
    })
}

/// The columns of each operation's values, by its number, a range column twice.
pub(crate) fn all_columns(alloc: Global, spec: &Spec) -> Result<Vec<Cols>, Memory>
    requires { length spec.now.columns ≤ 32 }
    ensures { IfOk result (λ columns. columns.items ≡ columns_of_all spec.now) }
{
    let mut columns = Vec::new(alloc);
    for op in 0..spec.ops.list().len() {
        columns.push(written_columns_at(alloc, spec, op)?)?;
    }
    Ok(columns)
}

impl OpenStore {
    /// What the store shares with its sessions.
    pub(crate) fn shared(&self) -> &Shared
        ensures { result.now ≡ self.now.store }
    {
        // A read of a field tells the check what holds of every open store.
        let _ = &self.count;
        self.hold.shared()
    }

    /// The store's specification: that of its text with its singletons inlined and its edges placed
    /// together, some of whose nodes and edges have other numbers.
    pub fn spec(&self) -> &Spec
        ensures value { result.now ≡ spec_of self.now.store.row }
        ensures range { IsInRange (spec_of self.now.store.row) }
        ensures columns { HasKnownColumns (spec_of self.now.store.row) }
    {
        self.shared().spec()
    }

    /// The plans by which the operations are answered, in the order of the operations: of each a line
    /// `plan` with its name, and a line for each statement. With the line `end` behind it is what
    /// `open_with_plans` reads, where none has more than 256 statements (`opened_plans_are_given_back` of
    /// `rc_text_laws`) and the text declares all operations: those of others stand under `plan ?1` and so
    /// on, and no text of plans may have them. It also tells that the columns of their Probes are sets.
    pub fn plans(&self) -> Result<Vec<u8>, Memory>
        ensures text { IfOk result (λ text. text.items
            ≡ plans_text (spec_of self.now.store.row) (compiled_of self.now.store.row).plans) }
        ensures sets { IsOk result
            → OpsHaveSets (spec_of self.now.store.row) (compiled_of self.now.store.row).plans }
    {
        print_plans(self.alloc, self.shared().store.compiled())
    }

    /// The number of the operation with this name; `None` exactly where no operation has it.
    pub fn operation(&self, name: &[u8]) -> Option<u32>
        ensures known { IfSome result (λ op. op < length (spec_of self.now.store.row).ops) }
        ensures number { result
            ≡ number_among (op_names (spec_of self.now.store.row).ops) name.now }
    {
        match number_among(self.spec().ops.list(), name) {
            Some(number) => Some(number as u32),
            None => None,
        }
    }

    /// The number of the first operation, declared or not, that asks as this one line does: it is of its
    /// kind, and has its lists of columns in written order. The line has the form of an `op` line behind
    /// its name, as those of `open_with`. `None` exactly where no operation asks so, as where the line has
    /// no such form, a list other than that of outputs names a column twice, or a word names no column.
    pub fn shape(&self, line: &[u8]) -> Result<Option<u32>, Memory>
        ensures known { IfOk result (λ found.
            IfSome found (λ op. op < length (spec_of self.now.store.row).ops)) }
        ensures number { IfOk result (λ found.
            found ≡ shape_number (spec_of self.now.store.row) line.now) }
    {
        shape_number(self.alloc, self.spec(), line)
    }

    /// The columns of the values of an operation, in the order in which a call gives them; a range
    /// column stands twice, for its lower and its upper bound. `None` exactly where no operation
    /// has the number.
    pub fn columns(&self, op: u32) -> Option<&[u8]>
        ensures { option_copied result ≡ known_columns (spec_of self.now.store.row) op }
    {
        if op as usize >= self.spec().ops.list().len() {
            return None;
        }
        Some(self.shared().columns(op))
    }

    /// The columns of an operation's pattern, in the order in which it is written: who declares the
    /// operation for an open group gives a value of each, in this order. `None` exactly where no
    /// operation has the number.
    pub fn pattern(&self, op: u32) -> Option<&[u8]>
        ensures { option_copied result ≡ known_pattern (spec_of self.now.store.row) op }
    {
        if op as usize >= self.spec().ops.list().len() {
            return None;
        }
        Some(self.shared().pattern(op))
    }

    /// Begins a session, on the heap, with the first pass that no session has: passes of a new
    /// store are in the order of their numbers, from 0. `NoneLeft` exactly where there is none.
    pub fn session(&mut self) -> Result<Box<Session, Global>, SessionFault>
        ensures store { self.new.store ≡ self.old.store }
        ensures session { IfOk result (λ held. HasDealt self.old self.new held.value) }
        ensures none { result ≡ Err session_faults.NoneLeft ↔ self.old.passes ≡ [] }
        ensures same { IfErr result (λ _. self.new ≡ self.old) }
    {
        if self.passes.is_empty() {
            return Err(SessionFault::NoneLeft);
        }
        let Ok(shared) = self.hold.share(self.alloc) else {
            return Err(SessionFault::Memory);
        };
        let pass = self.passes.remove(0);
        match session_of(self.alloc, shared, pass) {
            Ok(session) => Ok(session),
            Err(pass) => {
                let Ok(()) = self.passes.insert(0, pass) else {
                    unreachable!()
                };
                Err(SessionFault::Memory)
            }
        }
    }
}

/// A session with the pass, which comes back where memory is wanted.
fn session_of(
    alloc: Global,
    shared: Arc<Shared, Global>,
    pass: Pass,
) -> Result<Box<Session, Global>, Pass>
    requires { IsFree (arc_value shared) pass }
    ensures session { IfOk result (λ held. held.value ≡ new_session (arc_value shared) pass) }
    ensures back { IfErr result (λ back. back ≡ pass) }
{
    let session = Session {
        shared,
        state: State::Idle(pass),
        call: blank_call(alloc),
        calls: Vec::new(alloc),
        last: Last::Call(None),
        picked: 0,
    };
    match Box::new(alloc, session) {
        Ok(held) => Ok(held),
        Err(AllocFailed { value }) => Err(value.into_pass()),
    }
}
