//! How a store goes on that was closed.

ghost use Rattle.std.specs.Prelude.{◌≡◌, ◌≤◌, ◌↔◌, IfErr, IfOk, IsTrue, None, OnOk};
ghost use Rattle.std.specs.List.{AllByRecursion};
ghost use Rattle.rc_rel.specs.Further.{Extends};
ghost use Rattle.rc_work.specs.CallColumns.{HasKnownColumns};
ghost use Rattle.rc_embed.specs.declared.fault.OpenFault.TheVariants as faults;
ghost use Rattle.rc_embed.specs.declared.fault.ResumeFault.TheVariants as resume_faults;
ghost use Rattle.rc_embed.specs.Opened.{AreInBounds, IsCompiledWith};
ghost use Rattle.rc_embed.specs.Resuming.{IsOneOf, IsOneResumed, IsResumedOf, IsResumedWith};
ghost use Rattle.rc_embed.specs.Resuming.{IsTooSmallFor, IsUnresumedFor, Suffices};

use crate::fault::{OpenFault, ResumeFault};
use crate::further::is_further;
use crate::hold::Hold;
use crate::opening::{OpenStore, Options, all_columns, compile_texts};
use crate::shared::Shared;
use rc_plan::Compiled;
use rc_store::{Closed, Quiet, Store};
use std::alloc::Global;

/// A closed store that doesn't go on, as it was, and why not.
#[derive(Drop)]
pub struct ResumeBack {
    /// The closed store.
    pub closed: Closed,
    /// Why it doesn't go on.
    pub fault: ResumeFault,
}

/// Opens a store again that was closed, by texts as `open_with` takes them: with its tuples, and with its one history going on.
/// Their specification is that of the closed store, or that with further operations behind its own, as shapes are, with the same
/// most rows of a reply; it may have other plans. There are as many sessions as the closed store had, or more, and each has made the calls that the one of its
/// number had made, stands behind all of the history, and may make so many calls in all, those of before among them. The seed
/// is that of hash tables that are made from now on.
///
/// The options are tested first (`Refused(OpenFault::Options)`), then whether they suffice for what the closed store had
/// (`Sessions`, `Limit`), then the texts, as `open_with` does (`Refused`), and then whether they give its specification
/// (`Other`). In each case the closed store comes back as it was. Its one condition is that the closed store kept no entries, as
/// those of this crate keep none. Costs what reading, embedding and planning cost, and for each
/// session room for a fragment of each stripe; no row is copied, and no call is made again. (PLDI 2012, serializable
/// transactions.)
pub fn resume(
    alloc: Global,
    closed: Closed,
    text: &[u8],
    shapes: &[u8],
    plans: &[u8],
    options: Options,
) -> Result<OpenStore, ResumeBack>
    requires { closed.journal ≡ None }
    ensures resumed { IfOk result
        (IsResumedWith closed text.now shapes.now plans.now options) }
    ensures same { IfErr result (λ back. back.closed ≡ closed) }
    ensures refused { IfErr result
        (λ back. IsUnresumedFor closed text.now shapes.now plans.now options back.fault) }
{
    match compile_further(alloc, &closed, text, shapes, plans, options) {
        Ok(compiled) => resume_compiled(alloc, closed, compiled, options),
        Err(fault) => Err(ResumeBack { closed, fault }),
    }
}

/// Opens it so into a list that has room for it alone, whose memory is taken before anything is made of the closed store.
pub(crate) fn resume_into(
    alloc: Global,
    closed: Closed,
    text: &[u8],
    shapes: &[u8],
    plans: &[u8],
    options: Options,
) -> Result<Vec<OpenStore>, ResumeBack>
    requires { closed.journal ≡ None }
    ensures resumed { IfOk result
        (λ stores. IsOneResumed closed text.now shapes.now plans.now options stores.items) }
    ensures same { IfErr result (λ back. back.closed ≡ closed) }
    ensures refused { IfErr result
        (λ back. IsUnresumedFor closed text.now shapes.now plans.now options back.fault) }
{
    match compile_further(alloc, &closed, text, shapes, plans, options) {
        Ok(compiled) => resume_alone(alloc, closed, compiled, options),
        Err(fault) => Err(ResumeBack { closed, fault }),
    }
}

/// Reads and plans the texts, and tests all that a closed store asks of them and of the options.
fn compile_further(
    alloc: Global,
    closed: &Closed,
    text: &[u8],
    shapes: &[u8],
    plans: &[u8],
    options: Options,
) -> Result<Compiled, ResumeFault>
    ensures allowed { IfOk result (λ _. AreInBounds options × Suffices closed.now options) }
    ensures compiled { IfOk result (IsCompiledWith text.now shapes.now plans.now options) }
    ensures further { IfOk result
        (λ compiled. Extends closed.now.compiled.spec compiled.spec) }
    ensures refused { IfErr result
        (IsUnresumedFor closed.now text.now shapes.now plans.now options) }
{
    test_options(closed, options)?;
    let compiled = compile_texts(alloc, text, shapes, plans, options)?;
    if is_further(
        closed.compiled().accepted().spec(),
        compiled.accepted().spec(),
    ) {
        Ok(compiled)
    } else {
        Err(ResumeFault::Other)
    }
}

/// Tests the options, and whether they suffice for a closed store.
fn test_options(closed: &Closed, options: Options) -> Result<(), ResumeFault>
    ensures allowed { OnOk result (AreInBounds options × Suffices closed.now options) }
    ensures refused { IfErr result (IsTooSmallFor closed.now options) }
{
    if !options.are_in_bounds() {
        return Err(ResumeFault::Refused(OpenFault::Options));
    }
    if closed.made().len() > options.passes as usize {
        return Err(ResumeFault::Sessions);
    }
    if !are_within(closed.made(), options.limit) {
        return Err(ResumeFault::Limit);
    }
    Ok(())
}

/// Whether none of the numbers is above the limit.
fn are_within(numbers: &[u64], limit: u64) -> bool
    ensures { IsTrue result ↔ AllByRecursion (λ number. number ≤ limit) numbers.now }
{
    numbers.iter().all(|number| *number <= limit)
}

/// Opens a closed store again over a specification whose operations are planned.
fn resume_compiled(
    alloc: Global,
    closed: Closed,
    compiled: Compiled,
    options: Options,
) -> Result<OpenStore, ResumeBack>
    requires counts { closed.journal ≡ None }
    requires further { Extends closed.compiled.spec compiled.spec }
    requires columns { HasKnownColumns compiled.spec }
    requires options { AreInBounds options }
    requires suffices { Suffices closed options }
    ensures resumed { IfOk result (IsResumedOf closed compiled options) }
    ensures same { IfErr result (λ back. back.closed ≡ closed) }
    ensures memory { IfErr result
        (λ back. back.fault ≡ resume_faults.Refused faults.Memory) }
{
    let Ok(columns) = all_columns(alloc, compiled.accepted().spec()) else {
        return Err(for_memory(closed));
    };
    let Options {
        passes,
        limit,
        rows: _,
        seed,
    } = options;
    match Store::resume(alloc, seed, closed, compiled, passes, limit, Quiet) {
        Ok((store, dealt)) => Ok(OpenStore {
            hold: Hold::Alone(Shared {
                store,
                columns,
                limit,
            }),
            alloc,
            passes: dealt,
            count: passes,
        }),
        Err(back) => Err(for_memory(back.closed)),
    }
}

/// Opens it so into a list that has room for it alone.
fn resume_alone(
    alloc: Global,
    closed: Closed,
    compiled: Compiled,
    options: Options,
) -> Result<Vec<OpenStore>, ResumeBack>
    requires counts { closed.journal ≡ None }
    requires further { Extends closed.compiled.spec compiled.spec }
    requires columns { HasKnownColumns compiled.spec }
    requires options { AreInBounds options }
    requires suffices { Suffices closed options }
    ensures resumed { IfOk result (λ stores. IsOneOf closed compiled options stores.items) }
    ensures same { IfErr result (λ back. back.closed ≡ closed) }
    ensures memory { IfErr result
        (λ back. back.fault ≡ resume_faults.Refused faults.Memory) }
{
    let Ok(mut stores) = Vec::with_capacity(alloc, 1) else {
        return Err(for_memory(closed));
    };
    match resume_compiled(alloc, closed, compiled, options) {
        Ok(store) => {
            stores.push_reserved(store);
            Ok(stores)
        }
        Err(back) => Err(back),
    }
}

/// The closed store, where memory was wanted.
fn for_memory(closed: Closed) -> ResumeBack
    ensures closed { result.closed ≡ closed }
    ensures fault { result.fault ≡ resume_faults.Refused faults.Memory }
{
    ResumeBack {
        closed,
        fault: ResumeFault::Refused(OpenFault::Memory),
    }
}
