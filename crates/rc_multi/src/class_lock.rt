//! What plans ask of a lock class.

ghost use Rattle.std.specs.Prelude.{◌≡◌, ◌<◌, false, length, if◌then◌else◌};
ghost use Rattle.rc_spec.specs.declared.lock.Mode.TheVariants.{Exclusive, Shared};
ghost use Rattle.rc_plan.specs.Turns.{with_plan};
ghost use Rattle.rc_multi.specs.ClassUse.{class_use, either, statement_use};
ghost use Rattle.rc_multi.specs.GroupLocks.{HasOperation, class_lock, is_exclusive, may_be_any};

use rc_plan::{Compiled, Statement, Which};
use rc_spec::{Call, Mode};

/// What a Lock takes: stripes of a class.
#[derive(Clone, Copy)]
pub(crate) struct ClassLock {
    /// The class, from 0.
    pub(crate) class: u8,
    /// Which of its stripes.
    pub(crate) choice: Which,
    /// How each is locked.
    pub(crate) mode: Mode,
}

/// What the statement takes, where it is a Lock.
pub(crate) fn class_lock(statement: &Statement) -> Option<ClassLock>
    ensures { result ≡ class_lock statement.now }
{
    match statement {
        Statement::Lock { class, which, mode } => Some(ClassLock {
            class: *class,
            choice: *which,
            mode: *mode,
        }),
        Statement::Probe { .. }
        | Statement::Read { .. }
        | Statement::CheckAbsent
        | Statement::CheckFound
        | Statement::CheckDep { .. }
        | Statement::Apply
        | Statement::Emit
        | Statement::Commit
        | Statement::Release { .. } => None,
    }
}

/// Whether a Lock may take any stripe of its class, where the call's arguments choose one or don't.
pub(crate) fn may_be_any(choice: Which, chosen: bool) -> bool
    ensures { result ≡ may_be_any chosen choice }
{
    match choice {
        Which::All => true,
        Which::Keyed => !chosen,
    }
}

/// Whether it is the mode of a writer.
fn is_exclusive(mode: Mode) -> bool
    ensures { result ≡ is_exclusive mode }
{
    match mode {
        Mode::Exclusive => true,
        Mode::Shared => false,
    }
}

/// What plans ask of a class.
#[derive(Clone, Copy)]
pub(crate) struct ClassUse {
    /// Some plan locks it.
    pub(crate) locks: bool,
    /// Some plan may take any stripe of it.
    pub(crate) any: bool,
    /// Some plan locks it Exclusive.
    pub(crate) exclusive: bool,
}

impl ClassUse {
    /// Nothing.
    pub(crate) fn none() -> ClassUse
        ensures { result ≡ record { locks = false; any = false; exclusive = false } }
    {
        ClassUse {
            locks: false,
            any: false,
            exclusive: false,
        }
    }

    /// What either asks.
    pub(crate) fn or(self, other: ClassUse) -> ClassUse
        ensures { result ≡ either self other }
    {
        ClassUse {
            locks: self.locks || other.locks,
            any: self.any || other.any,
            exclusive: self.exclusive || other.exclusive,
        }
    }

    /// The mode in which its stripes are locked.
    pub(crate) fn mode(self) -> Mode
        ensures { result ≡ (if self.exclusive then Exclusive else Shared) }
    {
        if self.exclusive {
            Mode::Exclusive
        } else {
            Mode::Shared
        }
    }
}

/// What the statement asks of the class, where the call's arguments choose a stripe of it or don't.
fn statement_use(statement: &Statement, class: u8, chosen: bool) -> ClassUse
    ensures { result ≡ statement_use class chosen statement.now }
{
    match class_lock(statement) {
        Some(lock) if lock.class == class => ClassUse {
            locks: true,
            any: may_be_any(lock.choice, chosen),
            exclusive: is_exclusive(lock.mode),
        },
        _ => ClassUse::none(),
    }
}

/// What the call's plan asks of the class. Costs a walk over the plan.
pub(crate) fn class_use(compiled: &Compiled, call: &Call, class: u8) -> ClassUse
    requires operation { HasOperation compiled.now.spec call.now }
    requires known { class < length compiled.now.spec.classes }
    ensures { result ≡ class_use compiled.now.spec class (with_plan compiled.now.plans call.now) }
{
    let chosen = compiled.class(class).cols.within(call.args.cols());
    let mut asked = ClassUse::none();
    for statement in compiled.plan(call.op).list() {
        asked = asked.or(statement_use(statement, class, chosen));
    }
    asked
}
