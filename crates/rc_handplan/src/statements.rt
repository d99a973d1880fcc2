//! Looks up what the words of a statement's line name.

ghost use Rattle.std.specs.Prelude.{◌≡◌};
ghost use Rattle.rc_reader.specs.Forms.{texts};
ghost use Rattle.rc_spec.specs.InRange.{IsInRange};
ghost use Rattle.rc_handplan.specs.Forms.{form_text};
ghost use Rattle.rc_handplan.specs.Statements.{class_named, edge_named, columns_named};
ghost use Rattle.rc_handplan.specs.Statements.{dependency_named, statement_of};

use crate::forms::Form;
use rc_plan::Statement;
use rc_reader::number_among;
use rc_spec::Spec;
use rc_text::read_u64;
use rc_tuple::ColSet;

/// The class with this name.
fn class_named(spec: &Spec, name: &[u8]) -> Option<u8>
    requires { IsInRange spec.now }
    ensures { result ≡ class_named spec.now name.now }
{
    let class = number_among(spec.classes.list(), name)?;
    Some(class as u8)
}

/// The edge with this name.
fn edge_named(spec: &Spec, name: &[u8]) -> Option<u8>
    requires { IsInRange spec.now }
    ensures { result ≡ edge_named spec.now name.now }
{
    let edge = number_among(spec.edges.list(), name)?;
    Some(edge as u8)
}

/// The set of the columns that words name, or `None` where a word names none, or two the same.
fn columns_named(spec: &Spec, words: &[&[u8]]) -> Option<ColSet>
    requires { IsInRange spec.now }
    ensures { result ≡ columns_named spec.now (texts words.now) }
{
    let mut columns = ColSet::empty();
    for word in words {
        let column = number_among(spec.columns.list(), word)? as u8;
        if columns.has(column) {
            return None;
        }
        columns = columns.with(column);
    }
    Some(columns)
}

/// The dependency with this number, counted from 1.
fn dependency_named(spec: &Spec, number: &[u8]) -> Option<u32>
    requires { IsInRange spec.now }
    ensures { result ≡ dependency_named spec.now number.now }
{
    match read_u64(number) {
        Ok(dep) if 1 <= dep && dep <= spec.deps.list().len() as u64 => Some(dep as u32),
        _ => None,
    }
}

/// The statement that a line of this form writes, or `None` where it names what the specification
/// hasn't, or a column twice.
pub(crate) fn statement_of(spec: &Spec, form: Form<'_>) -> Option<Statement>
    requires { IsInRange spec.now }
    ensures { result ≡ statement_of spec.now (form_text form.entry) }
{
    match form {
        Form::Lock { class, which, mode } => {
            let class = class_named(spec, class)?;
            Some(Statement::Lock { class, which, mode })
        }
        Form::Probe { columns } => {
            let cols = columns_named(spec, columns)?;
            Some(Statement::Probe { cols })
        }
        Form::Read { edge, mode } => {
            let edge = edge_named(spec, edge)?;
            Some(Statement::Read { edge, mode })
        }
        Form::Absent => Some(Statement::CheckAbsent),
        Form::Found => Some(Statement::CheckFound),
        Form::Check { number } => {
            let dep = dependency_named(spec, number)?;
            Some(Statement::CheckDep { dep })
        }
        Form::Apply => Some(Statement::Apply),
        Form::Emit => Some(Statement::Emit),
        Form::Commit => Some(Statement::Commit),
        Form::Release { class } => {
            let class = class_named(spec, class)?;
            Some(Statement::Release { class })
        }
    }
}
