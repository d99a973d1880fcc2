//! The extra values of a row.

ghost use Rattle.std.specs.Prelude.{◌≡◌, length, IfOk, OnOk, OnErr};

use rc_tuple::Memory;
use std::alloc::Global;
use std::marker::Model;
use std::slice;

/// A row's values that neither its source nor its key has. None, or one alone, takes no memory.
#[derive(Drop, Debug)]
pub(crate) struct Extra {
    form: Form,
}

#[derive(Drop, Debug)]
enum Form {
    None,
    One(u64),
    /// Two or more. They stand behind a pointer, so that an entry stays small.
    Many(Box<Vec<u64>>),
}

impl Model for Extra {
    ghost use Rattle.rc_edges.specs.Values.{Values};
    ghost use Rattle.rc_edges.specs.Extra.{values_of};

    ghost Value = { Values };

    ghost view = { λ e. values_of e.form };
}

impl Extra {
    /// The extra values of this slice. Two or more take memory, and cost as much as they are.
    pub(crate) fn from_slice(alloc: Global, values: &[u64]) -> Result<Extra, Memory>
        ensures { IfOk result (λ extra. extra ≡ values.now) }
    {
        let form = match values {
            [] => Form::None,
            [value] => Form::One(*value),
            _ => Form::Many(Box::new(alloc, Vec::from_slice(alloc, values)?)?),
        };
        Ok(Extra { form })
    }

    /// Makes the values these, as many as there are. Takes no memory.
    pub(crate) fn set(&mut self, values: &[u64])
        requires { length self.old ≡ length values.now }
        ensures { self.new ≡ values.now }
    {
        match &mut self.form {
            Form::None => {}
            Form::One(value) => *value = values[0],
            Form::Many(own) => own.copy_from_slice(values),
        }
    }

    /// Makes the values these. Takes no memory where they are as many; where memory is wanted nothing
    /// changes.
    pub(crate) fn replace(&mut self, alloc: Global, values: &[u64]) -> Result<(), Memory>
        ensures ok { OnOk result (self.new ≡ values.now) }
        ensures err { OnErr result (self.new ≡ self.old) }
    {
        if self.as_slice().len() == values.len() {
            self.set(values);
        } else {
            *self = Extra::from_slice(alloc, values)?;
        }
        Ok(())
    }

    /// The values, in the order of their columns.
    pub(crate) fn as_slice(&self) -> &[u64]
        ensures { result.now ≡ self.now }
    {
        match &self.form {
            Form::None => &[],
            Form::One(value) => slice::from_ref(value),
            Form::Many(values) => values.as_slice(),
        }
    }

    /// The same extra values once more.
    pub(crate) fn copy(&self) -> Result<Extra, Memory>
        ensures { IfOk result (λ copy. copy ≡ self.now) }
    {
        let form = match &self.form {
            Form::None => Form::None,
            Form::One(value) => Form::One(*value),
            Form::Many(values) => {
                let alloc = *values.allocator();
                Form::Many(Box::new(alloc, Vec::from_slice(alloc, values.as_slice())?)?)
            }
        };
        Ok(Extra { form })
    }
}
