//! A row, which contracts see as its list of values.
ghost use Rattle.std.specs.Prelude.{◌≡◌, [], ◌∷◌, ◌++◌, OnOk, OnErr, length};

use crate::memory::OutOfMemory;
use crate::value::Value;
use std::alloc::{AllocError, Global};
use std::marker::Model;

/// A row, which contracts see as its list of values.
#[derive(Debug, Drop)]
pub struct Row {
    values: Vec<Value>,
}

impl Model for Row {
    ghost use Rattle.std.specs.Prelude.{List};
    ghost use Rattle.ooc_types.specs.declared.value.Value.{Value as SqlValue};

    ghost Value = { List SqlValue };

    ghost view = { λ r. r.values.items };
}

impl Clone for Row {
    ghost use Rattle.std.specs.Prelude.{◌≡◌};

    ghost is_clone = { λ a b. b ≡ a };

    fn clone(&self) -> Result<Row, AllocError> {
        Ok(Row {
            values: Vec::from_clones(*self.values.allocator(), self.values.as_slice())?,
        })
    }
}

impl Row {
    /// A row of no values, which takes no memory yet.
    pub fn new_row(alloc: Global) -> Row
        ensures { result ≡ [] }
    {
        Row {
            values: Vec::new(alloc),
        }
    }

    pub fn from_vec(values: Vec<Value>) -> Row
        ensures { result ≡ values.items }
    {
        Row { values }
    }

    /// The values, so that their memory can be used again.
    pub fn into_vec(self) -> Vec<Value>
        ensures { result.items ≡ self }
    {
        let Row { values } = self;
        values
    }

    pub fn as_slice(&self) -> &[Value]
        ensures { result.now ≡ self.now }
    {
        self.values.as_slice()
    }

    /// Adds a value at the end.
    pub fn push(&mut self, value: Value) -> Result<(), OutOfMemory>
        ensures ok { OnOk result (self.new ≡ self.old ++ value ∷ []) }
        ensures err { OnErr result (self.new ≡ self.old) }
    {
        self.values.push(value)?;
        Ok(())
    }

    /// Takes all values away and keeps the memory.
    pub fn clear(&mut self)
        ensures { self.new ≡ [] }
    {
        self.values.clear();
    }
}
