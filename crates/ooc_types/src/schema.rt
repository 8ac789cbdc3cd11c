//! Columns and their types.
ghost use Rattle.std.specs.Prelude.{◌≡◌, [], ◌∷◌, ◌++◌, OnOk, OnErr};

use crate::memory::OutOfMemory;
use crate::text::Text;
use std::alloc::{AllocError, Global};
use std::marker::Model;

/// A type of SQL. INTEGER has 32 bits, BIGINT 64 and HUGEINT 128.
/// DECIMAL(w,s) has at most w digits, of which s stand behind the point.
#[derive(Clone, Copy, Debug, PartialEq, Eq)]
pub enum SqlType {
    Boolean,
    Integer,
    BigInt,
    HugeInt,
    Decimal { width: u8, scale: u8 },
    Date,
    Varchar,
}

/// A column of a table or of a result.
#[derive(Clone, Debug, Drop)]
pub struct Column {
    pub name: Text,
    pub kind: SqlType,
    pub nullable: bool,
}

/// The columns of a table or of a result, in their order. Contracts see the list.
#[derive(Debug, Drop)]
pub struct Schema {
    columns: Vec<Column>,
}

impl Model for Schema {
    ghost use Rattle.std.specs.Prelude.{List};
    ghost use Rattle.ooc_types.specs.declared.schema.Column.{Column};

    ghost Value = { List Column };

    ghost view = { λ s. s.columns.items };
}

impl Clone for Schema {
    ghost use Rattle.std.specs.Prelude.{◌≡◌};

    ghost is_clone = { λ a b. b ≡ a };

    fn clone(&self) -> Result<Schema, AllocError> {
        Ok(Schema {
            columns: Vec::from_clones(*self.columns.allocator(), self.columns.as_slice())?,
        })
    }
}

impl Schema {
    /// No columns yet.
    pub fn new_schema(alloc: Global) -> Schema
        ensures { result ≡ [] }
    {
        Schema {
            columns: Vec::new(alloc),
        }
    }

    pub fn from_vec(columns: Vec<Column>) -> Schema
        ensures { result ≡ columns.items }
    {
        Schema { columns }
    }

    pub fn as_slice(&self) -> &[Column]
        ensures { result.now ≡ self.now }
    {
        self.columns.as_slice()
    }

    /// Adds a column at the end.
    pub fn push(&mut self, column: Column) -> Result<(), OutOfMemory>
        ensures ok { OnOk result (self.new ≡ self.old ++ column ∷ []) }
        ensures err { OnErr result (self.new ≡ self.old) }
    {
        self.columns.push(column)?;
        Ok(())
    }
}
