//! An aggregate on its way.
ghost use Rattle.std.specs.Prelude.{◌≡◌, ◌↔◌, ◌+◌, ◌<◌, pos, ℤ, OnOk, OnErr, IfOk, IsErr, Err, ◌⊎◌};
ghost use Rattle.ooc_types.specs.declared.schema.SqlType.TheVariants.{Varchar};
ghost use Rattle.agg_states.specs.Bounds.{CanStart, CanTake};
ghost use Rattle.agg_states.specs.Cells.{IsText, TakesMemory};
ghost use Rattle.agg_states.specs.Tally.{Tally, started, added, merged, row_limit};
ghost use Rattle.agg_states.specs.Restored.{IsRestored};
ghost use Rattle.agg_states.specs.declared.kind.AggFault.TheVariants.{CountOverflow};

use crate::cell::{copy_value, join, take};
use crate::kind::{AggFault, AggKind};
use crate::restore::{restored_cell, restored_rows};
use ooc_types::{OutOfMemory, SqlType, Value};
use std::marker::Model;

/// The rows that an aggregate takes at most.
pub const ROW_LIMIT: u64 = 100_000_000_000;

/// An aggregate of some values. Contracts see how many it took, and the cell that it would answer.
#[derive(Debug, Drop)]
pub struct AggState {
    kind: AggKind,
    of: SqlType,
    rows: u64,
    cell: Value,
}

impl Model for AggState {
    ghost use Rattle.agg_states.specs.Bounds.{IsSound};
    ghost use Rattle.agg_states.specs.Tally.{Tally};

    ghost Value = { Tally };

    ghost view = { λ s. record { kind = s.kind; of = s.of; rows = s.rows; cell = s.cell } };

    ghost invariant = { λ s. IsSound s.kind s.of s.rows s.cell };
}

impl AggState {
    /// An aggregate of nothing yet. `of` is the type of the values.
    pub fn start(kind: AggKind, of: SqlType) -> AggState
        requires { CanStart kind of }
        ensures { result ≡ started kind of }
    {
        let cell = match kind {
            AggKind::CountRows | AggKind::Count => Value::Number {
                digits: 0,
                scale: 0,
            },
            AggKind::Sum | AggKind::Min | AggKind::Max => Value::Null,
        };
        AggState {
            kind,
            of,
            rows: 0,
            cell,
        }
    }

    /// Takes a value. A number or a day outside its type's range is taken as the nearest value of the type. After a
    /// refusal the aggregate is as before. Only the least and the greatest of texts take memory.
    pub fn add(&mut self, value: &Value) -> Result<(), AggFault>
        requires { CanTake self.old value.now }
        ensures ok { OnOk result (self.new ≡ added self.old value.now) }
        ensures err { OnErr result (self.new ≡ self.old) }
        ensures full { (result ≡ Err CountOverflow) ↔ (self.old.rows ≡ row_limit) }
        ensures memory { IsErr result → (self.old.rows ≡ row_limit) ⊎ TakesMemory self.old.kind value.now }
    {
        if self.rows == ROW_LIMIT {
            return Err(AggFault::CountOverflow);
        }
        take(self.kind, self.of, self.rows, &mut self.cell, value)?;
        self.rows += 1;
        Ok(())
    }

    /// Takes all that another aggregate of the same kind and type took. After a refusal the aggregate is as before.
    pub fn merge(&mut self, other: AggState) -> Result<(), AggFault>
        requires kind { self.old.kind ≡ other.kind }
        requires of { self.old.of ≡ other.of }
        ensures ok { OnOk result (self.new ≡ merged self.old other) }
        ensures err { OnErr result (self.new ≡ self.old) }
        ensures full { (result ≡ Err CountOverflow) ↔ (row_limit < self.old.rows + other.rows) }
        ensures only { IsErr result → result ≡ Err CountOverflow }
    {
        if ROW_LIMIT - self.rows < other.rows {
            return Err(AggFault::CountOverflow);
        }
        let AggState { rows, cell, .. } = other;
        join(self.kind, &mut self.cell, cell);
        self.rows += rows;
        Ok(())
    }

    /// The answer.
    pub fn finish(self) -> Value
        ensures { result ≡ self.cell }
    {
        let AggState { cell, .. } = self;
        cell
    }

    /// The rows taken and the cell, by which `restore` gives the same aggregate back. Only a text takes memory.
    pub fn kept(&self) -> Result<(i128, Value), OutOfMemory>
        ensures kept { IfOk result (λ kept. (kept.0 ≡ pos self.now.rows) × (kept.1 ≡ self.now.cell)) }
        ensures back { (t : Tally) → IsRestored self.now.kind self.now.of (pos self.now.rows) self.now.cell t → t ≡ self.now }
        ensures err { OnErr result (IsText self.now.cell) }
    {
        Ok((self.rows as i128, copy_value(&self.cell)?))
    }

    /// The aggregate of rows and a cell that were kept. Rows outside 0 to the limit are taken as the nearest end, and so
    /// are a count outside 0 to the rows, and a sum outside the rows times the type's ends. A cell of another form is
    /// taken as NULL, and as a count of nothing.
    pub fn restore(kind: AggKind, of: SqlType, rows: i128, kept: Value) -> AggState
        requires { CanStart kind of }
        ensures { IsRestored kind of rows kept result }
    {
        let rows = restored_rows(rows);
        let cell = restored_cell(kind, of, rows, kept);
        AggState {
            kind,
            of,
            rows,
            cell,
        }
    }
}
