//! Sets of rows on pages: writers of rows, cursors over the row pages of a set, and the end of a set.
#![tactic(auto)]

mod adding;
mod cells;
mod closing;
mod cursor;
mod kinds;
mod laws;
mod limits;
mod opening;
mod retire;
mod row_put;
mod row_set;
mod texts;
mod writer;

pub use adding::try_append;
pub use closing::{abandon, finish};
pub use cursor::{Cursor, pin_page};
pub use kinds::{Kinds, layout_of};
pub use laws::{rows_lie_on_pages, sets_are_packed};
pub use limits::{MOST_LONG, MOST_ROWS};
pub use opening::{append, get_room};
pub use retire::retire_set;
pub use row_set::{RowSet, SetPage};
pub use texts::long_in;
pub use writer::Writer;
