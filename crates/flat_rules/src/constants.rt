//! Lists of constants.
ghost use Rattle.std.specs.Prelude.{◌≤◌, length};
ghost use Rattle.sql_grammar.specs.Reading.{read};
ghost use Rattle.sql_grammar.specs.Combinators.{list};
ghost use Rattle.sql_grammar.specs.Nesting.{readers};
ghost use Rattle.flat_rules.specs.Gives.{Gives};
ghost use Rattle.sql_grammar.specs.Expressions as form;

use crate::cursor::Cursor;
use crate::leaves::constant;
use sql_grammar::Fault;
use sql_grammar::tree::Constant;
use sql_lex::Sign;
use sqlite_items::Items;
use std::alloc::Global;

/// `const { "," const }`
pub(crate) fn constants(
    alloc: Global,
    cursor: &mut Cursor<'_>,
    depth: u8,
) -> Result<Items<Constant>, Fault>
    ensures gives { Gives (read (readers depth) (list form.constant) cursor.old) result cursor.new }
    ensures shrinks { length cursor.new ≤ length cursor.old }
{
    let first = constant(cursor, depth)?;
    let mut found = Items::new(alloc);
    found.push(first)?;
    'turns: while cursor.at_sign(Sign::Comma) {
        cursor.shift();
        let next = constant(cursor, depth)?;
        found.push(next)?;
    }
    Ok(found)
}
