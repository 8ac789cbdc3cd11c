//! Laws of the definition. The functions do nothing; their contracts say the laws.
ghost use Rattle.well_formed.specs.Rows.{IsWellFormedSelect};
ghost use Rattle.well_formed.specs.Worked.{worked_schemas, worked_select};

/// `SELECT k, count(*) AS n FROM t WHERE k IN (SELECT k FROM t AS u) GROUP BY k HAVING count(*) > 1 ORDER BY n DESC LIMIT 2`,
/// over a table `t` with one column `k INTEGER`, is well-formed.
pub fn a_worked_select_is_well_formed()
    ensures { IsWellFormedSelect 63 worked_schemas worked_select }
{}
