//! Numbers.
ghost use Rattle.std.specs.Prelude.{◌≡◌};
ghost use Rattle.ooc_decimal.specs.Numeric.{IsNumeric};
ghost use Rattle.csv_load.specs.Numbers.{number_of};

use ooc_decimal::read_number;
use ooc_types::SqlType;

/// The number that a field spells, where it spells one in the range of the type.
pub fn read_in_range(field: &[u8], kind: SqlType) -> Option<i128>
    requires { IsNumeric kind }
    ensures { result ≡ number_of kind field.now }
{
    read_number(field, kind)
}
