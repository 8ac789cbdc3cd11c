//! The blanks at the ends of a field.
ghost use Rattle.std.specs.Prelude.{◌≡◌, reverse};
ghost use Rattle.ooc_decimal.specs.Numeral as spec;

fn is_blank(byte: u8) -> bool
    ensures { result ≡ spec.is_blank byte }
{
    byte == b' ' || byte == b'\t'
}

fn without_front(field: &[u8]) -> &[u8]
    ensures { result.now ≡ spec.after_blanks field.now }
{
    for (at, byte) in field.iter().enumerate() {
        if !is_blank(*byte) {
            return &field[at..];
        }
    }
    &field[field.len()..]
}

fn without_back(field: &[u8]) -> &[u8]
    ensures { result.now ≡ reverse (spec.after_blanks (reverse field.now)) }
{
    let mut end = field.len();
    while end > 0 {
        if !is_blank(field[end - 1]) {
            return &field[..end];
        }
        end -= 1;
    }
    &field[..0]
}

/// The field without the spaces and tabs at its ends.
#[tactic(auto, unfolding(ooc_decimal::specs::Numeral::trimmed))]
pub fn without_blanks(field: &[u8]) -> &[u8]
    ensures { result.now ≡ spec.trimmed field.now }
{
    without_back(without_front(field))
}
