//! The blanks and the sign of a number's text.
ghost use Rattle.std.specs.Prelude.{◌≡◌, reverse};
ghost use Rattle.ooc_decimal.specs.Numeral as spec;

fn is_blank(byte: u8) -> bool
    ensures { result ≡ spec.is_blank byte }
{
    byte == b' ' || byte == b'\t'
}

fn trim_front(text: &[u8]) -> &[u8]
    ensures { result.now ≡ spec.after_blanks text.now }
{
    for (at, byte) in text.iter().enumerate() {
        if !is_blank(*byte) {
            return &text[at..];
        }
    }
    &text[text.len()..]
}

fn trim_back(text: &[u8]) -> &[u8]
    ensures { result.now ≡ reverse (spec.after_blanks (reverse text.now)) }
{
    let mut end = text.len();
    while end > 0 {
        if !is_blank(text[end - 1]) {
            return &text[..end];
        }
        end -= 1;
    }
    &text[..0]
}

/// The text without the spaces and tabs at its ends.
#[tactic(auto, unfolding(crate::specs::Numeral::trimmed))]
pub fn trim(text: &[u8]) -> &[u8]
    ensures { result.now ≡ spec.trimmed text.now }
{
    trim_back(trim_front(text))
}

/// Whether a minus stands at the front, and what stands behind the sign.
pub fn split_sign(text: &[u8]) -> (bool, &[u8])
    ensures minus { result.0 ≡ spec.has_minus text.now }
    ensures rest { result.1.now ≡ spec.without_sign text.now }
{
    match text {
        [b'-', rest @ ..] => (true, rest),
        [b'+', rest @ ..] => (false, rest),
        _ => (false, text),
    }
}
