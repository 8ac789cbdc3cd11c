//! What may stand between tokens: blanks and comments.
ghost use Rattle.std.specs.Prelude.{◌≡◌, ◌<◌, length, IfSome};
ghost use Rattle.sql_lex.specs.Gaps as gaps;

/// Whether a byte is space, tab, CR or LF.
pub fn is_blank(byte: u8) -> bool
    ensures { result ≡ gaps.is_blank byte }
{
    byte == b' ' || byte == b'\t' || (byte == b'\r' || byte == b'\n')
}

/// The length of a comment that begins with `--`, up to the end of its line.
pub fn line_comment_length(text: &[u8]) -> usize
    ensures { result ≡ gaps.line_comment_length text.now }
{
    text.iter().take_while(|byte| **byte != b'\n').count()
}

/// The number of bytes before the first `*/`.
pub fn before_close(text: &[u8]) -> Option<usize>
    ensures close { result ≡ gaps.before_close text.now }
    ensures within { IfSome result (λ n. n < length text.now) }
{
    for at in 0..text.len() {
        if text[at..].starts_with(b"*/") {
            return Some(at);
        }
    }
    None
}
