//! The reserved words.
ghost use Rattle.std.specs.Prelude.{◌≡◌, Some, map, if◌then◌else◌};
ghost use Rattle.std.specs.Char.{to_ascii_lowercase};
ghost use Rattle.std.specs.Str.{bytes_eq};
ghost use Rattle.sql_lex.specs.Words as words;

use crate::token::Word;

/// The word, where a name has these letters, which are small; or else what stands otherwise.
fn spelled_or(name: &[u8], letters: &[u8], word: Word, otherwise: Option<Word>) -> Option<Word>
    ensures { result ≡ (if bytes_eq (map to_ascii_lowercase name.now) (map to_ascii_lowercase letters.now) then Some word else otherwise) }
{
    if name.eq_ignore_ascii_case(letters) {
        Some(word)
    } else {
        otherwise
    }
}

/// The first of these words that a name is.
macro_rules! spelled {
    ($name:expr;) => { None };
    ($name:expr; $letters:literal $word:ident $(, $more:literal $others:ident)*) => {
        spelled_or($name, $letters, Word::$word, spelled!($name; $($more $others),*))
    };
}

/// The reserved word that a name is, without regard to ASCII case.
#[tactic(auto, unfolding(crate::specs::Words::word_spelled))]
pub fn word_of(name: &[u8]) -> Option<Word>
    ensures { result ≡ words.word_of name.now }
{
    let first = name.first()?.to_ascii_lowercase();
    match first {
        b'a' => spelled!(name; b"all" All, b"and" And, b"as" As, b"asc" Asc),
        b'b' => spelled!(name; b"between" Between, b"by" By),
        b'c' => spelled!(name; b"copy" Copy, b"create" Create, b"cross" Cross),
        b'd' => spelled!(name; b"desc" Desc, b"distinct" Distinct, b"drop" Drop),
        b'e' => spelled!(name; b"except" Except, b"explain" Explain),
        b'f' => spelled!(name; b"false" False, b"from" From),
        b'g' => spelled!(name; b"group" Group),
        b'h' => spelled!(name; b"having" Having),
        b'i' => spelled!(name; b"in" In, b"inner" Inner, b"intersect" Intersect, b"is" Is),
        b'j' => spelled!(name; b"join" Join),
        b'l' => spelled!(name; b"left" Left, b"like" Like, b"limit" Limit),
        b'n' => spelled!(name; b"not" Not, b"null" Null),
        b'o' =>
            spelled!(name; b"offset" Offset, b"on" On, b"or" Or, b"order" Order, b"outer" Outer),
        b's' => spelled!(name; b"select" Select),
        b't' => spelled!(name; b"table" Table, b"true" True),
        b'u' => spelled!(name; b"union" Union),
        b'w' => spelled!(name; b"where" Where),
        _ => None,
    }
}
