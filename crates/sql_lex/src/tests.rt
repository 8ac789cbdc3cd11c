//! Scripts with their tokens and places, written by hand from the rules.
use super::*;
use std::alloc::Global;
use std::fmt::Write;
use std::test::Fail;

/// The tokens of a script as text, or the place of the first bad one.
fn shown(alloc: Global, script: &[u8]) -> Result<String, Fail> {
    let mut out = String::new(alloc);
    match lex(alloc, script) {
        Ok(tokens) => {
            for token in tokens.as_slice() {
                if !out.is_empty() {
                    out.push(' ')?;
                }
                let Token { kind, start, end } = *token;
                write!(out, "{kind:?} {start}..{end}")?;
            }
        }
        Err(LexFault::BadToken { place }) => write!(out, "bad {place}")?,
        Err(LexFault::OutOfMemory) => write!(out, "out of memory")?,
    }
    Ok(out)
}

/// Scripts, and their tokens or the place of the first bad one.
static ROWS: [(&str, &str); 56] = [
    (
        "ALL AND AS ASC BETWEEN BY COPY CREATE CROSS DESC DISTINCT DROP EXCEPT EXPLAIN FALSE FROM GROUP HAVING IN INNER INTERSECT IS JOIN LEFT LIKE LIMIT NOT NULL OFFSET ON OR ORDER OUTER SELECT TABLE TRUE UNION WHERE",
        "Word(All) 0..3 Word(And) 4..7 Word(As) 8..10 Word(Asc) 11..14 Word(Between) 15..22 Word(By) 23..25 Word(Copy) 26..30 Word(Create) 31..37 Word(Cross) 38..43 Word(Desc) 44..48 Word(Distinct) 49..57 Word(Drop) 58..62 Word(Except) 63..69 Word(Explain) 70..77 Word(False) 78..83 Word(From) 84..88 Word(Group) 89..94 Word(Having) 95..101 Word(In) 102..104 Word(Inner) 105..110 Word(Intersect) 111..120 Word(Is) 121..123 Word(Join) 124..128 Word(Left) 129..133 Word(Like) 134..138 Word(Limit) 139..144 Word(Not) 145..148 Word(Null) 149..153 Word(Offset) 154..160 Word(On) 161..163 Word(Or) 164..166 Word(Order) 167..172 Word(Outer) 173..178 Word(Select) 179..185 Word(Table) 186..191 Word(True) 192..196 Word(Union) 197..202 Word(Where) 203..208",
    ),
    (
        "all and as asc between by copy create cross desc distinct drop except explain false from group having in inner intersect is join left like limit not null offset on or order outer select table true union where",
        "Word(All) 0..3 Word(And) 4..7 Word(As) 8..10 Word(Asc) 11..14 Word(Between) 15..22 Word(By) 23..25 Word(Copy) 26..30 Word(Create) 31..37 Word(Cross) 38..43 Word(Desc) 44..48 Word(Distinct) 49..57 Word(Drop) 58..62 Word(Except) 63..69 Word(Explain) 70..77 Word(False) 78..83 Word(From) 84..88 Word(Group) 89..94 Word(Having) 95..101 Word(In) 102..104 Word(Inner) 105..110 Word(Intersect) 111..120 Word(Is) 121..123 Word(Join) 124..128 Word(Left) 129..133 Word(Like) 134..138 Word(Limit) 139..144 Word(Not) 145..148 Word(Null) 149..153 Word(Offset) 154..160 Word(On) 161..163 Word(Or) 164..166 Word(Order) 167..172 Word(Outer) 173..178 Word(Select) 179..185 Word(Table) 186..191 Word(True) 192..196 Word(Union) 197..202 Word(Where) 203..208",
    ),
    (
        "AlL AnD As AsC BeTwEeN By CoPy CrEaTe CrOsS DeSc DiStInCt DrOp ExCePt ExPlAiN FaLsE FrOm GrOuP HaViNg In InNeR InTeRsEcT Is JoIn LeFt LiKe LiMiT NoT NuLl OfFsEt On Or OrDeR OuTeR SeLeCt TaBlE TrUe UnIoN WhErE",
        "Word(All) 0..3 Word(And) 4..7 Word(As) 8..10 Word(Asc) 11..14 Word(Between) 15..22 Word(By) 23..25 Word(Copy) 26..30 Word(Create) 31..37 Word(Cross) 38..43 Word(Desc) 44..48 Word(Distinct) 49..57 Word(Drop) 58..62 Word(Except) 63..69 Word(Explain) 70..77 Word(False) 78..83 Word(From) 84..88 Word(Group) 89..94 Word(Having) 95..101 Word(In) 102..104 Word(Inner) 105..110 Word(Intersect) 111..120 Word(Is) 121..123 Word(Join) 124..128 Word(Left) 129..133 Word(Like) 134..138 Word(Limit) 139..144 Word(Not) 145..148 Word(Null) 149..153 Word(Offset) 154..160 Word(On) 161..163 Word(Or) 164..166 Word(Order) 167..172 Word(Outer) 173..178 Word(Select) 179..185 Word(Table) 186..191 Word(True) 192..196 Word(Union) 197..202 Word(Where) 203..208",
    ),
    ("", ""),
    (" \t\r\n", ""),
    (
        "selected \"select\" _a1 x_",
        "Name 0..8 QuotedName 9..17 Name 18..21 Name 22..24",
    ),
    ("header delimiter date", "Name 0..6 Name 7..16 Name 17..21"),
    ("a$", "bad 1"),
    (
        "aaaaaaaaaaaaaaaaaaaaaaaaaaaaaaaaaaaaaaaaaaaaaaaaaaaaaaaaaaaaaaa",
        "Name 0..63",
    ),
    (
        "x aaaaaaaaaaaaaaaaaaaaaaaaaaaaaaaaaaaaaaaaaaaaaaaaaaaaaaaaaaaaaaaa",
        "bad 2",
    ),
    ("-- x\ra\nb", "Name 7..8"),
    ("a--b", "Name 0..1"),
    (
        "a - -b",
        "Name 0..1 Sign(Minus) 2..3 Sign(Minus) 4..5 Name 5..6",
    ),
    ("/**/a", "Name 4..5"),
    ("/*/ a", "bad 0"),
    ("/*/*/a", "Name 5..6"),
    ("/* '\n-- */a", "Name 10..11"),
    ("a /* b", "bad 2"),
    ("/* /* */ */", "bad 10"),
    ("'a''b'", "Text 0..6"),
    ("x 'a''b", "bad 2"),
    ("'a' 'b'", "Text 0..3 Text 4..7"),
    ("'' '''' 'a\nb'", "Text 0..2 Text 3..7 Text 8..13"),
    ("'''", "bad 0"),
    ("'\0'", "Text 0..3"),
    ("\0", "bad 0"),
    ("\"a\"\"b\" \"it's\"", "QuotedName 0..6 QuotedName 7..13"),
    ("x \"\"", "bad 2"),
    ("\"a", "bad 0"),
    ("\"a\tb\"", "bad 0"),
    (
        "\"aaaaaaaaaaaaaaaaaaaaaaaaaaaaaaaaaaaaaaaaaaaaaaaaaaaaaaaaaaaaaaa\"",
        "QuotedName 0..65",
    ),
    (
        "\"aaaaaaaaaaaaaaaaaaaaaaaaaaaaaaaaaaaaaaaaaaaaaaaaaaaaaaaaaaaaaaaa\"",
        "bad 0",
    ),
    (
        "\"aaaaaaaaaaaaaaaaaaaaaaaaaaaaaaaaaaaaaaaaaaaaaaaaaaaaaaaaaaaaaa\"\"\"",
        "QuotedName 0..66",
    ),
    (
        "\"aaaaaaaaaaaaaaaaaaaaaaaaaaaaaaaaaaaaaaaaaaaaaaaaaaaaaaaaaaaaaaa\"\"\"",
        "bad 0",
    ),
    (
        "1 1. .5 0. 1.2.3 1a .",
        "Integer 0..1 Decimal 2..4 Decimal 5..7 Decimal 8..10 Decimal 11..14 Decimal 14..16 Integer 17..18 Name 18..19 Sign(Dot) 20..21",
    ),
    (
        "1..2 1.a a.b -1",
        "Decimal 0..2 Decimal 2..4 Decimal 5..7 Name 7..8 Name 9..10 Sign(Dot) 10..11 Name 11..12 Sign(Minus) 13..14 Integer 14..15",
    ),
    ("170141183460469231731687303715884105727", "Integer 0..39"),
    ("170141183460469231731687303715884105728", "bad 0"),
    ("00170141183460469231731687303715884105727", "Integer 0..41"),
    ("1000000000000000000000000000000000000000", "bad 0"),
    (".99999999999999999999999999999999999999", "Decimal 0..39"),
    (".999999999999999999999999999999999999999", "bad 0"),
    (
        "000.00000000000000000000000000000000000000",
        "Decimal 0..42",
    ),
    ("1.0000000000000000000000000000000000000", "Decimal 0..39"),
    ("01.00000000000000000000000000000000000000", "bad 0"),
    ("99999999999999999999999999999999999999.", "Decimal 0..39"),
    ("999999999999999999999999999999999999999.", "bad 0"),
    (
        "<>!=<=>=//(),;*+-%=",
        "Sign(Unequal) 0..2 Sign(Unequal) 2..4 Sign(AtMost) 4..6 Sign(AtLeast) 6..8 Sign(Quotient) 8..10 Sign(LeftParenthesis) 10..11 Sign(RightParenthesis) 11..12 Sign(Comma) 12..13 Sign(Semicolon) 13..14 Sign(Star) 14..15 Sign(Plus) 15..16 Sign(Minus) 16..17 Sign(Remainder) 17..18 Sign(Equal) 18..19",
    ),
    (
        "<=> =< < = >",
        "Sign(AtMost) 0..2 Sign(Greater) 2..3 Sign(Equal) 4..5 Sign(Less) 5..6 Sign(Less) 7..8 Sign(Equal) 9..10 Sign(Greater) 11..12",
    ),
    ("//*", "Sign(Quotient) 0..2 Sign(Star) 2..3"),
    ("///", "bad 2"),
    ("a !", "bad 2"),
    ("a / b", "bad 2"),
    ("a @", "bad 2"),
    ("'é' -- é\n\"é\"", "Text 0..4 QuotedName 11..15"),
    ("a é", "bad 2"),
];

#[test]
fn tokens_and_places(rt: HostRuntime) -> Result<(), Fail> {
    for (script, expected) in ROWS.iter() {
        let given = shown(rt.alloc(), script.as_bytes())?;
        assert_eq!(rt; given.as_str(), *expected, "at {expected}");
    }
    Ok(())
}

#[test]
fn ill_formed_scripts(rt: HostRuntime) -> Result<(), Fail> {
    let rows = [
        (b"! a \xff '", "bad 4"),
        (b"'abcd \xc3", "bad 6"),
        (b"a \xed\xa0\x80 '", "bad 2"),
    ];
    for (script, expected) in rows {
        let given = shown(rt.alloc(), script)?;
        assert_eq!(rt; given.as_str(), expected);
    }
    Ok(())
}

#[test]
fn bytes_of_tokens(rt: HostRuntime) -> Result<(), Fail> {
    let script = b"a <= 'it''s'";
    let tokens = lex(rt.alloc(), script).ok().ok_or("refused")?;
    assert_eq!(rt; tokens.script(), script.as_slice());
    let list = tokens.as_slice();
    assert_eq!(rt; list.len(), 3);
    assert_eq!(rt; tokens.text(&list[1]), b"<=".as_slice());
    assert_eq!(rt; tokens.text(&list[2]), b"'it''s'".as_slice());
    Ok(())
}

#[test]
fn values_of_tokens(rt: HostRuntime) -> Result<(), Fail> {
    quoted_texts();
    let integers = [
        ("0", Some(0)),
        ("007", Some(7)),
        ("170141183460469231731687303715884105727", Some(i128::MAX)),
        ("170141183460469231731687303715884105728", None),
        ("", None),
        ("1.", None),
        ("-1", None),
    ];
    for (text, expected) in integers {
        assert_eq!(rt; integer_value(text.as_bytes()), expected);
    }
    let decimals = [
        ("1.", Some((1, 0, 1))),
        ("00.", Some((0, 0, 1))),
        ("0.05", Some((5, 2, 2))),
        ("0012.50", Some((1250, 2, 4))),
        (".5", Some((5, 1, 1))),
        (
            ".99999999999999999999999999999999999999",
            Some((99_999_999_999_999_999_999_999_999_999_999_999_999, 38, 38)),
        ),
        ("1.00000000000000000000000000000000000000", None),
        ("12", None),
        (".", None),
        ("1.2.3", None),
        ("", None),
    ];
    for (text, expected) in decimals {
        let value = decimal_value(text.as_bytes());
        assert_eq!(rt;
            value.map(|value| (value.digits, value.scale, value.width)),
            expected,
            "at {text}"
        );
    }
    let quoted = [
        ("''", ""),
        ("'it''s'", "it's"),
        ("\"a\"\"\"", "a\""),
        ("''''", "'"),
        ("'", ""),
    ];
    for (text, expected) in quoted {
        let bytes = unquoted(rt.alloc(), text.as_bytes())?;
        assert_eq!(rt; bytes.as_slice(), expected.as_bytes());
    }
    Ok(())
}

/// A megabyte of one pair of bytes, again and again.
fn megabyte(alloc: Global, pair: [u8; 2]) -> Result<Vec<u8>, Fail> {
    let mut script = Vec::new(alloc);
    for _ in 0..1 << 19 {
        script.push(pair[0])?;
        script.push(pair[1])?;
    }
    Ok(script)
}

#[test]
fn megabytes_of_garbage(rt: HostRuntime) -> Result<(), Fail> {
    let rows = [
        (b"((", Some(1 << 20)),
        (b"//", Some(1 << 19)),
        (b"''", Some(1)),
        (b".1", Some(1 << 19)),
        (b"/*", None),
        (b"1.", Some(1 << 19)),
    ];
    for (pair, expected) in rows {
        let script = megabyte(rt.alloc(), *pair)?;
        let given = lex(rt.alloc(), &script)
            .ok()
            .map(|tokens| tokens.as_slice().len());
        assert_eq!(rt; given, expected);
    }
    Ok(())
}
