//! Worked pages, byte by byte, and one damaged page for each rule.
ghost use Rattle.std.specs.Prelude.{◌≡◌, ◌%◌, ◌<◌, ◌≤◌, [], ◌∷◌, length, OnOk, IfOk, false};
ghost use Rattle.row_image.specs.Bytes.{IsPage};
ghost use Rattle.row_image.specs.Rules.{IsAccepted, shape_of};

use super::*;

const PAGE: usize = 4096;

// The layout of a truth and a text: a row has 1 + 8 + 1 + 16 = 26 bytes, and 152 rows fit.
fn truth_and_text() -> Layout
    ensures { result ≡ CellKind.Bit ∷ CellKind.Text ∷ [] }
{
    Layout::new_layout(&[CellKind::Bit, CellKind::Text])
}

fn check(kind: &ImageKind, image: &[u8; 4096]) -> Result<Shape, Damage>
    requires { length image.now ≡ 4096 }
    ensures accepted { OnOk result (IsAccepted kind.now image.now) }
    ensures shape { IfOk result (λ shape. shape ≡ shape_of kind.now image.now) }
{
    check_image(kind, image)
}

// Two rows of one part, whose heap page is number 5 at base 8192. The first has the text `abc`, and
// the second one of 13 bytes at the heap page's place 64.
fn two_rows() -> [u8; 4096]
    ensures { length result ≡ 4096 }
{
    let mut image = [0; 4096];
    let bytes = [
        (0, 1),
        (4, 26),
        (8, 2),
        (12, 1),
        (36, 2),
        (40, 5),
        (49, 32),
        (137, 1),
        (138, 3),
        (142, b'a'),
        (143, b'b'),
        (144, b'c'),
        (164, 13),
        (168, b'a'),
        (169, b'b'),
        (170, b'c'),
        (171, b'd'),
        (172, 64),
        (173, 32),
    ];
    for (place, byte) in bytes {
        set(&mut image, place, byte);
    }
    image
}

fn set(image: &mut [u8; 4096], place: usize, byte: u8)
    requires { length image.old ≡ 4096 }
    ensures { length image.new ≡ 4096 }
{
    if place < 4096 {
        image[place] = byte;
    }
}

#[test]
fn first_broken_rule(rt: HostRuntime) {
    let rows = ImageKind::Rows(truth_and_text());
    let good = two_rows();
    assert_eq!(rt; check(&rows, &good), Ok(Shape { rows: 2, parts: 1 }));
    let high = 281474976710656;
    let cases = [
        ([(0, 2), (4, 27)], DamageField::Kind, 2, 1),
        ([(4, 27), (12, 0)], DamageField::Width, 27, 26),
        ([(8, 153), (12, 0)], DamageField::Rows, 153, 152),
        ([(12, 0), (32, 1)], DamageField::Parts, 0, 4),
        ([(12, 5), (32, 1)], DamageField::Parts, 5, 4),
        ([(8, 0), (12, 1)], DamageField::Parts, 1, 0),
        ([(32, 1), (36, 3)], DamageField::PartFirst, 1, 0),
        ([(36, 3), (48, 1)], DamageField::PartRows, 3, 2),
        ([(36, 1), (48, 1)], DamageField::PartRows, 1, 2),
        ([(48, 1), (137, 2)], DamageField::PartBase, 8193, high),
        (
            [(54, 1), (137, 2)],
            DamageField::PartBase,
            high + 8192,
            high,
        ),
        ([(137, 2), (138, 64)], DamageField::CellBit, 2, 1),
        ([(138, 64), (147, 9)], DamageField::CellLength, 64, 63),
        ([(147, 9), (172, 63)], DamageField::CellPad, 9, 0),
        (
            [(172, 63), (173, 32)],
            DamageField::CellAddress,
            8255,
            12288,
        ),
        (
            [(172, 244), (173, 47)],
            DamageField::CellAddress,
            12276,
            12288,
        ),
    ];
    for ([(a, x), (b, y)], field, found, bound) in cases {
        let mut image = good;
        set(&mut image, a, x);
        set(&mut image, b, y);
        let damage = Damage {
            field,
            found,
            bound,
        };
        assert_eq!(rt; check(&rows, &image), Err(damage), "bytes {a} and {b}");
    }
}

// A page that forgets its heap page: the base must be 0, and then no long text can lie anywhere.
#[test]
fn long_texts_lie_on_the_heap_page_of_their_part(rt: HostRuntime) {
    let rows = ImageKind::Rows(truth_and_text());
    let mut unheaped = two_rows();
    for place in 40..44 {
        set(&mut unheaped, place, 255);
    }
    let damage = Damage {
        field: DamageField::PartBase,
        found: 8192,
        bound: 0,
    };
    assert_eq!(rt; check(&rows, &unheaped), Err(damage));
    set(&mut unheaped, 49, 0);
    let damage = Damage {
        field: DamageField::CellAddress,
        found: 8256,
        bound: 4096,
    };
    assert_eq!(rt; check(&rows, &unheaped), Err(damage));
}

#[test]
fn heap_pages_and_pages_of_any_bytes(rt: HostRuntime) {
    let mut heap = [0; 4096];
    let damage = Damage {
        field: DamageField::Kind,
        found: 0,
        bound: 2,
    };
    assert_eq!(rt; check(&ImageKind::Heap, &heap), Err(damage));
    assert_eq!(rt;
        check(&ImageKind::Plain, &heap),
        Ok(Shape { rows: 0, parts: 0 })
    );
    set(&mut heap, 0, 2);
    set(&mut heap, 4, 192);
    set(&mut heap, 5, 15);
    assert_eq!(rt;
        check(&ImageKind::Heap, &heap),
        Ok(Shape { rows: 0, parts: 0 })
    );
    set(&mut heap, 4, 193);
    let damage = Damage {
        field: DamageField::HeapUsed,
        found: 4033,
        bound: 4032,
    };
    assert_eq!(rt; check(&ImageKind::Heap, &heap), Err(damage));
}

// The layout of a text: a row has 1 + 8 + 16 = 25 bytes, and 158 rows fit.
fn texts() -> Layout
    ensures { result ≡ CellKind.Text ∷ [] }
{
    Layout::new_layout(&[CellKind::Text])
}

// Writes a row with a short text, where the page is accepted.
fn put_short(image: &mut [u8; 4096], text: &[u8]) -> Option<RowPut>
    requires page { length image.old ≡ 4096 }
    requires short { length text.now ≤ 12 }
    ensures { length image.new ≡ 4096 }
{
    let layout = texts();
    match check(&ImageKind::Rows(layout), image) {
        Ok(_) => Some(write_row(&layout, image, &[CellIn::Short(text)], 7, None)),
        Err(_) => None,
    }
}

fn is_elsewhere(part: Part, number: u32, base: u64) -> bool
    ensures { result ≡ false → part.heap ≡ number → part.base ≡ base }
{
    part.heap == number && part.base != base
}

// Writes a row with the text `abcdefghijklm`, the first on a heap page, where the page is accepted
// and does not have this heap page at another base.
fn put_long(image: &mut [u8; 4096], number: u32, base: u64) -> Option<RowPut>
    requires page { length image.old ≡ 4096 }
    requires number { number < NO_HEAP }
    requires aligned { base % 4096 ≡ 0 }
    requires low { base < 1000000 }
    ensures { length image.new ≡ 4096 }
{
    let layout = texts();
    match check(&ImageKind::Rows(layout), image) {
        Ok(shape) => {
            if shape.parts > 0 && is_elsewhere(part_of(image, shape.parts - 1), number, base) {
                return None;
            }
            let cell = CellIn::Long {
                prefix: *b"abcd",
                length: 13,
                address: base + 64,
            };
            Some(write_row(&layout, image, &[cell], 8, Some((number, base))))
        }
        Err(_) => None,
    }
}

// Moves a part's heap page, where the page is accepted and the part has one.
fn move_heap(image: &mut [u8; 4096], part: u32, base: u64) -> bool
    requires page { length image.old ≡ 4096 }
    requires aligned { base % 4096 ≡ 0 }
    requires low { base < 1000000 }
    ensures { length image.new ≡ 4096 }
{
    let layout = texts();
    match check(&ImageKind::Rows(layout), image) {
        Ok(shape) => {
            if part >= shape.parts || part_of(image, part).heap == NO_HEAP {
                return false;
            }
            rebase(&layout, image, part, base);
            true
        }
        Err(_) => false,
    }
}

#[test]
fn texts_lie_by_their_length(rt: HostRuntime) {
    let mut image = [9; 4096];
    new_rows(&texts(), &mut image);
    assert_eq!(rt; put_short(&mut image, b"abcdefghijkl"), Some(RowPut::Wrote));
    assert_eq!(rt; put_long(&mut image, 3, 12288), Some(RowPut::Wrote));
    let short = [
        12, 0, 0, 0, 97, 98, 99, 100, 101, 102, 103, 104, 105, 106, 107, 108,
    ];
    assert_eq!(rt; &image[137..153], short.as_slice());
    let long = [13, 0, 0, 0, 97, 98, 99, 100, 0x40, 0x30, 0, 0, 0, 0, 0, 0];
    assert_eq!(rt; &image[162..178], long.as_slice());

    assert!(rt; move_heap(&mut image, 0, 28672));
    let moved = [13, 0, 0, 0, 97, 98, 99, 100, 0x40, 0x70, 0, 0, 0, 0, 0, 0];
    assert_eq!(rt; &image[162..178], moved.as_slice());
    let head = [2, 0, 0, 0, 1, 0, 0, 0];
    assert_eq!(rt; &image[8..16], head.as_slice());
    let part = [
        0, 0, 0, 0, 2, 0, 0, 0, 3, 0, 0, 0, 0, 0, 0, 0, 0, 0x70, 0, 0, 0, 0, 0, 0,
    ];
    assert_eq!(rt; &image[32..56], part.as_slice());

    for number in 4..7 {
        assert_eq!(rt; put_long(&mut image, number, 8192), Some(RowPut::Wrote));
    }
    assert_eq!(rt; put_long(&mut image, 7, 8192), Some(RowPut::PartsFull));
    assert_eq!(rt; put_long(&mut image, 6, 8192), Some(RowPut::Wrote));
    for _row in 6..158 {
        assert_eq!(rt; put_short(&mut image, b""), Some(RowPut::Wrote));
    }
    assert_eq!(rt; put_long(&mut image, 7, 8192), Some(RowPut::PageFull));
    let shape = Shape {
        rows: 158,
        parts: 4,
    };
    assert_eq!(rt; check(&ImageKind::Rows(texts()), &image), Ok(shape));
}

fn five_kinds() -> Layout
    ensures { result ≡ CellKind.Bit ∷ CellKind.Four ∷ CellKind.Eight ∷ CellKind.Sixteen ∷ CellKind.Text ∷ [] }
{
    Layout::new_layout(&[
        CellKind::Bit,
        CellKind::Four,
        CellKind::Eight,
        CellKind::Sixteen,
        CellKind::Text,
    ])
}

// Writes a row of five cells into an empty page.
fn put_five(image: &mut [u8; 4096], text: &[u8]) -> RowPut
    requires page { length image.old ≡ 4096 }
    requires short { length text.now ≤ 12 }
    ensures { length image.new ≡ 4096 }
{
    let layout = five_kinds();
    new_rows(&layout, image);
    let cells = [
        CellIn::Number(1),
        CellIn::Number(-2147483648),
        CellIn::Null,
        CellIn::Number(-2),
        CellIn::Short(text),
    ];
    write_row(&layout, image, &cells, 0xabcd, None)
}

fn number_at(image: &[u8; 4096], column: u32) -> Option<i128>
    requires { length image.now ≡ 4096 }
{
    let layout = five_kinds();
    match check(&ImageKind::Rows(layout), image) {
        Ok(shape) => {
            if shape.rows == 0 || column >= 5 {
                return None;
            }
            match read_cell(&layout, image, 0, column) {
                Cell::Number(value) => Some(value),
                _ => None,
            }
        }
        Err(_) => None,
    }
}

fn hash_of(image: &[u8; 4096]) -> Option<u64>
    requires { length image.now ≡ 4096 }
{
    let layout = five_kinds();
    match check(&ImageKind::Rows(layout), image) {
        Ok(shape) => {
            if shape.rows == 0 {
                return None;
            }
            Some(row_hash_of(&layout, image, 0))
        }
        Err(_) => None,
    }
}

#[test]
fn numbers_read_back(rt: HostRuntime) {
    let mut image = [9; 4096];
    assert_eq!(rt; put_five(&mut image, b"hi"), RowPut::Wrote);
    let row = [
        4, 0xcd, 0xab, 0, 0, 0, 0, 0, 0, 1, 0, 0, 0, 0x80, 0, 0, 0, 0, 0, 0, 0, 0, 254, 255, 255,
        255, 255, 255, 255, 255, 255, 255, 255, 255, 255, 255, 255, 255, 2, 0, 0, 0, b'h', b'i', 0,
        0, 0, 0, 0, 0, 0, 0, 0, 0,
    ];
    assert_eq!(rt; &image[128..182], row.as_slice());
    let numbers = [Some(1), Some(-2147483648), None, Some(-2), None];
    for column in 0..5 {
        assert_eq!(rt; number_at(&image, column), numbers[column as usize]);
    }
    assert_eq!(rt; hash_of(&image), Some(0xabcd));
    assert_eq!(rt; text_limit(PAGE), 63);
    assert_eq!(rt; five_kinds().rows_that_fit(PAGE), 73);
    assert_eq!(rt; row_count(&image), 1);
    assert_eq!(rt; part_count(&image), 1);
}
