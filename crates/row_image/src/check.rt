//! Testing an image before its bytes are trusted: the rules of a page, one after the other.
ghost use Rattle.std.specs.Prelude.{◌≡◌, ℕ, ◌+◌, ◌-◌, ◌*◌, ◌/◌, ◌^◌, ◌<◌, ◌≤◌, nat_le, length, OnOk, IfOk, IfErr, Some, [], ◌∷◌};
ghost use Rattle.std.specs.List.{flat_map, range_with_len};
ghost use Rattle.row_image.specs.Bytes.{IsPage, number_at};
ghost use Rattle.row_image.specs.Layout.{cell_width, rows_that_fit, width_of, row_place};
ghost use Rattle.row_image.specs.Image.{row_count, part_count, part_at, part_for};
ghost use Rattle.row_image.specs.declared.limits.TheConstants.{MOST_PAGE};
ghost use Rattle.row_image.specs.Rules.{rule_of, first_damage, text_limit, needs_parts, head_rules, rows_before, part_rules, first_set, address_rule, text_rules, kind_rules, cell_rules, row_rules, rules_of, IsAccepted, shape_of, Judges};

use crate::bytes::{long_at, word_at};
use crate::image::{Damage, DamageField, ImageKind, Part, Shape};
use crate::layout::{CellKind, Layout};
use crate::limits::{HEAP_HEAD, MOST_TEXTS, NO_HEAP};
use crate::parts::{part_at, part_count};
use crate::read::{is_null, row_count};

/// Whether an image keeps all rules of its kind, or else the first that it breaks, in the order:
/// those of the head, those of each part, and those of each row's cells that aren't NULL. A heap
/// page and a page of any bytes have no rows and no parts.
pub fn check_image(kind: &ImageKind, image: &[u8]) -> Result<Shape, Damage>
    requires { IsPage (length image.now) }
    ensures accepted { OnOk result (IsAccepted kind.now image.now) }
    ensures shape { IfOk result (λ shape. shape ≡ shape_of kind.now image.now) }
    ensures damaged { IfErr result (λ damage. first_damage (rules_of kind.now image.now) ≡ Some damage) }
{
    match kind {
        ImageKind::Rows(layout) => check_rows(layout, image),
        ImageKind::Heap => check_heap(image),
        ImageKind::Plain => Ok(Shape { rows: 0, parts: 0 }),
    }
}

// A rule: whether it holds, the value found, and its bound.
fn test(field: DamageField, holds: bool, found: u64, bound: u64) -> Result<(), Damage>
    ensures { Judges (rule_of field holds found bound ∷ []) result }
{
    if holds {
        Ok(())
    } else {
        Err(Damage {
            field,
            found,
            bound,
        })
    }
}

// The rules of a heap page.
#[tactic(auto, unfolding(crate::specs::Rules::rules_of))]
fn check_heap(image: &[u8]) -> Result<Shape, Damage>
    requires { IsPage (length image.now) }
    ensures rules { Judges (rules_of ImageKind.Heap image.now) result }
    ensures shape { IfOk result (λ shape. shape ≡ shape_of ImageKind.Heap image.now) }
{
    let kind = word_at(image, 0);
    test(DamageField::Kind, kind == 2, u64::from(kind), 2)?;
    let used = word_at(image, 4);
    let room = image.len() - HEAP_HEAD;
    let fits = used as usize <= room;
    test(DamageField::HeapUsed, fits, u64::from(used), room as u64)?;
    Ok(Shape { rows: 0, parts: 0 })
}

// The rules of a row page.
fn check_rows(layout: &Layout, image: &[u8]) -> Result<Shape, Damage>
    requires { IsPage (length image.now) }
    ensures rules { Judges (rules_of (ImageKind.Rows layout.now) image.now) result }
    ensures shape { IfOk result (λ shape. shape ≡ shape_of (ImageKind.Rows layout.now) image.now) }
{
    check_head(layout, image)?;
    check_parts(image)?;
    check_cells(layout, image)?;
    Ok(Shape {
        rows: row_count(image),
        parts: part_count(image),
    })
}

// The rules of a row page's head.
#[tactic(auto, unfolding(crate::specs::Rules::head_rules, crate::specs::Rules::needs_parts))]
fn check_head(layout: &Layout, image: &[u8]) -> Result<(), Damage>
    requires { IsPage (length image.now) }
    ensures rules { Judges (head_rules layout.now image.now) result }
    ensures rows { OnOk result (row_count image.now ≤ rows_that_fit layout.now (length image.now)) }
    ensures parts { OnOk result (part_count image.now ≤ 4) }
{
    let kind = word_at(image, 0);
    test(DamageField::Kind, kind == 1, u64::from(kind), 1)?;
    let width = word_at(image, 4);
    let wanted = layout.width();
    let same = width as usize == wanted;
    test(DamageField::Width, same, u64::from(width), wanted as u64)?;
    let rows = row_count(image);
    let fit = layout.rows_that_fit(image.len());
    let fits = rows as usize <= fit;
    test(DamageField::Rows, fits, u64::from(rows), fit as u64)?;
    let parts = part_count(image);
    if layout.has_texts() && rows > 0 {
        test(
            DamageField::Parts,
            1 <= parts && parts <= 4,
            u64::from(parts),
            4,
        )
    } else {
        test(DamageField::Parts, parts == 0, u64::from(parts), 0)
    }
}

// The rules of the parts.
fn check_parts(image: &[u8]) -> Result<(), Damage>
    requires page { IsPage (length image.now) }
    requires rows { row_count image.now ≤ MOST_PAGE }
    requires few { part_count image.now ≤ 4 }
    ensures { Judges (flat_map (λ part. part_rules image.now part) (range_with_len 0 (part_count image.now))) result }
{
    let mut before: u32 = 0;
    for part in 0..part_count(image) {
        check_part(image, part, before)?;
        before += part_at(image, part).rows;
    }
    Ok(())
}

// The rules of a part, before which the parts have that many rows.
#[tactic(auto, unfolding(crate::specs::Rules::part_rules))]
fn check_part(image: &[u8], part: u32, before: u32) -> Result<(), Damage>
    requires page { IsPage (length image.now) }
    requires few { part_count image.now ≤ 4 }
    requires part { part < part_count image.now }
    requires before { before ≡ rows_before image.now part }
    requires most { before ≤ row_count image.now }
    ensures { Judges (part_rules image.now part) result }
{
    let this = part_at(image, part);
    test(
        DamageField::PartFirst,
        this.first == before,
        u64::from(this.first),
        u64::from(before),
    )?;
    let left = row_count(image) - before;
    let last = part + 1 == part_count(image);
    let counts = this.rows >= 1
        && (if last {
            this.rows == left
        } else {
            this.rows <= left
        });
    test(
        DamageField::PartRows,
        counts,
        u64::from(this.rows),
        u64::from(left),
    )?;
    if this.heap == NO_HEAP {
        test(DamageField::PartBase, this.base == 0, this.base, 0)
    } else {
        let page = image.len() as u64;
        let placed = this.base % page == 0 && this.base < 0x1_0000_0000_0000;
        test(DamageField::PartBase, placed, this.base, 0x1_0000_0000_0000)
    }
}

// The rules of all cells.
fn check_cells(layout: &Layout, image: &[u8]) -> Result<(), Damage>
    requires page { IsPage (length image.now) }
    requires rows { row_count image.now ≤ rows_that_fit layout.now (length image.now) }
    requires few { part_count image.now ≤ 4 }
    requires bases { (k : ℕ) → k < part_count image.now → (part_at image.now k).base < 2 ^ 48 }
    ensures { Judges (flat_map (λ row. row_rules layout.now image.now row) (range_with_len 0 (row_count image.now))) result }
{
    for row in 0..row_count(image) {
        check_row(layout, image, row)?;
    }
    Ok(())
}

// The rules of a row's cells.
fn check_row(layout: &Layout, image: &[u8], row: u32) -> Result<(), Damage>
    requires page { IsPage (length image.now) }
    requires room { row_place layout.now row + width_of layout.now ≤ length image.now }
    requires few { part_count image.now ≤ 4 }
    requires bases { (k : ℕ) → k < part_count image.now → (part_at image.now k).base < 2 ^ 48 }
    ensures { Judges (row_rules layout.now image.now row) result }
{
    for column in 0..layout.columns() {
        check_cell(layout, image, row, column)?;
    }
    Ok(())
}

// The rules of a cell.
fn check_cell(layout: &Layout, image: &[u8], row: u32, column: usize) -> Result<(), Damage>
    requires page { IsPage (length image.now) }
    requires room { row_place layout.now row + width_of layout.now ≤ length image.now }
    requires column { column < length layout.now }
    requires few { part_count image.now ≤ 4 }
    requires bases { (k : ℕ) → k < part_count image.now → (part_at image.now k).base < 2 ^ 48 }
    ensures { Judges (cell_rules layout.now image.now row column) result }
{
    let at = layout.row_place(row);
    if is_null(image, at, column) {
        return Ok(());
    }
    check_kind(layout.kind(column), image, at + layout.offset(column), row)
}

// The rules of the cell of a kind that begins at `at`.
#[tactic(auto, unfolding(crate::specs::Rules::kind_rules))]
fn check_kind(kind: CellKind, image: &[u8], at: usize, row: u32) -> Result<(), Damage>
    requires page { IsPage (length image.now) }
    requires room { at + cell_width kind ≤ length image.now }
    requires few { part_count image.now ≤ 4 }
    requires bases { (k : ℕ) → k < part_count image.now → (part_at image.now k).base < 2 ^ 48 }
    ensures { Judges (kind_rules kind image.now at (part_for image.now row)) result }
{
    match kind {
        CellKind::Bit => {
            let byte = image[at];
            test(DamageField::CellBit, byte <= 1, u64::from(byte), 1)
        }
        CellKind::Text => check_text(image, at, row),
        _ => Ok(()),
    }
}

// The rules of a text cell that begins at `at`.
fn check_text(image: &[u8], at: usize, row: u32) -> Result<(), Damage>
    requires page { IsPage (length image.now) }
    requires room { at + 16 ≤ length image.now }
    requires few { part_count image.now ≤ 4 }
    requires bases { (k : ℕ) → k < part_count image.now → (part_at image.now k).base < 2 ^ 48 }
    ensures { Judges (text_rules image.now at (number_at image.now at 4) (part_for image.now row)) result }
{
    let size = word_at(image, at);
    let limit = text_limit(image.len());
    test(
        DamageField::CellLength,
        size <= limit,
        u64::from(size),
        u64::from(limit),
    )?;
    if size <= 12 {
        let found = first_set(&image[at + 4 + size as usize..at + 16]);
        test(DamageField::CellPad, found == 0, u64::from(found), 0)
    } else {
        let part = part_for(image, row);
        let page = image.len() as u64;
        let address = long_at(image, at + 8);
        let holds = lies_on(part, page, size, address);
        test(DamageField::CellAddress, holds, address, part.base + page)
    }
}

/// How many bytes a text may have, by the bytes of a page.
#[tactic(auto, unfolding(crate::specs::Rules::text_limit))]
pub fn text_limit(page: usize) -> u32
    requires { IsPage page }
    ensures { result ≡ text_limit page }
{
    ((page - HEAP_HEAD) / MOST_TEXTS) as u32
}

// The first byte that isn't 0, and 0 where there is none.
#[tactic(auto, unfolding(crate::specs::Rules::first_set))]
fn first_set(bytes: &[u8]) -> u8
    ensures { result ≡ first_set bytes.now }
{
    for byte in bytes {
        if *byte != 0 {
            return *byte;
        }
    }
    0
}

// The part of a row: the first that ends behind it.
fn part_for(image: &[u8], row: u32) -> Part
    requires page { IsPage (length image.now) }
    requires few { part_count image.now ≤ 4 }
    requires bases { (k : ℕ) → k < part_count image.now → (part_at image.now k).base < 2 ^ 48 }
    ensures part { result ≡ part_for image.now row }
    ensures base { result.base < 2 ^ 48 }
{
    for part in 0..part_count(image) {
        let this = part_at(image, part);
        if u64::from(row) < u64::from(this.first) + u64::from(this.rows) {
            return this;
        }
    }
    Part {
        first: 0,
        rows: 0,
        heap: NO_HEAP,
        base: 0,
    }
}

// Whether a long text lies on the heap page of a part.
fn lies_on(part: Part, page: u64, size: u32, address: u64) -> bool
    requires base { part.base < 2 ^ 48 }
    requires page { page ≤ MOST_PAGE }
    ensures { result ≡ (address_rule page size address part).holds }
{
    part.heap != NO_HEAP
        && (part.base + HEAP_HEAD as u64 <= address && ends_by(address, size, part.base + page))
}

// Whether a text at an address ends by a place.
fn ends_by(address: u64, size: u32, end: u64) -> bool
    ensures { result ≡ nat_le (address + size) end }
{
    address <= end && u64::from(size) <= end - address
}
