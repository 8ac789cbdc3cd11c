//! Moving the texts of a row page to the places where its heap pages lie.
ghost use Rattle.std.specs.Prelude.{◌≡◌, ◌≢◌, ℕ, ◌%◌, ◌^◌, ◌<◌, ◌≤◌, length};
ghost use Rattle.row_image.specs.declared.image.ImageKind.TheVariants.{Rows};
ghost use Rattle.row_image.specs.Bytes.{IsPage};
ghost use Rattle.row_image.specs.Image.{part_count, part_at, no_heap};
ghost use Rattle.row_image.specs.Flat.{flat};
ghost use Rattle.row_image.specs.Rules.{IsAccepted};
ghost use Rattle.page_body.specs.Shows.{AreBases, IsBased};

use row_image::{Layout, NO_HEAP, part_count, part_of, rebase};

/// Moves the texts of each part that has a heap page and another base.
pub fn move_parts(layout: &Layout, image: &mut [u8], bases: &[u64])
    requires page { IsPage (length image.old) }
    requires accepted { IsAccepted (Rows layout.now) image.old }
    requires bases { AreBases (length image.old) bases.now }
    ensures accepted { IsAccepted (Rows layout.now) image.new }
    ensures flat { flat (Rows layout.now) image.new ≡ flat (Rows layout.now) image.old }
    ensures based { IsBased image.new bases.now }
{
    for part in 0..part_count(image) {
        move_part(layout, image, part, bases[part as usize]);
    }
}

// Moves the texts of a part, if it has a heap page and another base.
fn move_part(layout: &Layout, image: &mut [u8], part: u32, base: u64)
    requires page { IsPage (length image.old) }
    requires accepted { IsAccepted (Rows layout.now) image.old }
    requires part { part < part_count image.old }
    requires few { part_count image.old ≤ 4 }
    requires aligned { base % length image.old ≡ 0 }
    requires low { base < 2 ^ 48 }
    ensures accepted { IsAccepted (Rows layout.now) image.new }
    ensures flat { flat (Rows layout.now) image.new ≡ flat (Rows layout.now) image.old }
    ensures count { part_count image.new ≡ part_count image.old }
    ensures based { (part_at image.new part).heap ≢ no_heap → (part_at image.new part).base ≡ base }
    ensures others { (k : ℕ) → k < part_count image.old → k ≢ part → part_at image.new k ≡ part_at image.old k }
{
    let this = part_of(image, part);
    if this.heap != NO_HEAP && this.base != base {
        rebase(layout, image, part, base);
    }
}
