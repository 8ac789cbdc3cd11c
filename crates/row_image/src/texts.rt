//! The law on long texts. The function does nothing; its contract says the law.
ghost use Rattle.std.specs.Prelude.{◌≡◌, ℕ, ◌*◌, ◌<◌, List, length};
ghost use Rattle.row_image.specs.declared.layout.CellKind.{CellKind};
ghost use Rattle.row_image.specs.declared.image.ImageKind.TheVariants.{Rows};
ghost use Rattle.row_image.specs.Bytes.{IsPage};
ghost use Rattle.row_image.specs.Cells.{LongCell};
ghost use Rattle.row_image.specs.Image.{row_count, part_at, stored_cell};
ghost use Rattle.row_image.specs.Rules.{IsAccepted};
ghost use Rattle.row_image.specs.Followed.{IsOnHeap, IsFollowed};

/// A long text of an accepted row page lies on the heap page of its row's part. Where the part's base is the number of
/// the frame in which that heap page lies, times the page, the address names this frame, and the bytes there are the
/// text that the flat images stand for.
pub fn followed_texts_are_the_stored_ones()
    ensures { (kinds : List CellKind) (image : List ℕ) (row column : ℕ) (prefix : List ℕ) (size address : ℕ)
        → IsPage (length image) → IsAccepted (Rows kinds) image → row < row_count image → column < length kinds
        → stored_cell kinds image row column ≡ LongCell prefix size address
        → (part : ℕ) × IsOnHeap kinds image row column prefix size address part
        × ((heap : List ℕ) (frame : ℕ) → (part_at image part).base ≡ frame * length image
        → IsFollowed kinds image heap row column size address frame) }
{}
