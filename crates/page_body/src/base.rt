//! Where a heap page's texts begin in the numbering of addresses.
ghost use Rattle.std.specs.Prelude.{◌≡◌, ◌*◌, ◌%◌, ◌^◌, ◌<◌};
ghost use Rattle.row_image.specs.Bytes.{IsPage};
ghost use Rattle.page_body.specs.Shows.{most_frames};

/// The base of a heap page: the number of its frame times the bytes of a page.
pub fn base_of(frame: u32, page: u32) -> u64
    requires page { IsPage page }
    requires frame { frame < most_frames }
    ensures is { result ≡ frame * page }
    ensures aligned { result % page ≡ 0 }
    ensures low { result < 2 ^ 48 }
{
    u64::from(frame) * u64::from(page)
}
