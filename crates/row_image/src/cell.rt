//! A cell as it is handed in and out.

/// A cell that is to be written. A text of at most 12 bytes is short and lies in its cell; a longer
/// one lies on a heap page, and its cell has its first 4 bytes, its length and its address.
#[derive(Clone, Copy)]
pub enum CellIn<'a> {
    Null,
    Number(i128),
    Short(&'a [u8]),
    Long {
        prefix: [u8; 4],
        length: u32,
        address: u64,
    },
}

/// A cell as it was read: a short text is a part of the image.
#[derive(Clone, Copy)]
pub enum Cell<'a> {
    Null,
    Number(i128),
    Short(&'a [u8]),
    Long {
        prefix: [u8; 4],
        length: u32,
        address: u64,
    },
}
