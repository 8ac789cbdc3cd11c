//! Pages and tables that the tests use.
ghost use Rattle.std.specs.Prelude.{◌≡◌, ◌+◌, ◌≤◌, IfOk, true, length};
ghost use Rattle.solo_pool.specs.View.{held_view};

use ooc_io::MemLane;
use page_body::PoolFault;
use solo_pool::SoloTables;
use std::alloc::Global;

/// Tables of 24 frames of 4,096 bytes.
pub fn tables(alloc: Global) -> Result<SoloTables<MemLane>, PoolFault>
    ensures page { IfOk result (λ tables. (held_view true tables).page_bytes ≡ 4096) }
    ensures grant { IfOk result (λ tables. (held_view true tables).grant ≡ 24) }
    ensures held { IfOk result (λ tables. (held_view true tables).held ≡ 0) }
{
    match SoloTables::open_tables(alloc, 4096, 24) {
        Ok(tables) => Ok(tables),
        Err(_) => Err(PoolFault::OutOfMemory),
    }
}

/// Bytes at a place.
pub fn put(image: &mut [u8; 4096], place: usize, bytes: &[u8])
    requires long { length image.old ≡ 4096 }
    requires room { place + length bytes.now ≤ 4096 }
    ensures { length image.new ≡ 4096 }
{
    let image: &mut [u8] = image;
    image[place..place + bytes.len()].copy_from_slice(bytes);
}

/// A heap page with the text `abcdefghijklm`, which lies behind its 64 bytes of head.
pub fn heap_image() -> [u8; 4096]
    ensures { length result ≡ 4096 }
{
    let mut image = [0; 4096];
    put(&mut image, 0, &[2, 0, 0, 0, 13]);
    put(&mut image, 64, b"abcdefghijklm");
    image
}

/// A full heap page whose text begins with a number and goes on with one byte that depends on it.
pub fn draw(image: &mut [u8], number: u32)
    requires { length image.old ≡ 4096 }
{
    image.fill((number % 251) as u8);
    clear_head(image);
    image[0] = 2;
    image[4..8].copy_from_slice(&4032u32.to_le_bytes());
    image[64..68].copy_from_slice(&number.to_le_bytes());
}

fn clear_head(image: &mut [u8])
    requires { 64 ≤ length image.old }
{
    image[..64].fill(0);
}
