//! Sets of pages that grow, in any pool.
ghost use Rattle.std.specs.Prelude.{◌≡◌, ◌≢◌, ◌+◌, ◌-◌, ◌^◌, ◌<◌, ◌≤◌, IfErr, ◌++◌, ◌∷◌, [], IsTrue, vec_len, vec_capacity, length};
ghost use Rattle.row_image.specs.declared.image.ImageKind.TheVariants.{Plain};
ghost use Rattle.page_body.specs.Keeps.{Kept};
ghost use Rattle.page_body.specs.Refusals.{CallFails};
ghost use Rattle.page_body.specs.PageLists.{ids_of, Differ, AllLive};

use page_body::clients::seal_copy;
use page_body::{Pages, PoolFault};
use row_image::ImageKind;

/// Adds that many pages of one image to a set of live pages that differ. In a pool that spills, those of the set that no
/// frame can hold were written.
pub fn fill<P: Pages>(
    pages: &mut P,
    kind: &ImageKind,
    image: &[u8],
    count: u32,
    set: &mut Vec<P::Page>,
) -> Result<(), PoolFault>
    requires room { (P.view pages.old).held < (P.view pages.old).grant }
    requires long { length image.now ≡ (P.view pages.old).page_bytes }
    requires sealable { kind.now ≢ Plain }
    requires live { AllLive (P.view pages.old) set.old.items }
    requires differ { Differ P.terms (ids_of P.terms set.old.items) }
    ensures live { AllLive (P.view pages.new) set.new.items }
    ensures differ { Differ P.terms (ids_of P.terms set.new.items) }
    ensures written { IsTrue P.terms.spills → (P.view pages.new).wrote < 2 ^ 64 - 1 → length set.new.items ≤ (P.view pages.old).grant + (P.view pages.new).wrote }
    ensures cause { IfErr result (CallFails P.terms.told (P.view pages.old).faults (P.view pages.new).faults) }
    ensures kept { Kept (P.view pages.old) (P.view pages.new) }
{
    for _ in 0..count {
        add(pages, kind, image, set)?;
    }
    Ok(())
}

/// Adds a page of an image to a set of live pages that differ, if the image keeps the rules of its kind.
pub fn add<P: Pages>(
    pages: &mut P,
    kind: &ImageKind,
    image: &[u8],
    set: &mut Vec<P::Page>,
) -> Result<(), PoolFault>
    requires room { (P.view pages.old).held < (P.view pages.old).grant }
    requires long { length image.now ≡ (P.view pages.old).page_bytes }
    requires sealable { kind.now ≢ Plain }
    requires live { AllLive (P.view pages.old) set.old.items }
    requires differ { Differ P.terms (ids_of P.terms set.old.items) }
    ensures live { AllLive (P.view pages.new) set.new.items }
    ensures differ { Differ P.terms (ids_of P.terms set.new.items) }
    ensures cause { IfErr result (CallFails P.terms.told (P.view pages.old).faults (P.view pages.new).faults) }
    ensures kept { Kept (P.view pages.old) (P.view pages.new) }
{
    if set.reserve(1).is_err() {
        return Err(PoolFault::OutOfMemory);
    }
    let sealed = seal_copy(pages, *kind, image)?;
    if let Some(page) = sealed {
        put(set, page);
    }
    Ok(())
}

// Puts a page at the end of a set that has room.
fn put<T>(set: &mut Vec<T>, page: T)
    requires { vec_len set.old + 1 ≤ vec_capacity set.old }
    ensures { set.new.items ≡ set.old.items ++ (page ∷ []) }
{
    set.push(page).unwrap();
}
