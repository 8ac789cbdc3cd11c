//! Clients of a pool, proved from the trait alone: pages sealed, pinned, read and retired.
ghost use Rattle.std.specs.Prelude.{◌≡◌, ◌≢◌, ◌<◌, IsTrue, IfOk, IfErr, IfSome, IsSome, OnOk, length};
ghost use Rattle.row_image.specs.Flat.{flat};
ghost use Rattle.row_image.specs.declared.image.ImageKind.TheVariants.{Heap, Plain};
ghost use Rattle.row_image.specs.Rules.{IsAccepted};
ghost use Rattle.page_body.specs.Keeps.{Kept};
ghost use Rattle.page_body.specs.Shows.{IsNew};
ghost use Rattle.page_body.specs.Refusals.{RoomFails, ReadFails, CallFails};
ghost use Rattle.page_body.specs.Stands.{ImageStands};

use crate::fault::PoolFault;
use crate::pages::Pages;
use row_image::{ImageKind, check_image};

/// Seals a page with the bytes of an image. It answers None where the image breaks a rule of its kind.
pub fn seal_copy<P: Pages>(
    pages: &mut P,
    kind: ImageKind,
    image: &[u8],
) -> Result<Option<P::Page>, PoolFault>
    requires room { (P.view pages.old).held < (P.view pages.old).grant }
    requires long { length image.now ≡ (P.view pages.old).page_bytes }
    requires sealable { kind ≢ Plain }
    ensures new { IfOk result (λ sealed. IfSome sealed (IsNew P.terms (P.view pages.old) (P.view pages.new))) }
    ensures kind { IfOk result (λ sealed. IfSome sealed (λ page. P.terms.kind page ≡ kind)) }
    ensures content { IfOk result (λ sealed. IfSome sealed (λ page. P.terms.content page ≡ flat kind image.now)) }
    ensures accepted { IsAccepted kind image.now → IfOk result IsSome }
    ensures cause { IfErr result (RoomFails (P.view pages.old).faults (P.view pages.new).faults) }
    ensures kept { Kept (P.view pages.old) (P.view pages.new) }
{
    let mut page = pages.open(kind)?;
    page.bytes_mut().copy_from_slice(image);
    if check_image(&page.kind, &page.frame.bytes).is_err() {
        pages.discard(page);
        return Ok(None);
    }
    match pages.seal(page) {
        Ok(sealed) => Ok(Some(sealed)),
        Err((page, _)) => {
            pages.discard(page);
            Err(PoolFault::OutOfMemory)
        }
    }
}

/// Copies the bytes of a page. They are an image that stands for the page's content.
pub fn read_back<P: Pages>(pages: &mut P, page: &P::Page, into: &mut [u8]) -> Result<(), PoolFault>
    requires live { (P.view pages.old).live page.now }
    requires room { (P.view pages.old).held < (P.view pages.old).grant }
    requires long { length into.old ≡ (P.view pages.old).page_bytes }
    ensures stands { OnOk result (ImageStands P.terms.told (P.terms.kind page.now) (P.terms.content page.now) into.new) }
    ensures cause { IfErr result (ReadFails P.terms.told (P.terms.kind page.now) (P.view pages.old).page_bytes (P.view pages.old).faults (P.view pages.new).faults) }
    ensures kept { Kept (P.view pages.old) (P.view pages.new) }
{
    let pin = pages.pin(page)?;
    into.copy_from_slice(pages.bytes(&pin));
    pages.unpin(pin);
    Ok(())
}

/// Seals two heap pages with the bytes of two images, reads the first back into the place of its image, and retires both.
/// It answers whether both images kept the rules.
pub fn two_pages<P: Pages>(
    pages: &mut P,
    first: &mut [u8],
    second: &[u8],
) -> Result<bool, PoolFault>
    requires room { (P.view pages.old).held < (P.view pages.old).grant }
    requires first { length first.old ≡ (P.view pages.old).page_bytes }
    requires second { length second.now ≡ (P.view pages.old).page_bytes }
    ensures read { IsTrue P.terms.told → IfOk result (λ kept. IsTrue kept → first.new ≡ first.old) }
    ensures accepted { IsAccepted Heap first.old → IsAccepted Heap second.now → IfOk result IsTrue }
    ensures cause { IfErr result (CallFails P.terms.told (P.view pages.old).faults (P.view pages.new).faults) }
    ensures kept { Kept (P.view pages.old) (P.view pages.new) }
{
    let one = match seal_copy(pages, ImageKind::Heap, first)? {
        Some(page) => page,
        None => return Ok(false),
    };
    let two = match seal_copy(pages, ImageKind::Heap, second) {
        Ok(Some(page)) => page,
        Ok(None) => {
            pages.retire(one);
            return Ok(false);
        }
        Err(fault) => {
            pages.retire(one);
            return Err(fault);
        }
    };
    let read = read_back(pages, &one, first);
    pages.retire(one);
    pages.retire(two);
    match read {
        Ok(()) => Ok(true),
        Err(fault) => Err(fault),
    }
}
