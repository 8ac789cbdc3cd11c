//! Pins on a row page and its heap pages, taken together and given back together.
ghost use Rattle.std.specs.Prelude.{IsTrue, ◌≡◌, ℕ, ◌+◌, ◌<◌, ◌≤◌, ◌%◌, ◌^◌, [], ◌∷◌, IfOk, IfErr, IfSome, OnErr, OnOk};
ghost use Rattle.page_body.specs.Keeps.{Kept, Takes, Gives, Reserves};
ghost use Rattle.page_body.specs.Refusals.{CallFails};
ghost use Rattle.rebase_pins.specs.RowPages.{under_pins, ids_in, ids_of, base_under, changed, IsFormed, IsLive, IsOwned, IsPlaced};

use crate::row_page::{RowPage, RowPins};
use page_body::{Pages, PoolFault, base_of};
use row_image::Layout;

/// Pins the heap pages of a row page, and then the row page, whose texts are moved to where its heap pages lie. After a
/// refusal this call's pins are given back. Where retiring ends lives, this worker has no pin on the row page; elsewhere
/// the call waits until no worker has.
pub fn pin_rows<P: Pages>(
    pages: &mut P,
    page: &RowPage<P::Page>,
    layout: &Layout,
) -> Result<RowPins<P::Pin>, PoolFault>
    requires formed { IsFormed P.terms layout.now page.now }
    requires live { IsLive (P.view pages.old) page.now }
    requires alone { IsTrue P.terms.ends_lives → (P.view pages.old).pins (P.terms.id page.now.rows) ≡ 0 }
    requires room { (P.view pages.old).held + 5 ≤ (P.view pages.old).grant }
    ensures under { IfOk result (λ pins. under_pins P.terms pins ≡ page.now) }
    ensures placed { IfOk result (IsPlaced P.terms (P.view pages.old).page_bytes) }
    ensures own { IfOk result (IsOwned P.terms (P.view pages.new)) }
    ensures took { OnOk result (Takes (ids_of P.terms page.now) (P.view pages.old) (P.view pages.new)) }
    ensures refused { OnErr result (Kept (P.view pages.old) (P.view pages.new)) }
    ensures cause { IfErr result (CallFails P.terms.told (P.view pages.old).faults (P.view pages.new).faults) }
{
    let (heap0, heap1) = pin_two(pages, &page.heap0, &page.heap1)?;
    match pin_two(pages, &page.heap2, &page.heap3) {
        Ok((heap2, heap3)) => {
            let bases = [
                base_under(pages, &heap0),
                base_under(pages, &heap1),
                base_under(pages, &heap2),
                base_under(pages, &heap3),
            ];
            match pages.pin_based(&page.rows, layout, &bases) {
                Ok(rows) => Ok(RowPins {
                    rows,
                    heap0,
                    heap1,
                    heap2,
                    heap3,
                }),
                Err(fault) => {
                    unpin_two(pages, heap0, heap1);
                    unpin_two(pages, heap2, heap3);
                    Err(fault)
                }
            }
        }
        Err(fault) => {
            unpin_two(pages, heap0, heap1);
            Err(fault)
        }
    }
}

/// Gives the pins back.
pub fn release<P: Pages>(pages: &mut P, pins: RowPins<P::Pin>)
    requires own { IsOwned P.terms (P.view pages.old) pins }
    ensures gave { Gives P.terms (ids_of P.terms (under_pins P.terms pins)) (P.view pages.old) (P.view pages.new) }
{
    let RowPins {
        rows,
        heap0,
        heap1,
        heap2,
        heap3,
    } = pins;
    pages.unpin(rows);
    unpin_two(pages, heap0, heap1);
    unpin_two(pages, heap2, heap3);
}

// Pins a heap page that may not be there.
fn pin_heap<P: Pages>(pages: &mut P, heap: &Option<P::Page>) -> Result<Option<P::Pin>, PoolFault>
    requires live { IfSome heap.now (P.view pages.old).live }
    requires room { (P.view pages.old).held < (P.view pages.old).grant }
    ensures under { IfOk result (λ pin. changed P.terms.under pin ≡ heap.now) }
    ensures own { IfOk result (λ pin. IfSome pin (P.view pages.new).valid) }
    ensures took { OnOk result (Takes (ids_in P.terms (heap.now ∷ [])) (P.view pages.old) (P.view pages.new)) }
    ensures refused { OnErr result (Kept (P.view pages.old) (P.view pages.new)) }
    ensures cause { IfErr result (CallFails P.terms.told (P.view pages.old).faults (P.view pages.new).faults) }
{
    match heap {
        Some(page) => {
            let pin = pages.pin(page)?;
            Ok(Some(pin))
        }
        None => Ok(None),
    }
}

// Pins two heap pages that may not be there, or none.
fn pin_two<P: Pages>(
    pages: &mut P,
    first: &Option<P::Page>,
    second: &Option<P::Page>,
) -> Result<(Option<P::Pin>, Option<P::Pin>), PoolFault>
    requires first { IfSome first.now (P.view pages.old).live }
    requires second { IfSome second.now (P.view pages.old).live }
    requires room { (P.view pages.old).held + 2 ≤ (P.view pages.old).grant }
    ensures under { IfOk result (λ pins. (changed P.terms.under pins.0 ≡ first.now) × (changed P.terms.under pins.1 ≡ second.now)) }
    ensures own { IfOk result (λ pins. IfSome pins.0 (P.view pages.new).valid × IfSome pins.1 (P.view pages.new).valid) }
    ensures took { OnOk result (Takes (ids_in P.terms (first.now ∷ second.now ∷ [])) (P.view pages.old) (P.view pages.new)) }
    ensures refused { OnErr result (Kept (P.view pages.old) (P.view pages.new)) }
    ensures cause { IfErr result (CallFails P.terms.told (P.view pages.old).faults (P.view pages.new).faults) }
{
    let one = pin_heap(pages, first)?;
    match pin_heap(pages, second) {
        Ok(two) => Ok((one, two)),
        Err(fault) => {
            unpin_heap(pages, one);
            Err(fault)
        }
    }
}

// Gives a pin back that may not be there.
fn unpin_heap<P: Pages>(pages: &mut P, pin: Option<P::Pin>)
    requires { IfSome pin (P.view pages.old).valid }
    ensures { Gives P.terms (ids_in P.terms (changed P.terms.under pin ∷ [])) (P.view pages.old) (P.view pages.new) }
{
    match pin {
        Some(pin) => pages.unpin(pin),
        None => {}
    }
}

// Gives two pins back that may not be there.
fn unpin_two<P: Pages>(pages: &mut P, first: Option<P::Pin>, second: Option<P::Pin>)
    requires first { IfSome first (P.view pages.old).valid }
    requires second { IfSome second (P.view pages.old).valid }
    requires counted { Reserves (ids_in P.terms (changed P.terms.under first ∷ changed P.terms.under second ∷ [])) (P.view pages.old) }
    ensures { Gives P.terms (ids_in P.terms (changed P.terms.under first ∷ changed P.terms.under second ∷ [])) (P.view pages.old) (P.view pages.new) }
{
    unpin_heap(pages, first);
    unpin_heap(pages, second);
}

// Where a heap page lies, and 0 where there is none.
fn base_under<P: Pages>(pages: &P, pin: &Option<P::Pin>) -> u64
    requires { IfSome pin.now (P.view pages.now).valid }
    ensures is { result ≡ base_under P.terms (P.view pages.now).page_bytes pin.now }
    ensures aligned { result % (P.view pages.now).page_bytes ≡ 0 }
    ensures low { result < 2 ^ 48 }
{
    match pin {
        Some(pin) => base_of(pages.frame(pin), pages.page_bytes()),
        None => 0,
    }
}
