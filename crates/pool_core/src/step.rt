//! One event.
ghost use Rattle.std.specs.Prelude.{◌≡◌, ℕ, ◌+◌, ◌<◌, ◌%◌, ◌^◌, [], ◌∷◌, ◌++◌, length, slice_get, slice_set, IsSomeAnd, OnOk, OnErr, Some, None};
ghost use Rattle.pool_core.specs.State.{State, state_of, OnPage, OnTurn, IsOut, Reads};
ghost use Rattle.pool_core.specs.Enabled.{CanChange, CanSeal, CanLook, Enabled};
ghost use Rattle.pool_core.specs.Effects.{with_turn, with_page, owned, put, new_page, marks_left, Changes, Acts};
ghost use Rattle.pool_core.specs.Readers.{without_one};
ghost use Rattle.pool_core.specs.Sound.{Sound};

use crate::acts;
use crate::event::{Change, Event};
use crate::image::Image;
use crate::state::{CorePage, Mark, Parts};
use ooc_io::OutOfMemory;
use row_image::ImageKind;

/// An enabled event acts. Where memory runs out, the state is as it was.
pub fn step(state: &mut Parts, event: Event) -> Result<(), OutOfMemory>
    requires sound { Sound (state_of state.old) }
    requires enabled { Enabled (state_of state.old) event }
    ensures acts { OnOk result (Acts (state_of state.old) event (state_of state.new)) }
    ensures unchanged { OnErr result (state_of state.new ≡ state_of state.old) }
{
    match event {
        Event::Hand { actor: _ } => {
            state.hand = state.hand.wrapping_add(1);
            Ok(())
        }
        Event::Take { actor, frame } => {
            set_out(state, frame, Some(actor));
            Ok(())
        }
        Event::Give { actor: _, frame } => {
            set_out(state, frame, None);
            Ok(())
        }
        Event::Read { actor, page } => read(state, actor, page),
        Event::Leave { actor, page } => {
            leave(state, actor, page);
            Ok(())
        }
        Event::Claim { actor, page } => {
            claim(state, actor, page);
            Ok(())
        }
        Event::Put {
            actor,
            page,
            change,
        } => put(state, actor, page, change),
        Event::Seal {
            actor: _,
            frame,
            kind,
            image,
            heaps,
        } => seal(state, frame, kind, image, heaps),
        Event::Look { actor, page } => look(state, actor, page),
    }
}

fn set_out(state: &mut Parts, frame: u32, out: Option<u32>)
    requires { frame < length state.old.turns.items }
    ensures { OnTurn state.old.turns.items frame (λ t. state_of state.new ≡ with_turn (state_of state.old) frame (record t { out = out })) }
{
    acts::set_out(&mut state.turns, frame, out);
}

fn read(state: &mut Parts, actor: u32, page: u64) -> Result<(), OutOfMemory>
    requires { page < length state.old.pages.items }
    ensures acts { OnOk result (OnPage state.old.pages.items page (λ p. state_of state.new ≡ with_page (state_of state.old) page (record p { readers = p.readers ++ actor ∷ [] }))) }
    ensures unchanged { OnErr result (state_of state.new ≡ state_of state.old) }
{
    acts::read(&mut state.pages, actor, page)
}

fn claim(state: &mut Parts, actor: u32, page: u64)
    requires { page < length state.old.pages.items }
    ensures { OnPage state.old.pages.items page (λ p. state_of state.new ≡ with_page (state_of state.old) page (record p { writer = Some actor })) }
{
    acts::claim(&mut state.pages, actor, page);
}

fn leave(state: &mut Parts, actor: u32, page: u64)
    requires { page < length state.old.pages.items }
    ensures { Acts (state_of state.old) (Event.Leave actor page) (state_of state.new) }
{
    acts::leave(&mut state.pages, actor, page);
    drop_unread(&mut state.marks, &state.pages, actor, page);
}

// Where an actor reads a page no more, its marks that rest on it go.
fn drop_unread(marks: &mut Vec<Mark>, pages: &[CorePage], actor: u32, page: u64)
    requires { page < length pages.now }
    ensures { OnPage pages.now page (λ p. marks.new.items ≡ marks_left pages.now actor page p.readers marks.old.items) }
{
    if !pages[page as usize].readers.has(actor) {
        acts::drop_marks(marks, pages, actor, page);
    }
}

fn look(state: &mut Parts, actor: u32, page: u64) -> Result<(), OutOfMemory>
    ensures acts { OnOk result (state_of state.new ≡ record (state_of state.old) { marks = state.old.marks.items ++ record { actor = actor; page = page } ∷ [] }) }
    ensures unchanged { OnErr result (state_of state.new ≡ state_of state.old) }
{
    state.marks.push(Mark { actor, page })?;
    Ok(())
}

fn seal(
    state: &mut Parts,
    frame: u32,
    kind: ImageKind,
    image: Image,
    heaps: [Option<u64>; 4],
) -> Result<(), OutOfMemory>
    requires { OnTurn state.old.turns.items frame (λ t. IsSomeAnd t.turn.spare (λ f. length image ≡ length f.bytes.items)) }
    ensures acts { OnOk result (OnTurn state.old.turns.items frame (λ t. IsSomeAnd t.turn.spare (λ f.
        state_of state.new ≡ with_turn (record (state_of state.old) { pages = state.old.pages.items ++ new_page kind image heaps f ∷ [] }) frame (owned t (length state.old.pages.items))))) }
    ensures unchanged { OnErr result (state_of state.new ≡ state_of state.old) }
{
    acts::seal(
        &mut state.turns,
        &mut state.pages,
        frame,
        kind,
        image,
        heaps,
    )
}

fn put(state: &mut Parts, actor: u32, page: u64, change: Change) -> Result<(), OutOfMemory>
    requires sound { Sound (state_of state.old) }
    requires can { OnPage state.old.pages.items page (λ p. (p.writer ≡ Some actor) × CanChange state.old.page state.old.turns.items actor p change) }
    ensures acts { OnOk result (OnPage state.old.pages.items page (λ p. Changes (state_of state.old) page p change (state_of state.new))) }
    ensures unchanged { OnErr result (state_of state.new ≡ state_of state.old) }
{
    match change {
        Change::Keep => {
            acts::keep(&mut state.pages, page);
            Ok(())
        }
        Change::Install { frame } => {
            acts::install(&mut state.turns, &mut state.pages, frame, page);
            Ok(())
        }
        Change::Rest => {
            let alloc = *state.pages.allocator();
            acts::rest(alloc, &mut state.turns, &mut state.pages, page)
        }
        Change::Rebase { part, base } => {
            acts::rebase(&mut state.pages, page, part, base);
            Ok(())
        }
        Change::Kill => {
            acts::kill(&mut state.pages, page);
            Ok(())
        }
    }
}
