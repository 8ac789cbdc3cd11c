//! The core as callers see it.
ghost use Rattle.std.specs.Prelude.{◌≡◌, ◌↔◌, ◌<◌, IsTrue, OnOk, OnErr, IfOk, IfErr};
ghost use Rattle.row_image.specs.Bytes.{IsPage};
ghost use Rattle.pool_core.specs.Enabled.{Enabled};
ghost use Rattle.pool_core.specs.Effects.{Acts};
ghost use Rattle.pool_core.specs.Run.{Opened, Ran, Stops};
ghost use Rattle.pool_core.specs.Sound.{Sound};
ghost use Rattle.pool_core.specs.Laws.{IsLawful, KeepsRead};

use crate::event::Event;
use crate::state::Parts;
use crate::{enabled, opening, step};
use ooc_io::OutOfMemory;
use std::alloc::Global;
use std::marker::Model;
use thiserror::Error;

/// Why a list of events stopped.
#[derive(Clone, Copy, Debug, PartialEq, Eq, Error)]
pub enum CoreStop {
    /// The event at this place, from 0, isn't enabled. Those before it have acted.
    #[error("event {0} isn't enabled")]
    NotEnabled(u64),
    /// Memory ran out. Some of the events have acted.
    #[error("out of memory")]
    OutOfMemory,
}

/// The state of the core.
#[derive(Drop)]
pub struct CoreState {
    parts: Parts,
}

impl Model for CoreState {
    ghost use Rattle.pool_core.specs.State.{State, state_of};
    ghost use Rattle.pool_core.specs.Sound.{Sound};

    ghost Value = { State };

    ghost view = { λ s. state_of s.parts };

    ghost invariant = { λ s. Sound (state_of s.parts) };
}

impl CoreState {
    /// A core of so many frames and actors, with pages of so many bytes.
    pub fn open_core(
        alloc: Global,
        page: u32,
        frames: u32,
        actors: u32,
    ) -> Result<CoreState, OutOfMemory>
        requires page { IsPage page }
        requires frames { 0 < frames }
        requires actors { 0 < actors }
        ensures { IfOk result (λ s. Opened page frames actors s) }
    {
        let parts = opening::opened(alloc, page, frames, actors)?;
        Ok(CoreState { parts })
    }

    /// What holds of every core.
    pub fn is_sound(&self)
        ensures sound { Sound self.now }
        ensures lawful { IsLawful self.now }
    {
        let _ = &self.parts;
    }

    /// Whether an event is enabled.
    pub fn enabled(&self, event: &Event) -> bool
        ensures { IsTrue result ↔ Enabled self.now event.now }
    {
        enabled::enabled(&self.parts, event)
    }

    /// An enabled event acts. Where memory runs out, the state is as it was.
    pub fn step(&mut self, event: Event) -> Result<(), OutOfMemory>
        requires { Enabled self.old event }
        ensures acts { OnOk result (Acts self.old event self.new) }
        ensures unchanged { OnErr result (self.new ≡ self.old) }
        ensures sound { Sound self.new }
        ensures lawful { IsLawful self.new }
        ensures read { OnOk result (KeepsRead self.old.pages self.new.pages) }
    {
        step::step(&mut self.parts, event)
    }

    /// The events act one after the other, up to the first that isn't enabled.
    pub fn run(&mut self, events: Vec<Event>) -> Result<(), CoreStop>
        ensures ran { OnOk result (Ran self.old events.items self.new) }
        ensures stopped { IfErr result (λ stop. Stops self.old events.items stop self.new) }
        ensures sound { Sound self.new }
        ensures lawful { IsLawful self.new }
    {
        let _ = &self.parts;
        let mut done: u64 = 0;
        for event in events {
            if !self.enabled(&event) {
                return Err(CoreStop::NotEnabled(done));
            }
            match self.step(event) {
                Ok(()) => done += 1,
                Err(_) => return Err(CoreStop::OutOfMemory),
            }
        }
        Ok(())
    }
}
