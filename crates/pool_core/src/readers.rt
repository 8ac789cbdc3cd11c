//! Who reads a page.
ghost use Rattle.std.specs.Prelude.{◌≡◌, ◌↔◌, ◌==◌, ◌++◌, [], ◌∷◌, IsTrue, OnOk, OnErr, position};
ghost use Rattle.std.specs.List.{Contains, list_any};
ghost use Rattle.pool_core.specs.Readers.{without_one};

use ooc_io::OutOfMemory;
use std::alloc::Global;
use std::marker::Model;

/// The actors that read a page, one entry for each claim.
#[derive(Debug, Drop)]
pub struct Readers {
    actors: Vec<u32>,
}

impl Model for Readers {
    ghost use Rattle.std.specs.Prelude.{List, ℕ};

    ghost Value = { List ℕ };

    ghost view = { λ r. r.actors.items };
}

impl Readers {
    /// Nobody.
    pub fn new_readers(alloc: Global) -> Readers
        ensures { result ≡ [] }
    {
        Readers {
            actors: Vec::new(alloc),
        }
    }

    pub fn is_empty(&self) -> bool
        ensures { IsTrue result ↔ (self.now ≡ []) }
    {
        self.actors.is_empty()
    }

    /// Whether an actor has a claim.
    pub fn has(&self, actor: u32) -> bool
        ensures value { result ≡ list_any (λ reader. reader == actor) self.now }
        ensures contains { IsTrue result ↔ Contains self.now actor }
    {
        self.actors.contains(&actor)
    }

    /// One more claim of an actor.
    pub fn add(&mut self, actor: u32) -> Result<(), OutOfMemory>
        ensures added { OnOk result (self.new ≡ self.old ++ actor ∷ []) }
        ensures unchanged { OnErr result (self.new ≡ self.old) }
    {
        self.actors.push(actor)?;
        Ok(())
    }

    /// One claim of an actor less.
    pub fn remove_one(&mut self, actor: u32)
        ensures { self.new ≡ without_one actor self.old }
    {
        if let Some(at) = place_of(&self.actors, actor) {
            let _ = self.actors.remove(at);
        }
    }
}

// The first claim of an actor.
fn place_of(actors: &[u32], actor: u32) -> Option<usize>
    ensures { result ≡ position (λ other. other == actor) actors.now }
{
    actors.iter().position(|other| *other == actor)
}
