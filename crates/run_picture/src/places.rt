//! The places of requests, by their ids.

ghost use Rattle.std.specs.Prelude.{◌≡◌, [], ◌∷◌, ◌++◌, None, length, IfOk, OnOk};
ghost use Rattle.run_picture.specs.Places.{place_of};

use std::alloc::{AllocError, Global};
use std::collections::HashMap;
use std::marker::Model;

/// Ids in the order in which they came.
#[derive(Drop)]
pub struct Places {
    ids: Vec<u32>,
    places: HashMap<u32, usize>,
}

impl Model for Places {
    ghost use Rattle.std.specs.Prelude.{ℕ, List};
    ghost use Rattle.run_picture.specs.Places.{ArePlaces};

    ghost Value = { List ℕ };

    ghost view = { λ p. p.ids.items };

    ghost invariant = { λ p. ArePlaces p.ids.items p.places };
}

impl Places {
    /// The places of no id.
    pub fn new(alloc: Global) -> Places
        ensures { result ≡ [] }
    {
        Places {
            ids: Vec::new(alloc),
            places: HashMap::new(alloc),
        }
    }

    /// The place of an id; `None` if the id has not come.
    pub fn find(&self, id: u32) -> Option<usize>
        ensures { result ≡ place_of self.now id }
    {
        self.places.get(&id).copied()
    }

    /// Gives the next place to an id that has not come, and returns that place. `AllocError` says only that there was no memory.
    pub fn add(&mut self, id: u32) -> Result<usize, AllocError>
        requires { place_of self.old id ≡ None }
        ensures ids { OnOk result (self.new ≡ self.old ++ id ∷ []) }
        ensures place { IfOk result (λ place. place ≡ length self.old) }
    {
        let place = self.ids.len();
        self.ids.push(id)?;
        match self.places.insert(id, place) {
            Ok(_) => Ok(place),
            Err(_) => {
                let _ = self.ids.pop();
                Err(AllocError)
            }
        }
    }
}
