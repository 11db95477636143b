//! Places of columns.

ghost use Rattle.std.specs.Prelude.{◌≡◌, ◌≤◌, IfOk};
ghost use Rattle.std.specs.List.{range_with_len};

use crate::same::Same;
use std::alloc::{AllocFailed, Global};
use std::marker::Model;

/// The places of columns of a table, from 0, in the order in which they are kept.
#[derive(Drop)]
pub struct Places {
    places: Vec<u8>,
}

impl Model for Places {
    ghost use Rattle.std.specs.Prelude.{List, ℕ};

    ghost Value = { List ℕ };

    ghost view = { λ p. p.places.items };
}

impl Places {
    /// These places.
    pub(crate) fn new(places: Vec<u8>) -> Places
        ensures { result ≡ places.items }
    {
        Places { places }
    }

    /// The places from 0 on, so many.
    #[tactic(auto, using(crate::proofs::TableLaws::range_grown))]
    pub(crate) fn all(alloc: Global, count: usize) -> Result<Places, AllocFailed<u8>>
        requires { count ≤ 256 }
        ensures { IfOk result (λ p. p ≡ range_with_len 0 count) }
    {
        let mut places = Vec::new(alloc);
        for place in 0..count {
            places.push(place as u8)?;
        }
        Ok(Places { places })
    }

    /// The places in their order.
    pub fn as_slice(&self) -> &[u8]
        ensures { result.now ≡ self.now }
    {
        self.places.as_slice()
    }
}

impl Same for Places {
    fn same(&self, other: &Places) -> bool {
        self.places == other.places
    }
}
