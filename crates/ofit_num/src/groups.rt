use crate::row::Row;
use std::alloc::{AllocError, Global};
use std::marker::Model;

/// The rows of each group, groups in order of their places.
#[derive(Drop)]
pub struct Groups {
    lists: Vec<Vec<Row>>,
}

impl Model for Groups {
    ghost use Rattle.std.specs.Prelude.{map, ◌<◌, ◌^◌, vec_len};
    ghost use Rattle.ofit_num.specs.Groups.{RowLists};

    ghost Value = { RowLists };

    ghost view = { λ g. map (λ rows. rows.items) g.lists.items };

    ghost invariant = { λ g. vec_len g.lists < 2 ^ 32 };
}

impl Groups {
    ghost use Rattle.std.specs.Prelude.{◌≡◌, ◌+◌, ◌-◌, ◌<◌, ◌^◌, [], ◌∷◌, ◌++◌, length, OnOk, OnErr, slice_get, Some};

    /// No groups. It takes no memory.
    pub fn new(alloc: Global) -> Groups
        ensures { result ≡ [] }
    {
        Groups {
            lists: Vec::new(alloc),
        }
    }

    /// Appends a group with a copy of the rows.
    pub fn add(&mut self, rows: &[Row]) -> Result<(), AllocError>
        requires { length self.old < 2 ^ 32 - 1 }
        ensures ok { OnOk result (self.new ≡ self.old ++ rows.now ∷ []) }
        ensures err { OnErr result (self.new ≡ self.old) }
    {
        let alloc = *self.lists.allocator();
        let copy = Vec::from_slice(alloc, rows)?;
        self.lists.push(copy)?;
        Ok(())
    }

    /// The number of groups.
    pub fn count(&self) -> u32
        ensures { result ≡ length self.now }
    {
        self.lists.len() as u32
    }

    /// The rows of the group at a place.
    pub fn rows(&self, place: u32) -> &[Row]
        requires { place < length self.now }
        ensures { slice_get self.now place ≡ Some result.now }
    {
        self.lists[place as usize].as_slice()
    }
}
