//! The features of all collections at every revision.

use crate::History;
use cad_schema::Collection;
use std::alloc::{AllocError, Global};
use std::marker::Model;

/// The history of each collection of a register.
///
/// Contracts see the rows of each, in the order of the collections.
#[derive(Drop)]
pub struct Histories {
    each: Vec<History>,
}

impl Model for Histories {
    ghost use Rattle.cad_history.specs.Histories.{RegisterRows, AreInOrder};

    ghost Value = { RegisterRows };

    ghost view = { λ h. h.each.items };

    ghost invariant = { λ h. AreInOrder h.each.items };
}

impl Histories {
    ghost use Rattle.std.specs.Prelude.{◌≡◌, [], IfOk, Ok};
    ghost use Rattle.cad_history.specs.Histories.{rows_for, AreInPlace, AreAllRowsOf};
    ghost use Rattle.cad_history.specs.Rows.{Rows};

    /// Those of a register without commands. An error means out of memory.
    pub fn new(alloc: Global) -> Result<Histories, AllocError>
        ensures { IfOk result (AreAllRowsOf []) }
    {
        Histories::of_each(alloc, |collection| History::new(alloc, collection))
    }

    /// The histories that `make` gives, one for each collection. An error means out of memory, or is the first one of `make`.
    pub fn of_each<F: Fn(Collection) -> Result<History, AllocError>>(
        alloc: Global,
        make: F,
    ) -> Result<Histories, AllocError>
        requires callable { F.IsAlwaysCallable make }
        requires own { (collection : Collection) (rows : Rows) → F.post make collection (Ok rows) → rows.collection ≡ collection }
        ensures { IfOk result (λ all. (collection : Collection) → F.post make collection (Ok (rows_for all collection))) }
    {
        let mut each = Vec::with_capacity(alloc, Collection::ALL.len())?;
        for collection in Collection::ALL {
            let history = make(collection)?;
            each.push(history)?;
        }
        Ok(Histories { each })
    }

    /// The history of the collection.
    pub fn of(&self, collection: Collection) -> &History
        ensures collection { result.now.collection ≡ collection }
        ensures rows { result.now ≡ rows_for self.now collection }
        ensures in_place { AreInPlace self.now }
    {
        &self.each[collection as usize]
    }

    /// Whether no history has a list of rows with more changes to its bases than `most`.
    pub fn is_settled(&self, most: usize) -> bool {
        self.each.iter().all(|history| history.is_settled(most))
    }

    /// The same rows, with new bases for each list of them that is not settled. An error means out of memory.
    pub fn settled(&self, alloc: Global, most: usize) -> Result<Histories, AllocError>
        ensures { IfOk result (λ settled. settled ≡ self.now) }
    {
        let mut each = Vec::with_capacity(alloc, self.each.len())?;
        for history in &self.each {
            let settled = history.settled(alloc, most)?;
            each.push(settled)?;
        }
        Ok(Histories { each })
    }
}
