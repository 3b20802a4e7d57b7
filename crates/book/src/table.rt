// A table of a book: its rows in use, in the order of their making, and a pool of spare ones.
ghost use Rattle.std.specs.Prelude.{◌≡◌, ◌+◌, ◌<◌, ◌≤◌, ◌++◌, [], ◌∷◌, IfOk, vec_items, vec_len, vec_capacity};

use rows::spares::Spare;
use std::alloc::{AllocError, Global};

// `room`: there is memory for all the rows in one place. `all`: those in use and the spare ones are all the rows.
#[derive(Drop)]
pub struct Table<T, const MAX: usize> {
    pub rows: Vec<T>,
    pub spares: Vec<T>,
    ghost room: { MAX ≤ vec_capacity rows },
    ghost all: { vec_len rows + vec_len spares ≡ MAX },
}

impl<T: Spare + Drop, const MAX: usize> Table<T, MAX> {
    // no row in use, and all of them spare: a loop, since `try_collect` does not promise to ask for no more memory than this
    pub fn new(heap: Global) -> Result<Table<T, MAX>, AllocError>
        ensures { IfOk result (λ t. vec_items t.rows ≡ []) }
    {
        let rows = Vec::with_capacity(heap, MAX)?;
        let mut spares = Vec::with_capacity(heap, MAX)?;
        for _i in 0..MAX {
            spares.push_reserved(T::spare(heap)?);
        }
        Ok(Table { rows, spares })
    }
}

impl<T, const MAX: usize> Table<T, MAX> {
    // a spare row taken into use, with what it holds; answers its number
    pub fn add(&mut self) -> usize
        requires { vec_len self.old.rows < MAX }
        ensures at { result ≡ vec_len self.old.rows }
        ensures len { vec_len self.new.rows ≡ vec_len self.old.rows + 1 }
        ensures rows { (row : T) × (vec_items self.new.rows ≡ vec_items self.old.rows ++ row ∷ []) }
    {
        let at = self.rows.len();
        self.rows.push_reserved(self.spares.take_last());
        at
    }
}
