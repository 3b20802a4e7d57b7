// The names of a course: each stands for the operation or the block that a line made under it.
ghost use Rattle.std.specs.Prelude.{◌≡◌, ◌<◌, [], ◌∷◌, ◌++◌, vec_len, vec_capacity, OnOk};
ghost use Rattle.session.specs.Names.{row_named};

use ir::value::DefiningEntity;
use std::alloc::{AllocError, Global};
use text::names::Name;

#[derive(Clone, Copy)]
pub struct Entry {
    pub name: Name,
    pub row: DefiningEntity,
}

// In the order of making, in which they are shown. A list and no index map, which has one entry for a name, where `add` promises one more.
#[derive(Drop)]
pub struct Names {
    entries: Vec<Entry>,
}

impl Names {
    pub fn new(heap: Global) -> Names
        ensures { result.entries.items ≡ [] }
    {
        Names {
            entries: Vec::new(heap),
        }
    }

    pub fn entries(&self) -> &[Entry]
        ensures { result.now ≡ self.now.entries.items }
    {
        self.entries.as_slice()
    }

    // what the name stands for, if anything
    pub fn find(&self, name: &Name) -> Option<DefiningEntity>
        ensures { result ≡ row_named name.now self.now.entries.items }
    {
        // by their texts and not by `==` on names, which compares the whole buffer
        self.entries
            .iter()
            .find(|e| e.name.text() == name.text())
            .map(|e| e.row)
    }

    // memory for one name more
    pub fn reserve(&mut self) -> Result<(), AllocError>
        ensures same { self.new.entries.items ≡ self.old.entries.items }
        ensures room { OnOk result (vec_len self.new.entries < vec_capacity self.new.entries) }
    {
        self.entries.reserve(1)
    }

    // one name more, for which memory was reserved
    pub fn add(&mut self, name: Name, row: DefiningEntity)
        requires { vec_len self.old.entries < vec_capacity self.old.entries }
        ensures { self.new.entries.items ≡ self.old.entries.items ++ record { name = name; row = row } ∷ [] }
    {
        self.entries.push_reserved(Entry { name, row });
    }
}
