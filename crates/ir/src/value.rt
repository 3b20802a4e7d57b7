// Values and their uses. Rows are numbered from 0 in the order of their making; values and uses have numbers of their own,
// each counted from 0 through the whole book and never given twice.
ghost use Rattle.std.specs.Prelude.{◌≡◌, Decides};
ghost use Rattle.ir.specs.Uses.{use_in};
ghost use Rattle.ir.specs.Values.{same_entity, same_value};

use std::marker::PhantomData;

// The row that defines a value: an operation, as its result, or a block, as its argument.
#[derive(Clone, Copy, PartialEq, Eq)]
pub enum DefiningEntity {
    Op(usize),
    Block(usize),
}

// A value: its number, and the row that defines it.
#[derive(Clone, Copy, PartialEq, Eq)]
pub struct Value {
    pub val_uid: u32,
    pub defining_entity: DefiningEntity,
}

// A value as its row holds it: its number and its type, a handle into the book's type list.
#[derive(Clone, Copy, PartialEq, Eq)]
pub struct Definition {
    pub val_uid: u32,
    pub ty: usize,
}

// An operand place: the value that it holds, the number of this use, and the value's type.
#[derive(Clone, Copy, PartialEq, Eq)]
pub struct Operand {
    pub value: Value,
    pub use_uid: u32,
    pub ty: usize,
}

// A successor place: the block that it names, and the number of this use.
#[derive(Clone, Copy, PartialEq, Eq)]
pub struct Successor {
    pub block: usize,
    pub use_uid: u32,
}

// A use: the operation, and the number of the use among its places of type P. Operand places use values, and successor places use blocks.
#[derive(Clone, Copy, PartialEq, Eq)]
pub struct Use<P> {
    pub user_op: usize,
    pub use_uid: u32,
    pub _place: PhantomData<P>,
}

impl<P> Use<P> {
    // the use with this number, in this operation
    pub fn new(user_op: usize, use_uid: u32) -> Use<P>
        ensures { result ≡ use_in user_op use_uid }
    {
        Use {
            user_op,
            use_uid,
            _place: PhantomData,
        }
    }
}

// What pushing an operand answers: the place where it stands now, and the use that was made.
#[derive(Clone, Copy, PartialEq, Eq)]
pub struct Pushed {
    pub index: usize,
    pub made: Use<Operand>,
}

impl DefiningEntity {
    // whether the two are one row
    pub fn same(self, other: DefiningEntity) -> bool
        ensures value { result ≡ same_entity self other }
        ensures decides { Decides result (self ≡ other) }
    {
        self == other
    }
}

impl Value {
    // whether the two are one value
    pub fn same(self, other: Value) -> bool
        ensures value { result ≡ same_value self other }
        ensures decides { Decides result (self ≡ other) }
    {
        self.val_uid == other.val_uid && self.defining_entity.same(other.defining_entity)
    }
}
