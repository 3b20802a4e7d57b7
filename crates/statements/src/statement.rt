// What a line can say.
use ir::location::Location;
use reading::target::Target;
use text::indexed::Indexed;
use text::kinds::KindWord;
use text::names::Name;

#[derive(Drop)]
pub enum Statement {
    Types(TypesLine),
    Block(BlockLine),
    Op(OpLine),
    Place(PlaceLine),
}

// types ID ..: the ids of the type handles 0, 1, ..
#[derive(Drop)]
pub struct TypesLine {
    pub ids: Vec<u16>,
}

// block NAME T ..: a block with arguments of these type handles.
#[derive(Drop)]
pub struct BlockLine {
    pub name: Name,
    pub arguments: Vec<usize>,
}

// op NAME KIND at L results T .. operands V .. successors B .. regions N: an operation. The results are type handles.
#[derive(Drop)]
pub struct OpLine {
    pub name: Name,
    pub kind: KindWord,
    pub location: Option<Location>,
    pub results: Vec<usize>,
    pub operands: Vec<Indexed>,
    pub successors: Vec<Name>,
    pub regions: usize,
}

// place NAME in TARGET: an operation last in a block, or a block last in a region.
#[derive(Clone, Copy)]
pub struct PlaceLine {
    pub name: Name,
    pub target: Target,
}
