// A course that is being read.
use crate::names::Names;
use book::book::Book;

#[derive(Drop)]
pub struct Course {
    pub book: Book,
    pub names: Names,
}
