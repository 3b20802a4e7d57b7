// What the rows of every book say of where they stand: nothing to run, a fact for the calls that read it.
ghost use Rattle.book.specs.Of.{model_of};
ghost use Rattle.reads.specs.Parents.{Standing};

use book::book::Book;

pub fn standing(book: &Book)
    ensures { Standing (model_of book.now) }
{}
