// One use: the place of its operation that has its number.
ghost use Rattle.std.specs.Prelude.{◌≡◌};
ghost use Rattle.book.specs.Of.{model_of};
ghost use Rattle.uses.specs.Find.{find_in, use_place, used_place, use_index, try_use_index, use_def, use_type};

use crate::error::UseError;
use crate::place::UsePlace;
use book::book::Book;
use ir::refusal::Refusal;
use ir::value::{Operand, Use};

pub fn get_user_op<P: UsePlace>(u: Use<P>) -> usize
    ensures { result ≡ u.user_op }
{
    u.user_op
}

// the first of the places that has the number n, with its index
fn find<P: UsePlace>(places: &[P], n: u32) -> Option<(usize, P)>
    ensures { result ≡ find_in P.kind.uid n places.now }
{
    // a loop, since `find` among pairs took a fifth more instructions
    for (k, p) in places.iter().enumerate() {
        if p.number() == n {
            return Some((k, *p));
        }
    }
    None
}

// the place that is the use, with its index, where there is one; or refusal 1
fn find_place<P: UsePlace>(book: &Book, u: Use<P>) -> Result<Option<(usize, P)>, Refusal>
    ensures { result ≡ use_place P.kind (model_of book.now) u }
{
    let o = book.op(get_user_op(u))?;
    Ok(find(P::of(o), u.use_uid))
}

// the same, or else refusal 10
fn place_of<P: UsePlace>(book: &Book, u: Use<P>) -> Result<(usize, P), Refusal>
    ensures { result ≡ used_place P.kind (model_of book.now) u }
{
    find_place(book, u)?.ok_or(Refusal::OutOfRange)
}

// the index among the operation's places of this kind, or that none of them is the use
pub fn try_find_index<P: UsePlace>(
    book: &Book,
    u: Use<P>,
) -> Result<Result<usize, UseError>, Refusal>
    ensures { result ≡ try_use_index P.kind (model_of book.now) u }
{
    let place = find_place(book, u)?;
    Ok(place.map(|(k, _)| k).ok_or(P::lost()))
}

// the index among them, or refusal 10 where none of them is the use
pub fn find_index<P: UsePlace>(book: &Book, u: Use<P>) -> Result<usize, Refusal>
    ensures { result ≡ use_index P.kind (model_of book.now) u }
{
    let (k, _) = place_of(book, u)?;
    Ok(k)
}

// the value or block that is used
pub fn get_def<P: UsePlace>(book: &Book, u: Use<P>) -> Result<P::Held, Refusal>
    ensures { result ≡ use_def P.kind (model_of book.now) u }
{
    let (_, p) = place_of(book, u)?;
    Ok(p.used())
}

// the type of the value that is used
pub fn get_type(book: &Book, u: Use<Operand>) -> Result<usize, Refusal>
    ensures { result ≡ use_type (model_of book.now) u }
{
    let (_, x) = place_of(book, u)?;
    Ok(x.ty)
}
