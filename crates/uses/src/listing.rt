// Counting and listing the uses of one value or block, row by row.
ghost use Rattle.std.specs.Prelude.{◌≡◌, ◌≤◌, length, take, drop, filter, IfOk};
ghost use Rattle.book.specs.Of.{model_of};
ghost use Rattle.uses.specs.Listing.{uses_of, num_uses, UsesAre, list_check, uses_listed, Filled};

use crate::place::UsePlace;
use book::book::Book;
use ir::refusal::Refusal;
use ir::value::Use;

// how many of the places use x
fn count_in<P: UsePlace>(places: &[P], x: P::Held) -> usize
    ensures { result ≡ length (filter (P.kind.test x) places.now) }
{
    // a loop, since `filter` and `count` took half as much time again
    let mut n: usize = 0;
    for p in places {
        if p.holds(x) {
            n += 1;
        }
    }
    n
}

// how many places of all operations use x
fn count<P: UsePlace>(book: &Book, x: P::Held) -> usize
    ensures { result ≡ length (uses_of P.kind (model_of book.now) x) }
{
    let rows = book.ops.rows.as_slice();
    rows.iter().map(|o| count_in(P::of(o), x)).sum()
}

// how many uses x has
pub fn num_uses<P: UsePlace>(book: &Book, x: P::Held) -> Result<usize, Refusal>
    ensures { result ≡ num_uses P.kind (model_of book.now) x }
{
    P::check(book, x)?;
    Ok(count::<P>(book, x))
}

// the uses of all operations at the front of `out`; answers how many they are
fn fill<P: UsePlace>(book: &Book, x: P::Held, out: &mut [Use<P>]) -> usize
    requires { length (uses_of P.kind (model_of book.now) x) ≤ length out.old }
    ensures end { result ≡ length (uses_of P.kind (model_of book.now) x) }
    ensures front { take result out.new ≡ uses_of P.kind (model_of book.now) x }
    ensures rest { drop result out.new ≡ drop result out.old }
{
    let rows = book.ops.rows.as_slice();
    // counted over all rows, so it is the index of neither loop; no chain, since a `for` over `filter` is not proved in a generic function
    let mut n: usize = 0;
    for (i, o) in rows.iter().enumerate() {
        let places = P::of(o);
        for p in places {
            if p.holds(x) {
                out[n] = Use::new(i, p.number());
                n += 1;
            }
        }
    }
    n
}

// the uses of x at the front of `out`, or refusal 16
fn list<P: UsePlace>(book: &Book, x: P::Held, out: &mut [Use<P>]) -> Result<usize, Refusal>
    ensures value { result ≡ list_check (uses_of P.kind (model_of book.now) x) (length out.old) }
    ensures list { Filled (uses_of P.kind (model_of book.now) x) out.old out.new result }
    ensures are { IfOk result (λ n. UsesAre P.kind (model_of book.now) x (take n out.new)) }
{
    if out.len() < count::<P>(book, x) {
        return Err(Refusal::ListTooShort);
    }
    Ok(fill::<P>(book, x, out))
}

// the uses of x at the front of `out`, by row, then place; answers how many they are
pub fn uses<P: UsePlace>(book: &Book, x: P::Held, out: &mut [Use<P>]) -> Result<usize, Refusal>
    ensures value { result ≡ uses_listed P.kind (model_of book.now) x (length out.old) }
    ensures list { Filled (uses_of P.kind (model_of book.now) x) out.old out.new result }
    ensures are { IfOk result (λ n. UsesAre P.kind (model_of book.now) x (take n out.new)) }
{
    P::check(book, x)?;
    list::<P>(book, x, out)
}
