// The operand places of a new operation.
ghost use Rattle.std.specs.Prelude.{◌≡◌, ◌+◌, ◌≤◌, length};
ghost use Rattle.ir.specs.Limits.{limits};
ghost use Rattle.model.specs.Model.{numbered};
ghost use Rattle.book.specs.Of.{model_of};
ghost use Rattle.creating.specs.Places.{typed_place};

use book::book::Book;
use ir::value::{Operand, Value};

// a use of each value, numbered on from the book's last; the values were found before
pub fn fill_places(book: &Book, values: &[Value], out: &mut [Operand])
    requires { (length values.now ≡ length out.old) × (length values.now ≤ limits.operands) }
    ensures { out.new ≡ numbered (typed_place (model_of book.now)) (model_of book.now).uses values.now }
{
    for (i, v) in values.iter().enumerate() {
        out[i] = Operand {
            value: *v,
            use_uid: book.next_use + i as u32,
            ty: book.type_of(*v).unwrap_or(0),
        };
    }
}
