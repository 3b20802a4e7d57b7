// The places of an operation that use something: operands use values, successors use blocks.
ghost use Rattle.std.specs.Prelude.{◌≡◌, ℕ, ◌≤◌, length, Some, Decides};
ghost use Rattle.std.specs.List.{slice_get};
ghost use Rattle.ir.specs.Limits.{limits};
ghost use Rattle.model.specs.Model.{OpM, BookM};
ghost use Rattle.model.specs.Sound.{Sound, Few};
ghost use Rattle.rows.specs.Of.{op_model};
ghost use Rattle.book.specs.Of.{model_of};
ghost use Rattle.uses.specs.Places.{PlaceKind};

use crate::error::UseError;
use book::book::Book;
use ir::refusal::Refusal;
use rows::operation::Operation;

pub trait UsePlace: Copy {
    // what a place uses
    type Held: Copy;

    // what the functions below answer
    ghost kind: { PlaceKind Self Self.Held };

    // the places of an operation
    fn of(o: &Operation) -> &[Self]
        ensures { result.now ≡ kind.places (op_model o.now) };

    // the number of its use
    fn number(&self) -> u32
        ensures { result ≡ kind.uid self.now };

    // what it uses
    fn used(&self) -> Self::Held
        ensures { result ≡ kind.held self.now };

    // whether it uses x
    fn holds(&self, x: Self::Held) -> bool
        ensures { result ≡ kind.test x self.now };

    // refuses an x that is not there to be used
    fn check(book: &Book, x: Self::Held) -> Result<(), Refusal>
        ensures { result ≡ kind.check (model_of book.now) x };

    // no place of an operation is the use
    fn lost() -> UseError
        ensures { result ≡ kind.lost };

    ghost decides: { (x : Self.Held) (p : Self) → Decides (kind.test x p) (kind.held p ≡ x) };

    // an operation has no more of them than it may have operands
    ghost few: { (o : OpM) → Few limits o.body → length (kind.places o) ≤ limits.operands };

    // no two of them are one use
    ghost once: { (m : BookM) (i j k l : ℕ) (o p : OpM) (x y : Self) → Sound limits m → slice_get m.ops i ≡ Some o → slice_get m.ops j ≡ Some p → slice_get (kind.places o) k ≡ Some x → slice_get (kind.places p) l ≡ Some y → kind.uid x ≡ kind.uid y → (i ≡ j) × (k ≡ l) };
}
