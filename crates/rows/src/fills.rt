// Lists of new numbers: what a new row is filled with. They are pushed one by one, since `extend` does not promise to succeed
// where there is room.
ghost use Rattle.std.specs.Prelude.{◌≡◌, ℕ, ◌+◌, ◌^◌, ◌<◌, ◌≤◌, length, vec_capacity};
ghost use Rattle.std.specs.List.{range_with_len};
ghost use Rattle.model.specs.Model.{numbered, definition, successor};

use ir::value::{Definition, Successor};

// What has a number of its own and is made from a row or a type.
pub trait Numbered {
    ghost numbers: { ℕ → ℕ → Self };

    fn number(n: u32, x: usize) -> Self
        ensures { result ≡ numbers n x };
}

impl Numbered for Definition {
    ghost numbers = { definition };

    fn number(n: u32, x: usize) -> Definition {
        Definition { val_uid: n, ty: x }
    }
}

impl Numbered for Successor {
    ghost numbers = { successor };

    fn number(n: u32, x: usize) -> Successor {
        Successor {
            block: x,
            use_uid: n,
        }
    }
}

// the list made anew of `from`, numbered from `first` on
#[tactic(auto, using(crate::proofs::Numbered::numbered_step))]
pub fn fill_numbered<T: Numbered + Drop>(out: &mut Vec<T>, from: &[usize], first: u32)
    requires { (first + length from.now < 2 ^ 32) × (length from.now ≤ vec_capacity out.old) }
    ensures items { out.new.items ≡ numbered T.Numbered.numbers first from.now }
    ensures cap { vec_capacity out.new ≡ vec_capacity out.old }
{
    out.clear();
    for (i, x) in from.iter().enumerate() {
        out.push_reserved(T::number(first + i as u32, *x));
    }
}

// the list made anew of the n rows from `first` on
#[tactic(auto, using(crate::proofs::Numbered::counting_more))]
pub fn fill_rows(out: &mut Vec<usize>, first: usize, n: usize)
    requires { (first + n < 2 ^ 32) × (n ≤ vec_capacity out.old) }
    ensures items { out.new.items ≡ range_with_len first n }
    ensures cap { vec_capacity out.new ≡ vec_capacity out.old }
{
    out.clear();
    for i in first..first + n {
        out.push_reserved(i);
    }
}
