// A place of a list, which may not be there.
ghost use Rattle.std.specs.Prelude.{◌≡◌};
ghost use Rattle.std.specs.List.{slice_get};
ghost use Rattle.model.specs.Checks.{place};

use ir::refusal::Refusal;

// what stands at the place k
pub fn item<T: Copy>(xs: &[T], k: usize) -> Option<T>
    ensures { result ≡ slice_get xs.now k }
{
    xs.get(k).copied()
}

// what stands at the place k, or refusal 10
pub fn read_place<T: Copy>(xs: &[T], k: usize) -> Result<T, Refusal>
    ensures { result ≡ place xs.now k }
{
    item(xs, k).ok_or(Refusal::OutOfRange)
}
