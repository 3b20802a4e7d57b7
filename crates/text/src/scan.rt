// How far a test holds.
ghost use Rattle.std.specs.Prelude.{ℕ, ◌<◌, ◌≤◌, true, false, length, slice_index};

// How many bytes from the first on pass the test.
pub(crate) fn run<F: Fn(u8) -> bool>(bytes: &[u8], passes: F) -> usize
    requires { F.IsAlwaysCallable passes }
    ensures within { result ≤ length bytes.now }
    ensures all { (k : ℕ) → k < result → F.post passes (slice_index bytes.now k) true }
    ensures stops { result < length bytes.now → F.post passes (slice_index bytes.now result) false }
{
    bytes
        .iter()
        .position(|&b| !passes(b))
        .unwrap_or(bytes.len())
}
