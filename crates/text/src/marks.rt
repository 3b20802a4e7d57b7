// Words of two parts with a mark between them, as `start.0` and `12:7`.
ghost use Rattle.std.specs.Prelude.{◌≡◌};
ghost use Rattle.text.specs.Marks.{before, after};

use crate::scan::run;

// The bytes before the first `mark`, and those after it; the whole word and none where there is no mark.
pub fn cut(mark: u8, word: &[u8]) -> (&[u8], &[u8])
    ensures front { result.0.now ≡ before mark word.now }
    ensures back { result.1.now ≡ after mark word.now }
{
    let at = run(word, |b| b != mark);
    if at < word.len() {
        (&word[..at], &word[at + 1..])
    } else {
        (word, &[])
    }
}
