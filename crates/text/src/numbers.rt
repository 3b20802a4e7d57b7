// Decimal numbers.
ghost use Rattle.std.specs.Prelude.{◌≡◌, ◌≤◌, IfSome};
ghost use Rattle.text.specs.Numbers.{followed_by, number_of};

// The number that the digit `b` makes of the digits before it, which write `n`, where it is at most `most`.
fn followed_by(n: usize, b: u8, most: usize) -> Option<usize>
    ensures { result ≡ followed_by n b most }
{
    if !b.is_ascii_digit() {
        return None;
    }
    let digit = (b - b'0') as usize;
    n.checked_mul(10)?
        .checked_add(digit)
        .filter(|more| *more <= most)
}

// The number that the word writes in decimal digits, where it is at most `most`.
pub fn number(word: &[u8], most: usize) -> Option<usize>
    ensures value { result ≡ number_of word.now most }
    ensures bound { IfSome result (λ n. n ≤ most) }
{
    if word.is_empty() {
        return None;
    }
    // a loop, since no lemma leads from what `try_fold` promises to the recursion of `number_of`
    let mut n = 0;
    for b in word {
        n = followed_by(n, *b, most)?;
    }
    Some(n)
}
