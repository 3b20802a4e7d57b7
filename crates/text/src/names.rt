// Names of operations and blocks.
ghost use Rattle.std.specs.Prelude.{◌≡◌, ◌≤◌, true, length, Some};
ghost use Rattle.text.specs.Names.{in_name, is_name, name_of, padded};

use std::marker::Model;
use std::{fmt, str};

pub const LONGEST_NAME: usize = 32;

// Whether this byte may stand in a name.
pub fn is_in_name(b: u8) -> bool
    ensures { result ≡ in_name b }
{
    b.is_ascii_alphanumeric() || b == b'_'
}

pub fn is_name(word: &[u8]) -> bool
    ensures { result ≡ is_name word.now }
{
    word.len() <= LONGEST_NAME
        && word.first().is_some_and(|b| !b.is_ascii_digit())
        && word.iter().all(|&b| is_in_name(b))
}

// The word and zeros after it.
fn padded(word: &[u8]) -> [u8; LONGEST_NAME]
    requires { length word.now ≤ 32 }
    ensures { result ≡ padded word.now }
{
    let mut bytes = [0; LONGEST_NAME];
    bytes[..word.len()].copy_from_slice(word);
    bytes
}

// A name of its own, which outlives the line that it stood in. A fixed buffer, since it is handed on in errors, where nothing may be
// allocated.
#[derive(Clone, Copy, PartialEq, Eq)]
pub struct Name {
    bytes: [u8; LONGEST_NAME],
    size: usize,
}

// A name is its text.
impl Model for Name {
    ghost use Rattle.std.specs.Prelude.{ℕ, List, length, take};
    ghost use Rattle.std.proofs.Common.{sym, arith, length-take-le};
    ghost use Rattle.text.specs.Names.{Holds, padded};

    ghost Value = { List ℕ };

    ghost view = { λ n. take n.size n.bytes };

    ghost invariant = { λ n. Holds n.bytes n.size };

    ghost inverse = { λ t. record { bytes = padded t; size = length t } };

    ghost inverse_ok = { λ n h i. record {
      bytes = sym h.zeros i;
      size = length-take-le n.size n.bytes (omega (arith, h.fits, h.whole)) i;
    } };
}

impl Name {
    pub fn new(word: &[u8]) -> Option<Name>
        ensures { result ≡ name_of word.now }
    {
        if !is_name(word) {
            return None;
        }
        Some(Name {
            bytes: padded(word),
            size: word.len(),
        })
    }

    pub fn text(&self) -> &[u8]
        ensures value { result.now ≡ self.now }
        ensures named { is_name result.now ≡ true }
    {
        &self.bytes[..self.size]
    }

    // The same as a `str`, since each byte of a name is below 128.
    pub fn as_str(&self) -> &str
        ensures { result.now ≡ self.now }
    {
        let Ok(text) = str::from_utf8(self.text()) else {
            unreachable!();
        };
        text
    }
}

impl fmt::Display for Name {
    ghost output = { λ name. Some name };

    fn fmt<W: fmt::Write>(&self, f: &mut fmt::Formatter<W>) -> fmt::Result {
        f.write_str(self.as_str())
    }
}
