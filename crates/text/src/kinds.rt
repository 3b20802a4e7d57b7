// Kinds of operations as they are written: `plain`, a name, or any kind by its number.
ghost use Rattle.std.specs.Prelude.{◌≡◌};
ghost use Rattle.text.specs.Kinds.{kind_of, kind_number};

use crate::numbers::number;
use ir::kind::Kind;

#[derive(Clone, Copy, PartialEq, Eq)]
pub enum KindWord {
    Plain,
    Named(Kind),
    Number(u8),
}

// The words that name a kind.
const NAMES: [(&'static [u8], KindWord); 7] = [
    (b"plain", KindWord::Plain),
    (b"yield", KindWord::Named(Kind::Yield)),
    (b"br", KindWord::Named(Kind::Br)),
    (b"cond_br", KindWord::Named(Kind::CondBr)),
    (b"if", KindWord::Named(Kind::If)),
    (b"loop", KindWord::Named(Kind::Loop)),
    (b"switch", KindWord::Named(Kind::Switch)),
];

impl KindWord {
    // The kind that the word writes.
    pub fn new(word: &[u8]) -> Option<KindWord>
        ensures { result ≡ kind_of word.now }
    {
        // a match, since the proof did not reach what the closure of an `or_else` answers
        match NAMES.iter().find(|(name, _)| word == *name) {
            Some((_, kind)) => Some(*kind),
            None => Some(KindWord::Number(number(word, 255)? as u8)),
        }
    }
}

// The number of the kind; that of `plain` is 0.
impl From<KindWord> for u8 {
    ghost from_gives = { λ kind r. r ≡ kind_number kind };

    fn from(kind: KindWord) -> u8 {
        match kind {
            KindWord::Plain => 0,
            KindWord::Named(kind) => kind.into(),
            KindWord::Number(n) => n,
        }
    }
}
