// Where an operation was written, as `12:7` for line 12 and column 7, or `-` where that is not known.
ghost use Rattle.std.specs.Prelude.{◌≡◌};
ghost use Rattle.text.specs.Locations.{location_of};

use crate::marks::cut;
use crate::numbers::number;
use ir::location::{Location, SourcePosition};

const LARGEST: usize = u32::MAX as usize;

pub fn location(word: &[u8]) -> Option<Location>
    ensures { result ≡ location_of word.now }
{
    if let b"-" = word {
        return Some(Location::Unknown);
    }
    let (front, back) = cut(b':', word);
    Some(Location::SrcPos(SourcePosition {
        line: number(front, LARGEST)? as u32,
        column: number(back, LARGEST)? as u32,
    }))
}
