// A line that is read word by word. The methods stand in reading.rt.
ghost use Rattle.std.specs.Prelude.{◌≤◌, length};

use crate::words::Span;

// A word of a line, and where it stands.
#[derive(Clone, Copy)]
pub struct Word<'a> {
    pub text: &'a [u8],
    pub span: Span,
}

// The words of a line that are left from `at` on.
#[derive(Clone, Copy)]
pub struct Words<'a> {
    pub(crate) line: &'a [u8],
    pub(crate) at: usize,
    ghost within: { at ≤ length line.now },
}
