// What a call answers, as this program prints it.
use ir::refusal::Refusal;
use std::fmt;

// Granted, or why not.
#[derive(Clone, Copy)]
pub struct Answer(Option<Refusal>);

impl Answer {
    pub fn is_granted(self) -> bool {
        self.0.is_none()
    }
}

impl<T: Drop> From<Result<T, Refusal>> for Answer {
    fn from(told: Result<T, Refusal>) -> Answer {
        Answer(told.err())
    }
}

// 0, or the number of the refusal.
impl fmt::Display for Answer {
    fn fmt<W: fmt::Write>(&self, f: &mut fmt::Formatter<W>) -> fmt::Result {
        write!(f, "{}", self.0.map_or(0, |refusal| refusal.number()))
    }
}
