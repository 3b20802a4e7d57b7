// The branches of the family: br has one successor, which gets all its operands.
ghost use Rattle.std.specs.Prelude.{◌≡◌};
ghost use Rattle.pages.specs.Seen.{seen};
ghost use Rattle.timing.specs.Timing.{terminates_in, branches_in, br_layout};

use crate::family::{LayoutFault, Timing};
use ir::kind::Kind;
use ir::refusal::LayoutCode;
use kinds::interfaces::{BranchOpInterface, IsTerminatorInterface};
use kinds::range::IndexRange;
use pages::page::OpPage;

// a kind comes as its byte, since families are open
impl IsTerminatorInterface for Timing {
    ghost terminates = { λ _. terminates_in };

    fn is_terminator(&self, kind: u8) -> bool {
        matches!(
            Kind::try_from(kind),
            Ok(Kind::Yield | Kind::Br | Kind::CondBr)
        )
    }
}

impl BranchOpInterface for Timing {
    ghost branching = { λ _. branches_in };

    fn shown_branches(&self) {}

    fn is_branch(&self, kind: u8) -> bool {
        matches!(Kind::try_from(kind), Ok(Kind::Br))
    }

    fn successor_operand_layout(&self, page: &OpPage<'_>) -> Result<(), LayoutCode> {
        if page.num_successors() != 1 {
            return Err(LayoutFault::WrongCount.into());
        }
        Ok(())
    }

    fn successor_operand_range(&self, page: &OpPage<'_>, _s: usize) -> IndexRange {
        IndexRange {
            start: 0,
            end: page.operands().len(),
        }
    }
}
