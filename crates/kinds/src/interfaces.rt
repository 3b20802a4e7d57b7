// What a family of kinds answers. Each trait has a ghost meaning, a function of kind and page alone; asking answers by it and changes nothing.
// Kinds are asked for by their byte and not by `Kind`, since families are open: any byte is a kind of some family.
ghost use Rattle.std.specs.Prelude.{◌≡◌, ℕ, Bool, true};
ghost use Rattle.kinds.specs.Family.{Branching, SuccessorThere, BranchLaws};
ghost use Rattle.pages.specs.Seen.{seen};

use crate::range::IndexRange;
use ir::refusal::LayoutCode;
use pages::page::OpPage;

// Which kinds end a block.
pub trait IsTerminatorInterface {
    ghost terminates: { Self → ℕ → Bool };

    fn is_terminator(&self, kind: u8) -> bool
        ensures { result ≡ terminates self.now kind };
}

// Which kinds hand operands to blocks, and how. A branch kind is a terminator: what is promised here names both meanings.
pub trait BranchOpInterface: IsTerminatorInterface {
    ghost branching: { Self → Branching };

    // what each family shows of its branches; nothing to run, a fact for whoever calls it
    fn shown_branches(&self)
        ensures { BranchLaws (Self.IsTerminatorInterface.terminates self.now) (branching self.now) };

    fn is_branch(&self, kind: u8) -> bool
        ensures value { result ≡ (branching self.now).branches kind }
        ensures ends { result ≡ true → Self.IsTerminatorInterface.terminates self.now kind ≡ true };

    // accepted, or the family's code
    fn successor_operand_layout(&self, page: &OpPage<'_>) -> Result<(), LayoutCode>
        requires { (branching self.now).branches (seen page.now).kind ≡ true }
        ensures value { result ≡ (branching self.now).layout (seen page.now) }
        ensures ends { Self.IsTerminatorInterface.terminates self.now (seen page.now).kind ≡ true };

    // the operands that go to successor s
    fn successor_operand_range(&self, page: &OpPage<'_>, s: usize) -> IndexRange
        requires { SuccessorThere (branching self.now) (seen page.now) s }
        ensures value { result ≡ (branching self.now).range (seen page.now) s }
        ensures ends { Self.IsTerminatorInterface.terminates self.now (seen page.now).kind ≡ true };
}
