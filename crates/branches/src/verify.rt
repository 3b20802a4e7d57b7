// Branch verification over any family: the layout, then each successor in order.
ghost use Rattle.std.specs.Prelude.{◌≡◌, true, Ok, Decides};
ghost use Rattle.book.specs.Of.{model_of};
ghost use Rattle.kinds.specs.Family.{Accepted as LayoutAccepted, SuccessorThere};
ghost use Rattle.kinds.specs.Verdict.{accepted};
ghost use Rattle.pages.specs.Seen.{seen};
ghost use Rattle.branches.specs.Branch.{successors_check, successor_check, branch_check};
ghost use Rattle.branches.specs.Verdicts.{judged, branch_verdict_of, verify_branch_of, verdict_of, EveryAccepted, FeedsBlocks};

use crate::checks::check_part;
use book::book::Book;
use ir::location::Location;
use ir::refusal::Refusal;
use kinds::fault::{Fault, Rejection, Verdict};
use kinds::interfaces::BranchOpInterface;
use pages::page::OpPage;

fn check_successor<F: BranchOpInterface>(fam: &F, page: &OpPage<'_>, s: usize) -> Result<(), Fault>
    requires { SuccessorThere (F.BranchOpInterface.branching fam.now) (seen page.now) s }
    ensures { result ≡ successor_check (F.BranchOpInterface.branching fam.now) (seen page.now) s }
{
    fam.shown_branches();
    let range = fam.successor_operand_range(page, s);
    check_part(page.operands(), range, page.successor_args(s))
}

#[tactic(auto, using(kinds::proofs::Firsts::first_stops, kinds::proofs::Firsts::first_more))]
fn check_successors<F: BranchOpInterface>(fam: &F, page: &OpPage<'_>) -> Result<(), Fault>
    requires { LayoutAccepted (F.BranchOpInterface.branching fam.now) (seen page.now) }
    ensures { result ≡ successors_check (F.BranchOpInterface.branching fam.now) (seen page.now) }
{
    for s in 0..page.num_successors() {
        check_successor(fam, page, s)?;
    }
    Ok(())
}

// the first fault of a branch, if it has one
fn check_branch<F: BranchOpInterface>(fam: &F, page: &OpPage<'_>) -> Result<(), Fault>
    requires { (F.BranchOpInterface.branching fam.now).branches (seen page.now).kind ≡ true }
    ensures { result ≡ branch_check (F.BranchOpInterface.branching fam.now) (seen page.now) }
{
    fam.successor_operand_layout(page).map_err(Fault::Layout)?;
    check_successors(fam, page)
}

// a fault is told with the operation and its location
fn judge(op: usize, location: Location, checked: Result<(), Fault>) -> Verdict
    ensures { result ≡ judged op location checked }
{
    checked.map_err(|fault| Rejection {
        op,
        location,
        fault,
    })
}

// the verdict of the branch check, where the operation's kind is a branch: 1
fn branch_verdict<F: BranchOpInterface>(
    fam: &F,
    book: &Book,
    op: usize,
) -> Result<Option<Verdict>, Refusal>
    ensures { result ≡ branch_verdict_of (F.BranchOpInterface.branching fam.now) (model_of book.now) op }
{
    let row = book.op(op)?;
    let page = OpPage::of(book, op)?;
    if !fam.is_branch(page.kind()) {
        return Ok(None);
    }
    Ok(Some(judge(op, row.location, check_branch(fam, &page))))
}

// what the branch check says of the operation: 1, 6. Where it accepts, the blocks get what their arguments ask for
pub fn verify_branch<F: BranchOpInterface>(
    fam: &F,
    book: &Book,
    op: usize,
) -> Result<Verdict, Refusal>
    ensures value { result ≡ verify_branch_of (F.BranchOpInterface.branching fam.now) (model_of book.now) op }
    ensures feeds { result ≡ Ok accepted → FeedsBlocks (F.BranchOpInterface.branching fam.now) (model_of book.now) op }
{
    book.sound();
    fam.shown_branches();
    branch_verdict(fam, book, op)?.ok_or(Refusal::NoInterface)
}

// what verification says of the operation, by the checks that its kind has: 1
pub fn verify_operation<F: BranchOpInterface>(
    fam: &F,
    book: &Book,
    op: usize,
) -> Result<Verdict, Refusal>
    ensures { result ≡ verdict_of (F.BranchOpInterface.branching fam.now) (model_of book.now) op }
{
    Ok(branch_verdict(fam, book, op)?.unwrap_or(Ok(())))
}

// whether every operation is accepted
pub fn all_accepted<F: BranchOpInterface>(fam: &F, book: &Book) -> bool
    ensures { Decides result (EveryAccepted (F.BranchOpInterface.branching fam.now) (model_of book.now)) }
{
    (0..book.num_ops()).all(|op| matches!(verify_operation(fam, book, op), Ok(Ok(()))))
}
