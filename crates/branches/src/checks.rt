// The operands that go to one successor against the arguments of its block.
ghost use Rattle.std.specs.Prelude.{◌≡◌, ◌≤◌, length};
ghost use Rattle.std.specs.List.{between};
ghost use Rattle.branches.specs.Branch.{types_check, part_check};

use ir::value::{Definition, Operand};
use kinds::fault::Fault;
use kinds::range::IndexRange;

// each type in order
fn check_types(part: &[Operand], args: &[Definition]) -> Result<(), Fault>
    requires { length part.now ≡ length args.now }
    ensures { result ≡ types_check 0 part.now args.now }
{
    // by the index, since pairs of a `zip` took a fifth more time
    for (j, d) in args.iter().enumerate() {
        let x = &part[j];
        if x.ty != d.ty {
            return Err(Fault::SuccessorOperandTypeMismatch(j, x.ty, d.ty));
        }
    }
    Ok(())
}

// the count, then each type
pub fn check_part(operands: &[Operand], range: IndexRange, args: &[Definition]) -> Result<(), Fault>
    requires rises { range.start ≤ range.end }
    requires within { range.end ≤ length operands.now }
    ensures { result ≡ part_check (between range.start range.end operands.now) args.now }
{
    let part = &operands[range.start..range.end];
    if part.len() != args.len() {
        return Err(Fault::SuccessorOperandsMismatch(part.len(), args.len()));
    }
    check_types(part, args)
}
