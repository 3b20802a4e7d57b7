// Looking through the lists of a row.
ghost use Rattle.std.specs.Prelude.{◌≡◌, nat_lt};
ghost use Rattle.model.specs.Model.{type_in};
ghost use Rattle.model.specs.Checks.{every};

use ir::value::Definition;

// the type of the value with the number `uid`, where one of `definitions` has it
pub fn find_type(definitions: &[Definition], uid: u32) -> Option<usize>
    ensures { result ≡ type_in uid definitions.now }
{
    definitions.iter().find(|d| d.val_uid == uid).map(|d| d.ty)
}

// whether each of `rows` is below n
pub fn all_below(rows: &[usize], n: usize) -> bool
    ensures { result ≡ every (λ t. nat_lt t n) rows.now }
{
    rows.iter().all(|x| *x < n)
}
