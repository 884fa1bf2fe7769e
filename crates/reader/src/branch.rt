// A branch of an IF, and the two columns of a record that have it: a form and a number.
ghost use Rattle.std.specs.Prelude.{◌≡◌};
ghost use Rattle.reader.specs.Branch.{branch_columns, branch_of};

use layout::columns::{NO_BRANCH, STMTS_BRANCH, TO_BRANCH};

// What a branch holds: statements, or the number of a line.
#[derive(Clone, Copy)]
pub enum Branch {
    Stmts,
    To(u16),
}

impl Branch {
    // Its form and its number as the record has them.
    pub fn columns(self) -> (u16, u16)
        ensures { result ≡ branch_columns self }
    {
        match self {
            Branch::Stmts => (STMTS_BRANCH, 0),
            Branch::To(n) => (TO_BRANCH, n),
        }
    }

    // The branch, if there is one, whose form and number a record has.
    pub fn of_columns(form: u16, number: u16) -> Option<Branch>
        ensures { result ≡ branch_of form number }
    {
        match form {
            NO_BRANCH => None,
            TO_BRANCH => Some(Branch::To(number)),
            _ => Some(Branch::Stmts),
        }
    }
}
