//! The row of a node in the finished tree.

use std::marker::Model;

/// The number of a node's row, or none, in four bytes; contracts see it as that option.
#[derive(Clone, Copy)]
pub(crate) struct RowNumber {
    /// The number, which is at least 1, and 0 for none.
    number: u32,
}

impl Model for RowNumber {
    ghost use Rattle.std.specs.Prelude.{ℕ, Option};
    ghost use Rattle.std.proofs.Common.{ap};
    ghost use Rattle.tree.specs.RowNumber.{row_of, number_of, number_of-row_of};

    ghost Value = { Option ℕ };

    ghost view = { λ r. row_of r.number };

    ghost inverse = { λ o. record { number = number_of o } };

    ghost inverse_ok = { λ r h. ap (λ n. record { number = n }) (number_of-row_of r.number) };
}

impl RowNumber {
    ghost use Rattle.std.specs.Prelude.{◌≡◌, ◌<◌, Some, None};

    /// No row.
    pub(crate) fn none() -> RowNumber
        ensures { result ≡ None }
    {
        RowNumber { number: 0 }
    }

    /// The row with this number.
    pub(crate) fn of(number: u32) -> RowNumber
        requires { 0 < number }
        ensures { result ≡ Some number }
    {
        RowNumber { number }
    }

    /// Its number, if there is one.
    pub(crate) fn number(self) -> Option<u32>
        ensures { result ≡ self }
    {
        if self.number == 0 {
            return None;
        }
        Some(self.number)
    }
}
