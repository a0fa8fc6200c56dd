//! That every path of rows is short.

ghost use Rattle.std.specs.Prelude.{◌≡◌};
ghost use Rattle.microprogram.specs.Bounds.{IsLeast, RowsEnd, RowsAreListed, path_budget};

/// What a way to the end of a path may take: rows, the present one counted, and accesses to memory.
#[derive(Clone, Copy)]
pub struct Budget {
    pub rows: u8,
    pub accesses: u8,
}

/// The least budget within which every path comes to its end. The row that follows is always one of the listed
/// successors.
pub fn longest_path() -> Budget
    ensures value { result ≡ path_budget }
    ensures bounded { RowsEnd result }
    ensures least { IsLeast result }
    ensures listed { RowsAreListed }
{
    Budget {
        rows: 7,
        accesses: 2,
    }
}
