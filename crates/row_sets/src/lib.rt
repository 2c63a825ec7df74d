// The set of rows taken: row r is bit r - 1.
#![tactic(auto)]

ghost use Rattle.std.specs.Prelude.{◌≡◌, ◌+◌, ◌-◌, ◌≤◌};
ghost use Rattle.model.specs.Rows.{taken, with_row, taken_of};

// Whether a row is in the set.
pub fn is_taken(rows: u16, r: usize) -> bool
    requires { (1 ≤ r) × (r ≤ 11) }
    ensures { result ≡ taken rows r }
{
    (rows >> (r - 1)) % 2 == 1
}

// The set with a row.
pub fn with_row(rows: u16, r: usize) -> u16
    requires { (1 ≤ r) × (r ≤ 11) }
    ensures { result ≡ with_row rows r }
{
    if is_taken(rows, r) {
        return rows;
    }
    rows + (1u16 << (r - 1))
}

// How many rows have been taken, counted from the set itself.
pub fn count(rows: u16) -> u32
    ensures { result ≡ taken_of rows }
{
    u16::count_ones(rows)
}
