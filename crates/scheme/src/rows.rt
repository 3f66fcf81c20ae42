// The rows of the partition tables (document 01, "The thirteen schemes", and document 02, C-11 and C-14): by partition value, and by the
// digits of a company prefix.
// Why 24 and 20: a company prefix has the fewest bits that hold its digits, and prefix and reference have one sum in each table: 7 digits
// take 24 bits, since 10^7 lies between 2^23 and 2^24, and leave 20 of table A's 44. Proved: `partition_tables` (rules/proofs/Tables).
ghost use Rattle.std.specs.Prelude.{◌≡◌, ◌≤◌, ◌<◌};
ghost use Rattle.rules.specs.Schemes.{partition, row_at, exact as isExact, asset_bits};
ghost use Rattle.scheme.specs.Rows.{prefix_of, reference_of, SumIn};

use rules::Table;

// A cell of a row: bits and digits.
#[derive(Clone, Copy)]
pub struct Cell {
    pub bits: usize,
    pub digits: usize,
}

// The partition value of a company prefix.
#[tactic(auto, using(crate::proofs::Sums::digits_pick))]
pub fn by_digits(digits: usize) -> usize
    requires { (6 ≤ digits) × (digits ≤ 12) }
    ensures { result ≡ partition digits }
{
    12 - digits
}

// The company prefix of a row. A digit is worth log2 10 = 3.32 bits; 53 / 16 = 3.31 a digit, rounded up, gives the fewest for 6 to 12 digits.
#[tactic(auto, using(crate::proofs::Sums::rounded))]
pub fn prefix(p: usize) -> Cell
    requires { p < 7 }
    ensures { result ≡ prefix_of (row_at p) }
{
    let digits = 12 - p;
    Cell {
        bits: (53 * digits + 15) / 16,
        digits,
    }
}

// The bits and the digits that prefix and reference have together: their sum is the same in every row of a table.
#[tactic(auto, using(crate::proofs::Sums::sums))]
fn sum_of(t: Table) -> Cell
    ensures { SumIn t result }
{
    let (bits, digits) = match t {
        Table::A => (44, 13),
        Table::B => (58, 17),
        Table::C => (44, 12),
        Table::D => (41, 12),
        Table::Cpi => (51, 15),
    };
    Cell { bits, digits }
}

// The reference of a row in one of the tables A to D, or in cpi-96's own.
#[tactic(auto, using(crate::proofs::Sums::reference_left))]
pub fn reference(t: Table, p: usize) -> Cell
    requires { p < 7 }
    ensures { result ≡ reference_of t (row_at p) }
{
    let whole = sum_of(t);
    let company = prefix(p);
    Cell {
        bits: whole.bits - company.bits,
        digits: whole.digits - company.digits,
    }
}

// Whether the references of a table have exactly the row's digits; cpi-96's are integers of at most so many.
pub fn exact(t: Table) -> bool
    ensures { result ≡ isExact t }
{
    !matches!(t, Table::Cpi)
}

// The bits of a row's reference in table E.
#[tactic(auto, using(crate::proofs::Sums::asset_sum, rules::proofs::Rows::narrow_row))]
pub fn asset(p: usize) -> usize
    requires { p < 7 }
    ensures { result ≡ asset_bits (row_at p) }
{
    82 - prefix(p).bits
}
