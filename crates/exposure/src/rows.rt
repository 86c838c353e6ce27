// Rows of EULs by scenario: one added to that of its group, and the greatest of them.
ghost use Rattle.std.specs.Prelude.{◌≡◌, ◌≤◌, length};
ghost use Rattle.numbers.specs.Signed.{◌⁺};
ghost use Rattle.numbers.specs.Sums.{greatest};
ghost use Rattle.exposure.specs.GroupRows.{Near, Shape, Summable, plus, with_row};

use crate::account::gain;

// The sum of two rows, scenario by scenario.
fn added(a: [i64; 16], b: [i64; 16]) -> [i64; 16]
    requires { Summable a b }
    ensures { result ≡ plus a b }
{
    let mut sums = a;
    // By an index into b: nothing is known of what is written through a zip.
    for (j, sum) in sums.iter_mut().enumerate() {
        *sum += b[j];
    }
    sums
}

// A member's row added to that of its group. Document 01 has the number 0 for none.
pub fn add_row(rows: &mut [[i64; 16]; 32], group: u64, row: [i64; 16])
    requires { Shape rows.old × (group ≤ 32) × (length row ≡ 16) × Near row }
    ensures { rows.new ≡ with_row rows.old group row }
{
    if group == 0 {
        return;
    }
    let g = (group - 1) as usize;
    let old = rows[g];
    rows[g] = added(old, row);
}

// The greatest of 0 and a row's numbers.
pub fn row_greatest(row: [i64; 16]) -> u64
    requires { length row ≡ 16 }
    ensures { result ≡ greatest row (λ z. z ⁺) }
{
    let mut most: u64 = 0;
    for x in row {
        most = most.max(gain(x));
    }
    most
}

// The greatest of 0 and the numbers of all rows. Two loops of one form: a closure in common would need a contract of its own.
pub fn rows_greatest(rows: [[i64; 16]; 32]) -> u64
    requires { Shape rows }
    ensures { result ≡ greatest rows (λ row. greatest row (λ z. z ⁺)) }
{
    let mut most: u64 = 0;
    for row in rows {
        most = most.max(row_greatest(row));
    }
    most
}
