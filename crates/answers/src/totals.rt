// The sums that stand under a day's lines, of the numbers that the day wrote.
ghost use Rattle.std.specs.Prelude.{◌≡◌, ◌*◌, ◌≤◌, ◌<◌, ◌^◌, length};
ghost use Rattle.std.specs.List.{AllByRecursion};
ghost use Rattle.methodology.specs.Text.{column_sum, totals};

// The sum of column c over the stretches of n members, each with five numbers. By an index, and not by `chunks_exact(5)`, whose invariant would
// be of the iterator's rest and not of the members: no plainer.
fn column_sum(n: usize, figures: &[u64], c: usize) -> u64
    requires c_lt_width { (c < 5) × (5 * n ≤ length figures.now) }
    requires c_bound { column_sum 5 n figures.now c < 2 ^ 64 }
    ensures { result ≡ column_sum 5 n figures.now c }
{
    let mut sum = 0;
    for m in 0..n {
        sum += figures[5 * m + c];
    }
    sum
}

// "the sums of e, share, value, reserve and estimate over that day's members", n of them. Each by its name, as they
// are listed: over the columns 0 to 4 the names would be numbers.
#[tactic(auto, unfolding(methodology::specs::Text::totals))]
pub fn day_totals(n: usize, figures: &[u64]) -> [u64; 5]
    requires n_in_bounds { 5 * n ≤ length figures.now }
    requires every { AllByRecursion (λ x. x < 2 ^ 64) (totals n figures.now) }
    ensures { result ≡ totals n figures.now }
{
    let e = column_sum(n, figures, 0);
    let share = column_sum(n, figures, 1);
    let value = column_sum(n, figures, 2);
    let reserve = column_sum(n, figures, 3);
    let estimate = column_sum(n, figures, 4);
    [e, share, value, reserve, estimate]
}
