// The least of a few results, with its first place.
ghost use Rattle.std.specs.Prelude.{◌≡◌, ℕ, ◌+◌, ◌-◌, ◌<◌, ◌≤◌, length, get_or, pos, int_le, slice_index_or, unsigned_abs};
ghost use Rattle.std.specs.Int.{int_min};
ghost use Rattle.margin.specs.Sums.{least as least_of, least3};

use order::least;

// The least of three, and the first of the places 0, 1, 2 where it stands.
pub fn least_of_three(a: i128, b: i128, c: i128) -> (i128, usize)
    ensures value { result ≡ least3 a b c }
    ensures size { (n : ℕ) → unsigned_abs a ≤ n → unsigned_abs b ≤ n → unsigned_abs c ≤ n → unsigned_abs result.0 ≤ n }
    ensures place { result.1 ≤ 2 }
{
    least(&[a, b, c]).unwrap_or((a, 0))
}

// The least of 0 and two results; its place is 0 where neither is below 0, and else 1 or 2. The place stays a number, as the
// definition answers it; `column_at` turns it into an Option.
pub(crate) fn least_with_0(first: i128, second: i128) -> (i128, usize)
    ensures { result ≡ least3 (pos 0) first second }
{
    least_of_three(0, first, second)
}

// The least of the results that stand in a list from base + start to base + end, and its first place, counted from the base.
// The base serves callers that keep several rows in one list. Order and room are asked for: of an empty stretch, or of one past
// the list's end, the definition still names a result, and to answer it would take a branch and a proof of its own.
pub fn least_between(results: &[i128], base: usize, start: usize, end: usize) -> (i128, usize)
    requires ordered { start ≤ end }
    requires within { base + end < length results.now }
    ensures value { result ≡ least_of int_le (λ q. get_or results.now (base + q) (pos 0)) start (end - start) }
    ensures size { (n : ℕ) → ((i : ℕ) → unsigned_abs (slice_index_or results.now i (pos 0)) ≤ n) → unsigned_abs result.0 ≤ n }
{
    let (result, place) = least(&results[base + start..base + end + 1]).unwrap_or((0, 0));
    (result, start + place)
}

// The lesser of 0 and a result.
pub fn lesser_of_0(res: i128) -> i128
    ensures value { result ≡ int_min (pos 0) res }
    ensures size { unsigned_abs result ≤ unsigned_abs res }
{
    res.min(0)
}
