// Products of two numbers of known sizes.
ghost use Rattle.std.specs.Prelude.{◌≡◌, ◌*◌, ◌^◌, ◌<◌, ◌≤◌, ◌*ℤ◌, unsigned_abs};

// The product of a number that is no larger than M and one that is no larger than N.
pub(crate) fn times<const M: u64, const N: u64>(a: i64, b: i64) -> i64
    requires first { unsigned_abs a ≤ M }
    requires second { unsigned_abs b ≤ N }
    requires fits { M * N < 2 ^ 63 }
    ensures value { result ≡ a *ℤ b }
    ensures size { unsigned_abs result ≤ M * N }
{
    a * b
}
