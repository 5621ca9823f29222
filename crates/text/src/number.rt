// Reads a number: an optional minus and 1 to 15 digits, without leading zeros and without -0.
ghost use Rattle.std.specs.Prelude.{◌≡◌, ◌-◌, ◌^◌, ◌<◌, ◌≤◌, length, IfOk, IfErr};
ghost use Rattle.text.specs.Writing.{OneWriting, ReadsWritings, ReadsFronts, RefusesWhere};
ghost use Rattle.text.specs.Numbers.{digits_on, zero_at, natural_at, negative_at, number_at};

use terms::refusal::Refusal;

// The most digits that a number may have.
pub(crate) const MOST: usize = 15;

// The number at the front of a text, and how many bytes it takes. It ends before the first byte that is no digit.
// Where no number stands there, it is refused at the first byte, or the end, that cannot continue.
pub fn number(text: &[u8]) -> Result<(i64, usize), Refusal>
    ensures answer { result ≡ number_at text.now }
    ensures within { IfOk result (λ v. v.1 ≤ length text.now) }
    ensures writings { OneWriting }
    ensures reads { ReadsWritings }
    ensures fronts { ReadsFronts }
    ensures refuses { RefusesWhere }
{
    match text {
        [b'-', first, rest @ ..] => negative(*first, rest),
        [b'-'] => Err(Refusal::Malformed(1)),
        [first, rest @ ..] => natural(*first, rest),
        [] => Err(Refusal::Malformed(0)),
    }
}

// What stands behind a minus.
fn negative(first: u8, rest: &[u8]) -> Result<(i64, usize), Refusal>
    ensures { result ≡ negative_at first rest.now }
{
    match first {
        b'1'..=b'9' => digits_on(first, rest)
            .map(|(size, count)| (-(size as i64), count + 1))
            .map_err(|past| Refusal::Malformed(past + 1)),
        _ => Err(Refusal::Malformed(1)),
    }
}

// A number without a minus.
fn natural(first: u8, rest: &[u8]) -> Result<(i64, usize), Refusal>
    ensures { result ≡ natural_at first rest.now }
{
    match first {
        b'1'..=b'9' => digits_on(first, rest)
            .map(|(size, count)| (size as i64, count))
            .map_err(Refusal::Malformed),
        b'0' => zero(rest),
        _ => Err(Refusal::Malformed(0)),
    }
}

// A zero, with what stands behind it.
fn zero(rest: &[u8]) -> Result<(i64, usize), Refusal>
    ensures { result ≡ zero_at rest.now }
{
    match rest {
        [b'0'..=b'9', ..] => Err(Refusal::Malformed(1)),
        _ => Ok((0, 1)),
    }
}

// The digits at the front of `rest`, behind the digit `first`: the number that they all write, and how many they are.
// A digit too many is refused at its place, counted from `first`. The error is the place alone, since a minus before the digits
// moves it by one.
fn digits_on(first: u8, rest: &[u8]) -> Result<(u64, usize), usize>
    requires { (48 ≤ first) × (first ≤ 57) }
    ensures answer { result ≡ digits_on 1 (first - 48) rest.now }
    ensures small { IfOk result (λ v. (v.0 < 10 ^ 15) × (v.1 ≤ 15)) }
    ensures place { IfErr result (λ p. p ≤ 15) }
{
    let mut value = u64::from(first - b'0');
    for (index, byte) in rest.iter().enumerate() {
        let count = index + 1;
        if !byte.is_ascii_digit() {
            return Ok((value, count));
        }
        if count == MOST {
            return Err(count);
        }
        value = 10 * value + u64::from(*byte - b'0');
    }
    Ok((value, rest.len() + 1))
}
