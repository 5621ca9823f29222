// A bank of another make, written outside the banks' own crate: what a broker's engineer writes to bring prices of their own.
// It gives the price that stands in each cell and answers the four questions; layers and generic code then take it as any other bank.
#![tactic(auto)]

ghost use Rattle.std.specs.Prelude.{◌≡◌, ◌+◌, ◌*◌, ◌<◌, ◌≤◌, pos};
ghost use Rattle.banks.specs.Layers.{pair_meaning, scale_meaning};
ghost use Rattle.banks.specs.Meanings.{exactly};
ghost use Rattle.banks.specs.Outcomes.{told};
ghost use Rattle.banks.specs.Soundness.{bounded_sound};
ghost use Rattle.ramp.specs.Ramps.{climbing, ramp_meaning, pile_made, swing_of};

use banks::bank::Bank;
use banks::pair::Pair;
use banks::scale::Scale;
use banks::size::{MOST_REACH, capped};
use terms::half::{Half, VOLATILITIES};
use terms::refusal::Refusal;

// One contract whose price rises by the same tick from point to point, in grains.
#[derive(Clone, Copy)]
pub struct Ramp {
    pub half: Half,
    pub start: u32,
    pub tick: u16,
}

impl Bank for Ramp {
    ghost meaning = { ramp_meaning };

    ghost sound = { λ r. bounded_sound r.half 1 (r.start + 16 * r.tick) (climbing r) };

    fn half(&self) -> Half {
        self.half
    }

    fn lines(&self) -> usize {
        1
    }

    fn reach(&self) -> u64 {
        self.top().min(MOST_REACH)
    }

    fn price(&self, line: usize, point: usize, column: usize) -> i64 {
        if line < 1 && point < self.half.points() && column < VOLATILITIES {
            capped(self.top(), i128::from(self.level(point)))
        } else {
            0
        }
    }
}

impl Ramp {
    // A ramp from a start, by ticks. Nothing of its prices is ever cut.
    pub fn new(half: Half, start: u32, tick: u16) -> Ramp
        ensures same { result ≡ record { half = half; start = start; tick = tick } }
        ensures means { ramp_meaning result ≡ exactly half 1 (start + 16 * tick) (climbing result) }
    {
        Ramp { half, start, tick }
    }

    // The highest price on the widest grid.
    fn top(&self) -> u64
        ensures { result ≡ self.now.start + 16 * self.now.tick }
    {
        u64::from(self.start) + 16 * u64::from(self.tick)
    }

    // The price at a point.
    fn level(&self, point: usize) -> u64
        requires { point < 17 }
        ensures { result ≡ self.now.start + point * self.now.tick }
    {
        u64::from(self.start) + climbed(point, self.tick)
    }
}

// So many ticks.
fn climbed(point: usize, tick: u16) -> u64
    requires { point < 17 }
    ensures value { result ≡ point * tick }
    ensures bounded { result ≤ 16 * tick }
{
    point as u64 * u64::from(tick)
}

// The second ramp scaled and set beside the first, and the two scaled together: layers over layers, over a bank of another make.
pub fn pile(
    a: Ramp,
    b: Ramp,
    inner: i64,
    outer: i64,
) -> Result<Scale<Pair<Ramp, Scale<Ramp>>>, Refusal>
    ensures { told (λ s. scale_meaning s.factor (pair_meaning (ramp_meaning s.bank.first) (scale_meaning s.bank.second.factor (ramp_meaning s.bank.second.bank)))) result ≡ pile_made a b inner outer }
{
    let scaled = Scale::new(b, inner)?;
    let pair = Pair::new(a, scaled)?;
    Scale::new(pair, outer)
}

// How far the price of a line lies apart at the two ends of the grid, for a bank of any make.
pub fn swing<B: Bank>(bank: &B, line: usize) -> i64
    ensures { result ≡ swing_of (B.Bank.meaning bank.now) line }
{
    let last = bank.half().last();
    bank.price(line, last, 0) - bank.price(line, 0, 0)
}
