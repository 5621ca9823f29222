// Picking: one search for the least item of a list and its first place, over every kind of item that has a total order.
#![tactic(auto)]

ghost use Rattle.std.specs.Prelude.{◌≡◌, Bool, int_le};
ghost use Rattle.order.specs.Items.{integers_ordered, costlier, family_losses_ordered};
ghost use Rattle.order.specs.Orders.{TotalOrder, lesser_of, first_least, IsFirstLeast};

// An item with a total order. An implementation says by `at_most` which of two items comes first, and proves the order's laws.
// It asks for this one test: std's `Ord` asks for three traits more, and a bound would speak of an `Ordering` where it speaks of the test.
pub trait Ordered {
    ghost at_most: { Self → Self → Bool };

    ghost ordered: { TotalOrder at_most };

    fn at_most(&self, other: &Self) -> bool
        ensures { result ≡ at_most self.now other.now };
}

// Results of a row, the lower first.
impl Ordered for i128 {
    ghost at_most = { int_le };

    ghost ordered = { integers_ordered };

    fn at_most(&self, other: &i128) -> bool {
        *self <= *other
    }
}

// A family's number and what it loses, in grains. The greater loss comes first, and of equal losses the lower number.
#[derive(Clone, Copy, PartialEq, Eq, Debug)]
pub struct FamilyLoss {
    pub family: usize,
    pub loss: u128,
}

impl Ordered for FamilyLoss {
    ghost at_most = { costlier };

    ghost ordered = { family_losses_ordered };

    fn at_most(&self, other: &FamilyLoss) -> bool {
        other.loss < self.loss || (self.loss == other.loss && self.family <= other.family)
    }
}

// The least item with its first place, or none where there is no item.
pub fn least<T: Ordered + Copy>(items: &[T]) -> Option<(T, usize)>
    ensures value { result ≡ first_least T.at_most items.now }
    ensures law { IsFirstLeast T.at_most items.now result }
{
    items
        .iter()
        .copied()
        .enumerate()
        .map(|(place, item)| (item, place))
        .reduce(lesser)
}

// Of an item and a later one, the one that comes first; the earlier one on a tie.
fn lesser<T: Ordered + Copy>(item: (T, usize), later: (T, usize)) -> (T, usize)
    ensures { result ≡ lesser_of T.at_most item (Some later) }
{
    if item.0.at_most(&later.0) {
        item
    } else {
        later
    }
}
