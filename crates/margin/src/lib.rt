// From scenario cells to the margin of a book: what every layer comes to, the worlds that the margin covers, and the proof that it covers them with nothing to spare.
#![tactic(auto)]

ghost use Rattle.margin.specs.Easing.{CancelNeverRaisesTheMargin, FillNeverRaisesTheMargin, LastFillNeverRaisesTheMargin};
ghost use Rattle.margin.specs.Figures.{Figures};
ghost use Rattle.margin.specs.LeastCover.{MarginIsTheLeastCover, MarginFallsAsCellsRise};
ghost use Rattle.margin.specs.Lowest.{HandedOutIsLowest, NoOtherIsLowest};

pub mod book;
pub mod choice;

// The margins of small books, as the definitions give them.
pub fn figures_hold()
    ensures { Figures }
{}

// The margin is the least amount that no world's loss exceeds; the world handed out is one of the worlds, and none loses more.
pub fn margin_is_the_least_cover()
    ensures { MarginIsTheLeastCover }
{}

// At each place the world handed out takes the lowest point or column among equals, nothing that may be left out and is not below
// 0, and an order in a cell exactly if it loses there; and every world that does so takes the same.
pub fn handed_out_is_lowest()
    ensures lowest { HandedOutIsLowest }
    ensures no_other { NoOtherIsLowest }
{}

// Where no cell falls, the margin does not rise.
pub fn margin_falls_as_cells_rise()
    ensures { MarginFallsAsCellsRise }
{}

// An order that is cancelled leaves the margin as it is or lowers it.
pub fn cancel_never_raises_the_margin()
    ensures { CancelNeverRaisesTheMargin }
{}

// So does a fill of an order no worse than its limit, whether or not something is left of the order.
pub fn fill_never_raises_the_margin()
    ensures some_left { FillNeverRaisesTheMargin }
    ensures none_left { LastFillNeverRaisesTheMargin }
{}
