// Lists that a session file was read into, and the day that stands in them.
ghost use Rattle.std.specs.Prelude.{◌≡◌};
ghost use Rattle.day.specs.Days.{bank_made, day_told};
ghost use Rattle.load.specs.Days.{contents_of};
ghost use Rattle.day.specs.Filled.{used_day, Within};
ghost use Rattle.day.specs.Lent.{day_of};
ghost use Rattle.day.specs.Told.{ToldOutcome, SafeOn};

use crate::lent::Day;
use calls::answer::Answer;
use deck::given::Given;
use load::lists::Lists;
use load::loading::Loaded;
use std::alloc::Global;
use terms::fault::Fault;
use terms::refusal::Refusal;

// The records that are in use.
fn day_in<'a>(used: &Loaded, lists: &'a Lists) -> Day<'a>
    requires { Within used.now (contents_of lists.now) }
    ensures { day_of result ≡ used_day used.now (contents_of lists.now) }
{
    Day {
        half: used.half,
        cash: used.cash,
        given: Given {
            families: &lists.families[..used.families],
            baskets: &lists.baskets[..used.baskets],
            months: &lists.months[..used.months],
            lines: &lists.lines[..used.futures + used.options],
            futures: used.futures,
        },
        prices: &lists.prices[..used.prices],
        held: &lists.held[..used.held],
        orders: &lists.orders[..used.orders],
    }
}

// What the account of the day in the lists answers.
pub fn told_in<'a>(
    heap: Global,
    used: &'a Loaded,
    lists: &'a Lists,
) -> Result<Vec<Result<Answer, Refusal>>, Fault>
    requires { Within used.now (contents_of lists.now) }
    ensures told { ToldOutcome result (day_told (used_day used.now (contents_of lists.now))) }
    ensures safe { SafeOn (used_day used.now (contents_of lists.now)) (bank_made (used_day used.now (contents_of lists.now))) result }
{
    day_in(used, lists).told(heap)
}
