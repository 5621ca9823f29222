// From a session file's bytes to what its account answers.
ghost use Rattle.std.specs.Prelude.{◌≡◌};
ghost use Rattle.load.specs.Days.{contents_of, lengths_of};
ghost use Rattle.load.specs.Loading.{wanted};
ghost use Rattle.day.specs.Days.{session_told};
ghost use Rattle.day.specs.Sessions.{SessionOutcome, SafeSession};

use crate::filled::told_in;
use calls::answer::Answer;
use kinds::Order;
use load::lists::{BASKETS, FAMILIES, HELD, LINES, Lists, MONTHS, ORDERS, PRICES};
use load::loading::load;
use std::alloc::Global;
use terms::cards::{Basket, Family, Held, Line, Month};
use terms::fault::Fault;
use terms::refusal::Refusal;

// The collateral that the file gives, in kopecks, and what each call of its account was told: a place for each order of the
// file, and then margin.
#[derive(Drop)]
pub struct Session {
    pub collateral: u64,
    pub told: Vec<Result<Answer, Refusal>>,
}

// The same over lists of the lengths that are wanted.
fn answer_in(heap: Global, text: &[u8], lists: &mut Lists) -> Result<Session, Fault>
    requires { lengths_of (contents_of lists.old) ≡ wanted }
    ensures said { SessionOutcome result (session_told text.now) }
    ensures safe { SafeSession text.now result }
{
    let loaded = load(text, lists)?;
    let told = told_in(heap, &loaded, lists)?;
    Ok(Session {
        collateral: loaded.cash.unsigned_abs(),
        told,
    })
}

// Reads a session file, begins its account, places its orders one after the other and asks for the margin. A file or a begin
// that is refused answers its refusal; a refused order is among what was told.
pub fn answer(heap: Global, text: &[u8]) -> Result<Session, Fault>
    ensures said { SessionOutcome result (session_told text.now) }
    ensures safe { SafeSession text.now result }
{
    answer_in(
        heap,
        text,
        &mut Lists {
            families: &mut [Family::default(); FAMILIES],
            baskets: &mut [Basket::default(); BASKETS],
            months: &mut [Month::default(); MONTHS],
            lines: &mut [Line::default(); LINES],
            prices: &mut [0; PRICES],
            held: &mut [Held::default(); HELD],
            orders: &mut [Order::default(); ORDERS],
        },
    )
}
