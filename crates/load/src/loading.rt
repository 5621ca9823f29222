// Loading a session file.
ghost use Rattle.std.specs.Prelude.{◌≡◌, IfOk};
ghost use Rattle.load.specs.Days.{contents_of, lengths_of};
ghost use Rattle.load.specs.Loading.{loading, answer_of, held_by, Kept};
ghost use Rattle.load.specs.Sessions.{LoadsDays, NamesTheFault, FaultsOfForms};
ghost use Rattle.load.specs.Used.{Inside};

use crate::checks::{cards_fit, lists_fit, text_fits};
use crate::lists::Lists;
use crate::reading::day;
use terms::half::Half;
use terms::refusal::Refusal;

// What a session file says besides its lists: how many records of each are in use. The lists are the caller's, since nothing is
// allocated here, so that their counts stand beside them.
#[derive(Clone, Copy, PartialEq, Eq, Debug)]
pub struct Loaded {
    pub half: Half,
    // the collateral, in kopecks
    pub cash: i64,
    pub families: usize,
    pub baskets: usize,
    pub months: usize,
    pub futures: usize,
    pub options: usize,
    pub prices: usize,
    pub held: usize,
    pub orders: usize,
}

// Reads a session file into the lists, one record for each form, or one price for each number of a row, and zero behind
// them. A file that is refused leaves zeros in all of them, also where one has another length than is wanted.
pub fn load(text: &[u8], lists: &mut Lists) -> Result<Loaded, Refusal>
    ensures answer { result ≡ answer_of (loading (lengths_of (contents_of lists.old)) text.now) }
    ensures contents { contents_of lists.new ≡ held_by (loading (lengths_of (contents_of lists.old)) text.now) (contents_of lists.old) }
    ensures inside { IfOk result (λ used. Inside used (contents_of lists.new)) }
    ensures days { LoadsDays }
    ensures fault { NamesTheFault }
    ensures forms { FaultsOfForms }
{
    lists.clear();
    let answer = filled(text, lists);
    if answer.is_err() {
        lists.clear();
    }
    answer
}

// The same over what the lists hold, without clearing them.
fn filled(text: &[u8], lists: &mut Lists) -> Result<Loaded, Refusal>
    ensures kept { Kept (loading (lengths_of (contents_of lists.old)) text.now) result (contents_of lists.old) (contents_of lists.new) }
    ensures long { lengths_of (contents_of lists.new) ≡ lengths_of (contents_of lists.old) }
{
    lists_fit(lists.lengths())?;
    text_fits(text)?;
    let loaded = day(text, lists)?;
    cards_fit(&loaded, lists)?;
    Ok(loaded)
}
