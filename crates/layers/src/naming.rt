// The names on cards: whether a card names a number, and which.
ghost use Rattle.std.specs.Prelude.{◌≡◌};
ghost use Rattle.margin.specs.Book.{names as names_number, named};

// Whether a card names the number i. By try_from the whole margin takes a third more time (0.54 s in place of 0.39 s for 20,000
// margins), so the sign is tested here.
#[tactic(auto, using(crate::proofs::Names::names_up, crate::proofs::Names::names_down))]
pub fn names(name: i64, i: usize) -> bool
    ensures { result ≡ names_number name i }
{
    name >= 0 && name as usize == i
}

// The number that a card names; a name below 0 names nothing, and is read as 0. By try_from it takes a third more time.
#[tactic(auto, unfolding(margin::specs::Book::named))]
pub fn number(name: i64) -> usize
    ensures { result ≡ named name }
{
    name.max(0) as usize
}
