// What the layers make of judged cards and their months' cells: the margin, and the world handed out as far as it is chosen
// from cells.
ghost use Rattle.std.specs.Prelude.{◌≡◌, None};
ghost use Rattle.margin.specs.HandedOut.{family_choice, basket_choice, month_choice};
ghost use Rattle.margin.specs.Layers.{margin_of, costliest as costliest_of};
ghost use Rattle.deck.specs.Decks.{deck_cards};
ghost use Rattle.layers.specs.Families.{each_worst, each_loss};
ghost use Rattle.layers.specs.Outcomes.{on_cells};
ghost use Rattle.layers.specs.Rows.{ListsAll};
ghost use Rattle.layers.specs.Scenes.{NamesBaskets, in_scene, cards_of};
ghost use Rattle.layers.specs.Tables.{last_point};

use crate::fitted::Fitted;
use crate::month_cells::MonthCells;
use crate::scene::Scene;
use deck::deck::Deck;
use margin::choice::{Kept, MOST_BASKETS, MOST_FAMILIES, MOST_MONTHS};
use terms::half::Half;

// The margin in kopecks; what each family loses, in grains; the worst result of its row, with its first point; the family that
// loses most; and the choices of the world handed out, but for its orders. Fixed lists: a margin is worked out without the heap.
#[derive(Clone, Copy)]
pub struct Outcome {
    pub amount: u64,
    pub losses: [u128; MOST_FAMILIES],
    pub worsts: [(i128, usize); MOST_FAMILIES],
    pub costliest: usize,
    pub families: [Option<usize>; MOST_FAMILIES],
    pub baskets: [Option<usize>; MOST_BASKETS],
    pub months: [Option<Kept>; MOST_MONTHS],
}

// What the layers make of cells on a grid of a half.
pub fn worked_out<'a>(deck: &'a Deck, cells: &'a MonthCells, half: Half) -> Outcome
    ensures amount { result.amount ≡ on_cells margin_of half deck.now cells.now }
    ensures losses { result.losses ≡ on_cells each_loss half deck.now cells.now }
    ensures worsts { result.worsts ≡ on_cells each_worst half deck.now cells.now }
    ensures costliest { result.costliest ≡ on_cells costliest_of half deck.now cells.now }
    ensures families { ListsAll None (on_cells family_choice half deck.now cells.now) result.families }
    ensures baskets { ListsAll None (on_cells basket_choice half deck.now cells.now) result.baskets }
    ensures months { ListsAll None (on_cells month_choice half deck.now cells.now) result.months }
{
    view(deck, cells, half).outcome()
}

impl<'a> Fitted<'a> {
    // What the layers make of a scene.
    pub fn outcome(&self) -> Outcome
        ensures amount { result.amount ≡ in_scene margin_of self.now.scene }
        ensures losses { result.losses ≡ in_scene each_loss self.now.scene }
        ensures worsts { result.worsts ≡ in_scene each_worst self.now.scene }
        ensures costliest { result.costliest ≡ in_scene costliest_of self.now.scene }
        ensures families { ListsAll None (in_scene family_choice self.now.scene) result.families }
        ensures baskets { ListsAll None (in_scene basket_choice self.now.scene) result.baskets }
        ensures months { ListsAll None (in_scene month_choice self.now.scene) result.months }
    {
        let rows = self.basket_rows();
        let worsts = rows.worsts();
        let losses = worsts.losses();
        Outcome {
            amount: losses.margin(),
            losses: losses.losses,
            worsts: worsts.worsts,
            costliest: losses.costliest(),
            families: rows.chosen_families(),
            baskets: rows.chosen_baskets(),
            months: rows.chosen_months(),
        }
    }
}

// The layers' view of judged cards and their cells.
fn view<'a>(deck: &'a Deck, cells: &'a MonthCells, half: Half) -> Fitted<'a>
    ensures cards { cards_of result.scene ≡ deck_cards deck.now }
    ensures table { result.scene.cells.now ≡ cells.now.cells }
    ensures last { result.scene.last ≡ last_point half }
    ensures named { NamesBaskets result.scene }
{
    let scene = Scene {
        families: deck.families.as_slice(),
        baskets: deck.baskets.as_slice(),
        months: deck.months.as_slice(),
        lines: deck.lines.as_slice(),
        futures: deck.futures,
        cells: &cells.cells,
        last: half.last(),
    };
    Fitted { scene }
}
