// Cards that have been judged. The invariant says what every layer above may take for granted.
ghost use Rattle.std.specs.Prelude.{◌≡◌, ℕ, ◌<◌, ◌≤◌, true, get_or, vec_len, slice_index_or};
ghost use Rattle.deck.specs.Judgements.{name_fits, no_basket, no_month, no_line};
ghost use Rattle.terms.specs.Cards.{future_fits};

use terms::cards::{Basket, Family, Line, Month};

#[derive(Drop)]
pub struct Deck {
    pub families: Vec<Family>,
    pub baskets: Vec<Basket>,
    pub months: Vec<Month>,
    pub lines: Vec<Line>,
    // how many of the lines, from the first, are futures; they are one list, since lines are numbered through futures and options
    pub futures: usize,
    ghost some_families: { 1 ≤ vec_len families },
    ghost few_families: { vec_len families ≤ 2 },
    ghost few_baskets: { vec_len baskets ≤ 4 },
    ghost few_months: { vec_len months ≤ 8 },
    ghost some_lines: { 1 ≤ vec_len lines },
    ghost few_lines: { vec_len lines ≤ 16 },
    ghost few_futures: { futures ≤ vec_len lines },
    ghost baskets_named: { ((b : ℕ) → b < vec_len baskets → name_fits (vec_len families) (get_or baskets.items b no_basket).family ≡ true) },
    ghost months_named: { ((m : ℕ) → m < vec_len months → name_fits (vec_len baskets) (get_or months.items m no_month).basket ≡ true) },
    ghost lines_named: { ((l : ℕ) → l < vec_len lines → name_fits (vec_len months) (get_or lines.items l no_line).month ≡ true) },
    ghost futures_fit: { ((l : ℕ) → l < futures → future_fits (slice_index_or lines.items l no_line) ≡ true) },
}
