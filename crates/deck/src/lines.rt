// The lines of judged cards, by their numbers.
ghost use Rattle.std.specs.Prelude.{◌≡◌, length};
ghost use Rattle.deck.specs.Judgements.{name_fits};

use crate::deck::Deck;
use crate::judges::names;

impl Deck {
    // Whether there is a line of that number.
    pub fn has_line(&self, line: i64) -> bool
        ensures { result ≡ name_fits (length self.now.lines.items) line }
    {
        names(self.lines.len(), line)
    }
}
