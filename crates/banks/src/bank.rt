// The interface of a price bank. Code above it is generic, and proved once from the meaning alone.
ghost use Rattle.std.specs.Prelude.{◌≡◌, ◌≤◌, unsigned_abs};
ghost use Rattle.banks.specs.Meanings.{Meaning, Sound};

use terms::half::Half;

// A bank of any make. It says by `meaning` what it answers, shows by `sound` that this is a bank's meaning,
// and answers each of the four questions with its part, whenever it is asked.
pub trait Bank {
    ghost meaning: { Self → Meaning };

    ghost sound: { (b : Self) → Sound (meaning b) };

    // The half of its scenario grid.
    fn half(&self) -> Half
        ensures { result ≡ (meaning self.now).half };

    // How many lines it has, 1 to 16.
    fn lines(&self) -> usize
        ensures value { result ≡ (meaning self.now).lines }
        ensures some_line { 1 ≤ result }
        ensures few_lines { result ≤ 16 };

    // The size that no price of it exceeds, in grains.
    fn reach(&self) -> u64
        ensures value { result ≡ (meaning self.now).reach }
        ensures bounded { result ≤ 2000000000000 };

    // The price of one contract in a cell, in grains. A bank may be asked for any line, point and column, and answers 0
    // outside the grid.
    fn price(&self, line: usize, point: usize, column: usize) -> i64
        ensures value { result ≡ (meaning self.now).price line point column }
        ensures bounded { unsigned_abs result ≤ 2000000000000 };
}
