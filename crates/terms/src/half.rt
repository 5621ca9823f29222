// The half of a scenario grid: how many price points lie on each side of the middle one.
ghost use Rattle.std.specs.Prelude.{◌≡◌, ◌*◌, pos};
ghost use Rattle.terms.specs.Halves.{half_of, half_size, points, steps_of};

// The columns of a grid, of which the first three hold prices and the others changes of a price; and the points of the widest.
pub const COLUMNS: usize = 7;

pub const VOLATILITIES: usize = 3;

pub const MOST_POINTS: usize = 17;

// A grid of half h has the points 0 to 2h, and its middle point is h.
#[derive(Clone, Copy, PartialEq, Eq, Debug)]
pub enum Half {
    One,
    Two,
    Four,
    Eight,
}

impl Half {
    // The half of a given size, or none where no grid has that size.
    // An Option and not TryFrom: each caller has its own answer where no grid has the size.
    pub fn of(size: i64) -> Option<Half>
        ensures { result ≡ half_of size }
    {
        match size {
            1 => Some(Half::One),
            2 => Some(Half::Two),
            4 => Some(Half::Four),
            8 => Some(Half::Eight),
            _ => None,
        }
    }

    // The number that a grid is given by. Beside `eighths` it has values of its own: the shape is all that they share.
    pub fn size(self) -> usize
        ensures { result ≡ half_size self }
    {
        match self {
            Half::One => 1,
            Half::Two => 2,
            Half::Four => 4,
            Half::Eight => 8,
        }
    }

    // How many points the grid has.
    pub fn points(self) -> usize
        ensures { result ≡ points self }
    {
        self.last() + 1
    }

    // The last point.
    pub fn last(self) -> usize
        ensures { result ≡ 2 * half_size self }
    {
        2 * self.size()
    }

    // How many eighths of the whole price move lie between two neighbouring points.
    pub fn eighths(self) -> usize
        ensures { result ≡ steps_of self }
    {
        match self {
            Half::One => 8,
            Half::Two => 4,
            Half::Four => 2,
            Half::Eight => 1,
        }
    }
}

// The size as a number that a caller may have given.
impl From<Half> for i64 {
    ghost from_gives = { λ half r. r ≡ pos (half_size half) };

    fn from(half: Half) -> i64 {
        half.size() as i64
    }
}
