// A scene that keeps the bounds, and the cells of its months.
ghost use Rattle.std.specs.Prelude.{◌≡◌, ◌^◌, ◌<◌, ◌≤◌, unsigned_abs};
ghost use Rattle.layers.specs.Scenes.{Fits, cells_of};
ghost use Rattle.layers.specs.Tables.{place_of};

use crate::scene::Scene;
use terms::half::{COLUMNS, MOST_POINTS};

// A scene with as many cards as an account may have, and with room for their cells, none of which is too large to be added up.
#[derive(Clone, Copy, Drop)]
pub struct Fitted<'a> {
    pub scene: Scene<'a>,
    ghost fits: { Fits scene },
}

// Where a cell stands in the table, which stays one flat list, since callers hand in a scene and its cells as such.
fn place(m: usize, p: usize, k: usize) -> usize
    requires { (m < 8) × ((p < 17) × (k < 7)) }
    ensures value { result ≡ place_of m p k }
    ensures inside { result < 952 }
{
    (m * MOST_POINTS + p) * COLUMNS + k
}

impl<'a> Fitted<'a> {
    // A month's cell; 0 outside the grid.
    pub fn cell(&self, m: usize, p: usize, k: usize) -> i128
        ensures value { result ≡ cells_of self.now.scene m p k }
        ensures size { unsigned_abs result ≤ 2 ^ 70 }
    {
        let scene = &self.scene;
        if m < scene.months.len() && p <= scene.last && k < COLUMNS {
            scene.cells[place(m, p, k)]
        } else {
            0
        }
    }
}
