// An open order of a book.
ghost use Rattle.std.specs.Prelude.{◌≤◌, unsigned_abs};

use margin::book::Open;

// Its numbers lie within what an account may have.
#[derive(Clone, Copy)]
pub(crate) struct OpenOrder {
    pub open: Open,
    ghost left: { unsigned_abs open.left ≤ 10000 },
    ghost limit: { unsigned_abs open.limit ≤ 10000000 },
}
