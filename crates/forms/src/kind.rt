// A kind of form: its head, its inner forms, and the record that its numbers fill.
ghost use Rattle.std.specs.Prelude.{◌≡◌, ℕ, List, ℤ};
ghost use Rattle.forms.specs.Fields.{Asked, all_asked};
ghost use Rattle.forms.specs.Judged.{Lettered};

use crate::field::Field;

pub trait Kind {
    type Record: Copy;

    ghost head_of: { List ℕ };

    ghost fields_of: { List Asked };

    ghost lettered: { Lettered head_of fields_of };

    ghost empty: { Self.Record };

    ghost filled: { ℕ → Self.Record → ℕ → ℤ → Self.Record };

    const HEAD: &'static [u8];

    const FIELDS: &'static [Field];

    // The two constants, as what the ghost members say. They have no bodies here: a trait doesn't know an implementor's
    // constants, and a law about them would ask one fact more of each kind.
    fn first_head() -> &'static [u8]
        ensures { result.now ≡ head_of };

    fn inner_forms() -> &'static [Field]
        ensures { all_asked result.now ≡ fields_of };

    fn blank() -> Self::Record
        ensures { result ≡ empty };

    // The record with a number filled in, by the inner form that it stands in and its index there.
    // By index, since a table of functions would be function pointers.
    fn fill(so_far: Self::Record, inner: usize, index: usize, number: i64) -> Self::Record
        ensures { result ≡ filled inner so_far index number };
}
