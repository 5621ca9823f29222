// What a kind of form asks of one of its inner forms.

// The numbers that it takes.
#[derive(Clone, Copy)]
pub enum Allowed {
    // a name, or a number that is judged later
    Any,
    // from the first to the second
    Between(i64, i64),
    // the half of a grid
    HalfSize,
}

#[derive(Clone, Copy)]
pub struct Field {
    pub head: &'static [u8],
    // how many numbers it has
    pub count: usize,
    pub allowed: Allowed,
}
