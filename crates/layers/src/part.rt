// What a basket adds up over its months, for callers that name a part; inside, `sum_over` takes a closure.

#[derive(Clone, Copy, PartialEq, Eq, Debug)]
pub enum Part {
    // a column's cells
    Column(usize),
    // the rate and twist results
    Curves,
    // the lesser of 0 and each month's result
    Losses,
}
