// Why a call or a file is refused: one list of cases for the whole engine, each with its number and its place.
ghost use Rattle.std.specs.Prelude.{◌≡◌};
ghost use Rattle.terms.specs.Refusals.{number_of, place_of};

use std::fmt;

// A case that points at something holds its place: a byte of the text, an entry of a list, a card, or a length.
#[derive(Clone, Copy, PartialEq, Eq, Debug)]
pub enum Refusal {
    // The text cannot go on with this byte, or cannot end here.
    Malformed(usize),
    // A number lies outside its field; the byte where it starts, or its index in a list.
    OutsideField(usize),
    // A form is unknown, out of order, one too many, missing, or has another count of numbers; the byte.
    WrongForm(usize),
    // A card or a held record names nothing, or has a number that it may not have; its place among those given.
    BadCard(usize),
    // A list has another length, or a text is too long; the length that is wanted or allowed.
    WrongLength(usize),
    // Halves, lines or cards do not fit together.
    WrongShape,
    // A bank's reach would pass the bound.
    ReachTooLarge,
    NoSuchLine,
    // A quantity or a factor outside its range.
    BadQuantity,
    // A price or a limit outside its range.
    BadPrice,
    BadAmount,
    // As many orders are open as an account may have.
    OrdersFull,
    // An order would take what a line may come to above the bound.
    NetTooLarge,
    // An order would take the contracts accepted on a line since the account began above the bound.
    TooManyContracts,
    // The margin would exceed the collateral.
    NotCovered,
    NoSuchOrder,
    // A fill of more than is left of the order.
    MoreThanLeft,
    // A fill at a price worse than the order's limit.
    WorseThanLimit,
    CollateralTooLarge,
}

impl Refusal {
    // The number by which the refusal is known outside the engine.
    pub fn number(self) -> u8
        ensures { result ≡ number_of self }
    {
        match self {
            Refusal::Malformed(_) => 1,
            Refusal::OutsideField(_) => 2,
            Refusal::WrongForm(_) => 3,
            Refusal::BadCard(_) => 4,
            Refusal::WrongLength(_) => 5,
            Refusal::WrongShape => 6,
            Refusal::ReachTooLarge => 7,
            Refusal::NoSuchLine => 8,
            Refusal::BadQuantity => 9,
            Refusal::BadPrice => 10,
            Refusal::BadAmount => 11,
            Refusal::OrdersFull => 21,
            Refusal::NetTooLarge => 22,
            Refusal::TooManyContracts => 23,
            Refusal::NotCovered => 24,
            Refusal::NoSuchOrder => 25,
            Refusal::MoreThanLeft => 26,
            Refusal::WorseThanLimit => 27,
            Refusal::CollateralTooLarge => 28,
        }
    }

    // The place that the refusal points at. It is 0, and not None, where it points at none: a refusal is told by two numbers.
    pub fn place(self) -> usize
        ensures { result ≡ place_of self }
    {
        match self {
            Refusal::Malformed(place)
            | Refusal::OutsideField(place)
            | Refusal::WrongForm(place)
            | Refusal::BadCard(place)
            | Refusal::WrongLength(place) => place,
            _ => 0,
        }
    }
}

impl fmt::Display for Refusal {
    fn fmt<W: fmt::Write>(&self, f: &mut fmt::Formatter<W>) -> fmt::Result {
        let number = self.number();
        let place = self.place();
        write!(f, "(refused (number {number}) (place {place}))")
    }
}
