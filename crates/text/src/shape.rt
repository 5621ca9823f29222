// The shape of the text. Each line, ended by byte 10, is one outer form: a bracket, a head, then inner forms with one space
// before each, and a closing bracket. An inner form has numbers instead of forms. A head is one letter a to z or more.
ghost use Rattle.std.specs.Prelude.{◌≡◌, ◌+◌, ◌&&◌, None, ◌==◌, nat_lt};
ghost use Rattle.std.specs.Char.{is_ascii_digit, is_ascii_lowercase};
ghost use Rattle.text.specs.Grammar.{AcceptsWritings, OneReading, RefusesFirst};
ghost use Rattle.text.specs.Shape.{when, step, more_forms, more_numbers, ends_at, malformed_at};

use crate::number::MOST;

// What has been read of a line.
#[derive(Clone, Copy)]
enum State {
    // nothing: a line may begin here, or the text may end
    Line,
    // an outer bracket, before its head
    OuterOpen,
    OuterHead,
    // the space before an inner form
    OuterSpace,
    // an inner bracket, before its head
    InnerOpen,
    InnerHead,
    // the space before a number
    InnerSpace,
    Minus,
    Zero,
    // So many digits of a number. A small count, since a state is handed on at every byte of the text: with a usize the walk takes
    // up to a sixth more instructions.
    Digits(u8),
    InnerClosed,
    OuterClosed,
}

// The first byte that cannot stand where it does, or the text's length where it cannot end there; none where the text is well
// formed. It answers a place, and not a refusal: the caller says which refusal it is.
pub fn malformed(text: &[u8]) -> Option<usize>
    ensures answer { result ≡ malformed_at text.now }
    ensures accepts { AcceptsWritings }
    ensures one { OneReading }
    ensures first { RefusesFirst }
{
    let mut state = State::Line;
    for (place, byte) in text.iter().enumerate() {
        let Some(after) = next(state, *byte as char) else {
            return Some(place);
        };
        state = after;
    }
    end(state, text.len())
}

// The text's end, at a place, where it cannot end.
fn end(state: State, place: usize) -> Option<usize>
    ensures { result ≡ ends_at state place }
{
    match state {
        State::Line => None,
        _ => Some(place),
    }
}

// The state behind the next character, or none where it cannot stand there.
fn next(state: State, c: char) -> Option<State>
    ensures { result ≡ step state c }
{
    match state {
        State::Line => open(c, State::OuterOpen),
        State::OuterOpen => letter(c, State::OuterHead),
        State::OuterHead => letter(c, State::OuterHead).or(more_forms(c)),
        State::OuterSpace => open(c, State::InnerOpen),
        State::InnerOpen => letter(c, State::InnerHead),
        State::InnerHead => letter(c, State::InnerHead).or(more_numbers(c)),
        State::InnerSpace => first_of_number(c),
        State::Minus => first_digit(c),
        State::Zero => more_numbers(c),
        State::Digits(count) => next_digit(count, c).or(more_numbers(c)),
        State::InnerClosed => more_forms(c),
        State::OuterClosed => end_of_line(c),
    }
}

// An opening bracket.
fn open(c: char, after: State) -> Option<State>
    ensures { result ≡ when (c == 40) after None }
{
    match c {
        '(' => Some(after),
        _ => None,
    }
}

// A letter of a head.
fn letter(c: char, after: State) -> Option<State>
    ensures { result ≡ when (is_ascii_lowercase c) after None }
{
    c.is_ascii_lowercase().then_some(after)
}

fn first_of_number(c: char) -> Option<State>
    ensures { result ≡ step State.InnerSpace c }
{
    match c {
        '-' => Some(State::Minus),
        '0' => Some(State::Zero),
        _ => first_digit(c),
    }
}

// The first digit of a number other than 0.
fn first_digit(c: char) -> Option<State>
    ensures { result ≡ step State.Minus c }
{
    ('1'..='9').contains(&c).then_some(State::Digits(1))
}

// One more digit, behind `count` of them.
fn next_digit(count: u8, c: char) -> Option<State>
    ensures { result ≡ when (is_ascii_digit c && nat_lt count 15) (State.Digits (count + 1)) None }
{
    (c.is_ascii_digit() && usize::from(count) < MOST).then(|| State::Digits(count + 1))
}

fn end_of_line(c: char) -> Option<State>
    ensures { result ≡ step State.OuterClosed c }
{
    match c {
        '\n' => Some(State::Line),
        _ => None,
    }
}

// What may follow a head or an inner form, within an outer form.
fn more_forms(c: char) -> Option<State>
    ensures { result ≡ more_forms c }
{
    more(c, State::OuterSpace, State::OuterClosed)
}

// What may follow a head or a number, within an inner form.
fn more_numbers(c: char) -> Option<State>
    ensures { result ≡ more_numbers c }
{
    more(c, State::InnerSpace, State::InnerClosed)
}

// What may follow a head, an inner form or a number: a space before one more, or the closing bracket.
fn more(c: char, space: State, closed: State) -> Option<State>
    ensures { result ≡ when (c == 32) space (when (c == 41) closed None) }
{
    match c {
        ' ' => Some(space),
        ')' => Some(closed),
        _ => None,
    }
}
