// Reading the forms of a session file in their order.
ghost use Rattle.std.specs.Prelude.{◌≡◌, ◌-◌, ◌≤◌, length, take, drop, Ok};
ghost use Rattle.forms.specs.Moves.{Fills};
ghost use Rattle.kinds.specs.Formats.{option_format};
ghost use Rattle.load.specs.Days.{contents_of, lengths_of};
ghost use Rattle.load.specs.Loading.{next, Kept};
ghost use Rattle.load.specs.Reading.{day_in, any_at, some_in, cards_in, lines_in, contracts_in, book_in, with_cards, with_lines, with_contracts, with_book, ReadsInto};

use crate::lists::Lists;
use crate::loading::Loaded;
use forms::kind::Kind;
use forms::reader::{Reader, read_from};
use terms::cards::Line;
use terms::half::{COLUMNS, Half};
use terms::refusal::Refusal;

// The forms of a kind that follow one another, at least one.
fn some<K: Kind>(reader: &mut Reader, out: &mut [K::Record]) -> Result<usize, Refusal>
    ensures { Fills (λ text at. some_in K.Kind.head_of K.Kind.fields_of K.Kind.empty K.Kind.filled text (length out.old) at) reader.old reader.new result out.old out.new }
{
    let count = reader.list::<K>(out)?;
    if count > 0 {
        Ok(count)
    } else {
        Err(Refusal::WrongForm(reader.place()))
    }
}

// The families, the baskets and the months; answers how many of each. Tried: a struct that holds the reader and the lent lists,
// with the four parts as its methods; no proof of `day` is made then, since the lists behind the struct's `&mut` are lent in turn.
fn cards(reader: &mut Reader, lists: &mut Lists) -> Result<(usize, usize, usize), Refusal>
    ensures { ReadsInto (λ x. (length x.0, length x.1, length x.2)) with_cards cards_in reader.old reader.new lists.old lists.new result }
{
    let families = some::<kinds::FamilyForm>(reader, lists.families)?;
    let baskets = some::<kinds::BasketForm>(reader, lists.baskets)?;
    let months = some::<kinds::MonthForm>(reader, lists.months)?;
    Ok((families, baskets, months))
}

// The options, written into the list of lines behind the futures; answers how many they are.
fn options_behind(reader: &mut Reader, lines: &mut [Line], futures: usize) -> Result<usize, Refusal>
    requires { futures ≤ length lines.old }
    ensures behind { Fills (λ text at. any_at option_format text (length lines.old - futures) at) reader.old reader.new result (drop futures lines.old) (drop futures lines.new) }
    ensures front { take futures lines.new ≡ take futures lines.old }
{
    reader.list::<kinds::OptionForm>(&mut lines[futures..])
}

// The futures and the options; answers how many of each.
fn lines(reader: &mut Reader, lists: &mut Lists) -> Result<(usize, usize), Refusal>
    ensures { ReadsInto (λ x. (length x.0, length x.1)) with_lines lines_in reader.old reader.new lists.old lists.new result }
{
    let futures = some::<kinds::FutureForm>(reader, lists.lines)?;
    let options = options_behind(reader, lists.lines, futures)?;
    Ok((futures, options))
}

// The lines, then seven rows for each option; answers how many futures, options and prices.
fn contracts(
    reader: &mut Reader,
    lists: &mut Lists,
    half: Half,
) -> Result<(usize, usize, usize), Refusal>
    requires { length lists.old.lines.now ≤ 16 }
    ensures { ReadsInto (λ x. (length x.0, length x.1, length x.2)) with_contracts (contracts_in half) reader.old reader.new lists.old lists.new result }
{
    let (futures, options) = lines(reader, lists)?;
    let prices = reader.rows(futures, half, COLUMNS * options, lists.prices)?;
    Ok((futures, options, prices))
}

// The held records and the orders, which end the file; answers how many of each.
fn book(reader: &mut Reader, lists: &mut Lists) -> Result<(usize, usize), Refusal>
    ensures { ReadsInto (λ x. (length x.0, length x.1)) with_book book_in reader.old reader.new lists.old lists.new result }
{
    let held = reader.list::<kinds::HeldForm>(lists.held)?;
    let orders = reader.list::<kinds::OrderForm>(lists.orders)?;
    if reader.is_at_end() {
        Ok((held, orders))
    } else {
        Err(Refusal::WrongForm(reader.place()))
    }
}

// The day that the forms of a text describe.
pub(crate) fn day(text: &[u8], lists: &mut Lists) -> Result<Loaded, Refusal>
    requires { length lists.old.lines.now ≤ 16 }
    ensures kept { Kept (next (day_in (lengths_of (contents_of lists.old)) text.now) (λ read. Ok read.0)) result (contents_of lists.old) (contents_of lists.new) }
    ensures long { lengths_of (contents_of lists.new) ≡ lengths_of (contents_of lists.old) }
{
    let mut reader = read_from(text);
    let half = reader.form::<kinds::HalfForm>()?;
    let (families, baskets, months) = cards(&mut reader, lists)?;
    let (futures, options, prices) = contracts(&mut reader, lists, half)?;
    let cash = reader.form::<kinds::CashForm>()?;
    let (held, orders) = book(&mut reader, lists)?;
    Ok(Loaded {
        half,
        cash,
        families,
        baskets,
        months,
        futures,
        options,
        prices,
        held,
        orders,
    })
}
