// Good texts, and what becomes of them where something in them is changed.
use crate::lending::{FUTURE, changed, joined, told};
use std::test::Fail;
use terms::refusal::Refusal;

// One future and one option on it, with its rows.
const OPTION: &str =
    "(grid (half 1))\n(family (rule 1) (window 0))\n(basket (family 0) (rule 1))\n(month (basket 0))\n(future (month 0) (price 100000) (spot 100000) (change 0) (rates 1000 1500 2000) (limits 10 20))\n(option (month 0))\n(row (line 1) (column 0) (prices 5 5 5))\n(row (line 1) (column 1) (prices 5 5 5))\n(row (line 1) (column 2) (prices 5 5 5))\n(row (line 1) (column 3) (prices -1 0 1))\n(row (line 1) (column 4) (prices -1 0 1))\n(row (line 1) (column 5) (prices -1 0 1))\n(row (line 1) (column 6) (prices -1 0 1))\n(cash (amount 500000))\n";

#[test]
fn changes_of_an_option(rt: HostRuntime) -> Result<(), Fail> {
    let cases: [(&str, &str, Result<(), Refusal>); 21] = [
        // a row's line is not due
        (
            "(row (line 1)",
            "(row (line 0)",
            Err(Refusal::WrongForm(209)),
        ),
        // the same, and its column form is wrong
        (
            "(line 1) (column 0)",
            "(line 9) (colum 0)",
            Err(Refusal::WrongForm(209)),
        ),
        // a row's column is not due
        ("(column 0)", "(column 1)", Err(Refusal::WrongForm(209))),
        // the same, and a price is out of its field
        (
            "(column 0) (prices 5 5 5)",
            "(column 1) (prices -5 5 5)",
            Err(Refusal::WrongForm(209)),
        ),
        // a row twice
        ("(column 1)", "(column 0)", Err(Refusal::WrongForm(250))),
        // column 7
        ("(column 6)", "(column 7)", Err(Refusal::WrongForm(458))),
        // the line form's head is wrong, the column isn't due
        (
            "(line 1) (column 0)",
            "(lin 1) (column 5)",
            Err(Refusal::WrongForm(214)),
        ),
        // the line form's count is wrong
        ("(line 1)", "(line 1 1)", Err(Refusal::WrongForm(214))),
        // the column form's head is wrong
        ("(column 0)", "(colum 0)", Err(Refusal::WrongForm(223))),
        // the column form's count is wrong
        ("(column 0)", "(column)", Err(Refusal::WrongForm(223))),
        // a row in its turn with too few prices
        (
            "(prices 5 5 5)",
            "(prices 5 5)",
            Err(Refusal::WrongForm(234)),
        ),
        // a row in its turn with too many, one of them out of its field
        (
            "(prices 5 5 5)",
            "(prices -5 5 5 5)",
            Err(Refusal::WrongForm(234)),
        ),
        // a row in its turn with a price out of its field
        (
            "(prices 5 5 5)",
            "(prices 5 -5 5)",
            Err(Refusal::OutsideField(244)),
        ),
        // the same in a column of changes
        (
            "(prices -1 0 1)",
            "(prices -10000001 0 1)",
            Err(Refusal::OutsideField(365)),
        ),
        // a row without prices
        (
            "(column 0) (prices 5 5 5)",
            "(column 0)",
            Err(Refusal::WrongForm(233)),
        ),
        // the last row is missing
        (
            "(row (line 1) (column 6) (prices -1 0 1))\n",
            "",
            Err(Refusal::WrongForm(458)),
        ),
        // the last row and the cash are missing
        (
            "(row (line 1) (column 6) (prices -1 0 1))\n(cash (amount 500000))\n",
            "",
            Err(Refusal::WrongForm(458)),
        ),
        // a row too many
        (
            "(cash",
            "(row (line 2) (column 0) (prices 5 5 5))\n(cash",
            Err(Refusal::WrongForm(500)),
        ),
        // a future behind an option
        (
            "(row",
            "(future (month 0) (price 1) (spot 1) (change 0) (rates 1 1 1) (limits 0 0))\n(row",
            Err(Refusal::WrongForm(209)),
        ),
        // an option and no future
        (
            "(future (month 0) (price 100000) (spot 100000) (change 0) (rates 1000 1500 2000) (limits 10 20))\n",
            "",
            Err(Refusal::WrongForm(93)),
        ),
        // an option that names nothing
        (
            "(option (month 0)",
            "(option (month 999999999999999)",
            Err(Refusal::BadCard(4)),
        ),
    ];
    for (old, new, answer) in cases {
        let text = changed(rt.alloc(), OPTION, old, new)?;
        assert_eq!(rt; told(text.as_bytes()), answer);
    }
    Ok(())
}

#[test]
fn changes_of_a_future(rt: HostRuntime) -> Result<(), Fail> {
    let cases: [(&str, &str, Result<(), Refusal>); 15] = [
        // a row without options
        (
            "(cash",
            "(row (line 1) (column 0) (prices 5 5 5))\n(cash",
            Err(Refusal::WrongForm(190)),
        ),
        // no cash
        ("(cash (amount 500000))\n", "", Err(Refusal::WrongForm(190))),
        // cash behind a held record
        (
            "(cash",
            "(held (line 0) (net 1) (price 1))\n(cash",
            Err(Refusal::WrongForm(190)),
        ),
        // a third family
        (
            "(basket (family",
            "(family (rule 1) (window 0))\n(family (rule 1) (window 0))\n(basket (family",
            Err(Refusal::WrongForm(74)),
        ),
        // cash too large
        ("500000", "100000000000001", Err(Refusal::OutsideField(204))),
        // cash below 0
        ("500000", "-1", Err(Refusal::OutsideField(204))),
        // cash at its bound
        ("500000", "100000000000000", Ok(())),
        // a rate out of its field
        (
            "1000 1500 2000",
            "0 1500 2000",
            Err(Refusal::OutsideField(158)),
        ),
        // two rates
        ("1000 1500 2000", "1000 1500", Err(Refusal::WrongForm(151))),
        // falling rates
        ("1000 1500 2000", "1000 900 2000", Err(Refusal::BadCard(3))),
        // falling limits
        ("10 20", "20 10", Err(Refusal::BadCard(3))),
        // a basket that names nothing
        ("(family 0)", "(family -5)", Err(Refusal::BadCard(1))),
        // the same, and a later number out of its field
        (
            "(family 0) (rule 1)",
            "(family 1) (rule 2)",
            Err(Refusal::OutsideField(70)),
        ),
        // a month that names nothing
        ("(basket 0)", "(basket 1)", Err(Refusal::BadCard(2))),
        // a future that names nothing
        ("(month 0)", "(month 1)", Err(Refusal::BadCard(3))),
    ];
    for (old, new, answer) in cases {
        let text = changed(rt.alloc(), FUTURE, old, new)?;
        assert_eq!(rt; told(text.as_bytes()), answer);
    }
    Ok(())
}

#[test]
fn forms_at_the_end(rt: HostRuntime) -> Result<(), Fail> {
    let cases: [(&str, Result<(), Refusal>); 10] = [
        // cash twice
        ("(cash (amount 1))\n", Err(Refusal::WrongForm(213))),
        // held behind an order
        (
            "(order (line 0) (net 1) (price 1))\n(held (line 0) (net 1) (price 1))\n",
            Err(Refusal::WrongForm(248)),
        ),
        // a held net out of its field
        (
            "(held (line 0) (net -10001) (price 1))\n",
            Err(Refusal::OutsideField(233)),
        ),
        // a held price out of its field
        (
            "(held (line 0) (net 1) (price -1))\n",
            Err(Refusal::OutsideField(243)),
        ),
        // a held record that names nothing
        (
            "(held (line 1) (net 1) (price 1))\n",
            Err(Refusal::BadCard(4)),
        ),
        // a line held twice
        (
            "(held (line 0) (net 1) (price 1))\n(held (line 0) (net 1) (price 1))\n",
            Err(Refusal::BadCard(5)),
        ),
        // an order with wild numbers
        (
            "(order (line -999999999999999) (net 999999999999999) (price -1))\n",
            Ok(()),
        ),
        // an order without price
        ("(order (line 0) (net 1))\n", Err(Refusal::WrongForm(236))),
        // an order with two nets
        (
            "(order (line 0) (net 1 1) (price 1))\n",
            Err(Refusal::WrongForm(229)),
        ),
        // an order with two prices
        (
            "(order (line 0) (net 1) (price 1) (price 1))\n",
            Err(Refusal::WrongForm(247)),
        ),
    ];
    for (more, answer) in cases {
        let text = joined(rt.alloc(), FUTURE, more)?;
        assert_eq!(rt; told(text.as_bytes()), answer);
    }
    Ok(())
}
