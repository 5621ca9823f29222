// What the reader makes of a line, and of lines that follow one another.
use forms::reader::read_from;
use terms::cards::Family;
use terms::half::Half;
use terms::refusal::Refusal;

#[test]
fn families_in_a_list(rt: HostRuntime) {
    let cases: [(&[u8], Result<usize, Refusal>); 4] = [
        (b"", Ok(0)),
        (b"(month (basket 0))\n", Ok(0)),
        (
            b"(family (rule 1) (window 0))\n(family (rule 0) (window 16))\n(basket)\n",
            Ok(2),
        ),
        (
            b"(family (rule 1) (window 0))\n(family (rule 0) (window 16))\n(family)\n",
            Err(Refusal::WrongForm(59)),
        ),
    ];
    for (text, answer) in cases {
        let mut families = [Family::default(); 2];
        assert_eq!(rt;
            read_from(text).list::<kinds::FamilyForm>(&mut families),
            answer
        );
    }
}

#[test]
fn forms_that_are_refused(rt: HostRuntime) {
    let cases: [(&[u8], Refusal); 9] = [
        (b"", Refusal::WrongForm(0)),
        (b"(grid)\n", Refusal::WrongForm(0)),
        (b"(family)\n", Refusal::WrongForm(7)),
        (b"(family (rule))\n", Refusal::WrongForm(8)),
        (b"(family (window 1) (rule 1))\n", Refusal::WrongForm(8)),
        (
            b"(family (rule 2) (window 17))\n",
            Refusal::OutsideField(14),
        ),
        (
            b"(family (rule 1) (window -1))\n",
            Refusal::OutsideField(25),
        ),
        (b"(family (rule 1 1) (window 99))\n", Refusal::WrongForm(8)),
        (
            b"(family (rule 1) (window 0) (x))\n",
            Refusal::WrongForm(28),
        ),
    ];
    for (text, refusal) in cases {
        assert_eq!(rt; read_from(text).form::<kinds::FamilyForm>(), Err(refusal));
    }
}

#[test]
fn halves_of_a_grid(rt: HostRuntime) {
    let cases: [(&[u8], Result<i64, Refusal>); 4] = [
        (b"(grid (half 1))\n", Ok(1)),
        (b"(grid (half 8))\n", Ok(8)),
        (b"(grid (half 3))\n", Err(Refusal::OutsideField(12))),
        (b"(gridx (half 1))\n", Err(Refusal::WrongForm(0))),
    ];
    for (text, answer) in cases {
        assert_eq!(rt; read_from(text).form::<kinds::GridForm>(), answer);
    }
}

#[test]
fn halves_as_they_are(rt: HostRuntime) {
    let cases: [(&[u8], Result<Half, Refusal>); 4] = [
        (b"(grid (half 1))\n", Ok(Half::One)),
        (b"(grid (half 8))\n", Ok(Half::Eight)),
        (b"(grid (half 3))\n", Err(Refusal::OutsideField(12))),
        (b"(gridx (half 1))\n", Err(Refusal::WrongForm(0))),
    ];
    for (text, answer) in cases {
        assert_eq!(rt; read_from(text).form::<kinds::HalfForm>(), answer);
    }
}

// The first two rows of an option behind one future, over three points, into a list of six prices.
#[test]
fn rows_of_an_option(rt: HostRuntime) {
    let cases: [(&[u8], usize, Result<usize, Refusal>); 13] = [
        (b"", 0, Ok(0)),
        (b"", 1, Err(Refusal::WrongForm(0))),
        (
            b"(row (line 1) (column 0) (prices 5 0 10000000))\n(row (line 1) (column 1) (prices 1 2 3))\n",
            2,
            Ok(6),
        ),
        (
            b"(row (line 1) (column 0) (prices 1 2 3))\n(row (line 1) (column 0) (prices 1 2 3))\n",
            2,
            Err(Refusal::WrongForm(41)),
        ),
        (
            b"(row (line 1) (column 0) (prices 1 2))\n",
            1,
            Err(Refusal::WrongForm(25)),
        ),
        (
            b"(row (line 1) (column 0) (prices 1 -2 3))\n",
            1,
            Err(Refusal::OutsideField(35)),
        ),
        (
            b"(row (line 2) (col 0) (prices 1))\n",
            1,
            Err(Refusal::WrongForm(0)),
        ),
        (
            b"(row (line 1) (col 0) (prices 1))\n",
            1,
            Err(Refusal::WrongForm(14)),
        ),
        (
            b"(row (line 1) (column 1) (price 1))\n",
            1,
            Err(Refusal::WrongForm(0)),
        ),
        (
            b"(row (lines 2) (column 1))\n",
            1,
            Err(Refusal::WrongForm(5)),
        ),
        (b"(row (line 1))\n", 1, Err(Refusal::WrongForm(13))),
        (
            b"(row (line 1) (column 0))\n",
            1,
            Err(Refusal::WrongForm(24)),
        ),
        (
            b"(row (line 1) (column 0) (prices 1 2 3) (x))\n",
            1,
            Err(Refusal::WrongForm(40)),
        ),
    ];
    for (text, count, answer) in cases {
        let mut prices = [0; 6];
        assert_eq!(rt;
            read_from(text).rows(1, Half::One, count, &mut prices),
            answer
        );
    }
}

#[test]
fn a_change_may_be_below_0(rt: HostRuntime) {
    let text =
        b"(row (line 0) (column 0) (prices 1 2 3))\n(row (line 0) (column 1) (prices 1 2 3))\n(row (line 0) (column 2) (prices 1 2 3))\n(row (line 0) (column 3) (prices -1 -10000000 3))\n";
    let mut prices = [0; 12];
    assert_eq!(rt; read_from(text).rows(0, Half::One, 4, &mut prices), Ok(12));
    assert_eq!(rt; prices, [1, 2, 3, 1, 2, 3, 1, 2, 3, -1, -10_000_000, 3]);
}
