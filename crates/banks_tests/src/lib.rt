#![tactic(auto)]

// Tests of the banks: every refusal of every constructor, on both sides of each bound, with its number and place.
#[cfg(test)]
mod tests {
    use banks::bank::Bank;
    use banks::pair::Pair;
    use banks::scale::Scale;
    use banks::strip::Strip;
    use banks::table::Table;
    use ramp::Ramp;
    use std::test::Fail;
    use terms::cards::{Limits, Line, Rates};
    use terms::half::Half;
    use terms::refusal::Refusal;

    // What a caller is told: the number and the place of a refusal, or 0 and 0 for a bank that was made.
    fn told<B: Drop>(outcome: Result<B, Refusal>) -> (u8, usize) {
        match outcome {
            Ok(_) => (0, 0),
            Err(why) => (why.number(), why.place()),
        }
    }

    // A future in the middle of every range. Its month names nothing, and a strip does not read it.
    fn card() -> Line {
        let rates = Rates {
            r1: 10,
            r2: 20,
            r3: 30,
        };
        let limits = Limits { a: 5, b: 6 };
        Line {
            month: 99,
            price: 100,
            spot: 200,
            change: 3,
            rates,
            limits,
        }
    }

    fn rated(r1: i64, r2: i64, r3: i64) -> Line {
        Line {
            rates: Rates { r1, r2, r3 },
            ..card()
        }
    }

    fn limited(a: i64, b: i64) -> Line {
        Line {
            limits: Limits { a, b },
            ..card()
        }
    }

    #[test]
    fn a_strip_judges_each_number_of_a_card(rt: HostRuntime) {
        let good = [
            Line { price: 0, ..card() },
            Line {
                price: 10_000_000,
                ..card()
            },
            Line { spot: 0, ..card() },
            Line {
                spot: 10_000_000,
                ..card()
            },
            Line {
                change: 0,
                ..card()
            },
            Line {
                change: 1_000_000,
                ..card()
            },
            rated(1, 1, 1),
            rated(10_000, 10_000, 10_000),
            limited(0, 0),
            limited(10_000, 10_000),
        ];
        for line in good {
            assert_eq!(rt; told(Strip::new(1, &[card(), line])), (0, 0));
        }
        let bad = [
            Line {
                price: -1,
                ..card()
            },
            Line {
                price: 10_000_001,
                ..card()
            },
            Line { spot: -1, ..card() },
            Line {
                spot: 10_000_001,
                ..card()
            },
            Line {
                change: -1,
                ..card()
            },
            Line {
                change: 1_000_001,
                ..card()
            },
            rated(0, 1, 1),
            rated(2, 1, 3),
            rated(1, 3, 2),
            rated(1, 1, 10_001),
            limited(-1, 0),
            limited(2, 1),
            limited(0, 10_001),
        ];
        for line in bad {
            assert_eq!(rt; told(Strip::new(1, &[card(), line])), (4, 1));
        }
    }

    const HALVES: [(i64, u8); 11] = [
        (1, 0),
        (2, 0),
        (4, 0),
        (8, 0),
        (0, 6),
        (3, 6),
        (5, 6),
        (7, 6),
        (9, 6),
        (16, 6),
        (-1, 6),
    ];

    #[test]
    fn a_strip_judges_its_half_and_count_after_its_cards(rt: HostRuntime) {
        for (half, number) in HALVES {
            assert_eq!(rt; told(Strip::new(half, &[card()])), (number, 0));
        }
        let none: [Line; 0] = [];
        assert_eq!(rt; told(Strip::new(1, &none)), (6, 0));
        assert_eq!(rt; told(Strip::new(1, &[card(); 16])), (0, 0));
        assert_eq!(rt; told(Strip::new(1, &[card(); 17])), (6, 0));
        let mut many = [card(); 18];
        many[17] = limited(2, 1);
        assert_eq!(rt; told(Strip::new(3, &many)), (4, 17));
        many[4] = rated(0, 1, 1);
        assert_eq!(rt; told(Strip::new(1, &many)), (4, 4));
    }

    fn tabled(half: i64, lines: i64, list: &[i64]) -> (u8, usize) {
        told(Table::new(half, lines, list))
    }

    #[test]
    fn a_table_judges_half_and_lines_then_length_then_entries(rt: HostRuntime) {
        let one = [0; 21];
        for (half, number) in HALVES {
            if half == 1 || number == 6 {
                assert_eq!(rt; tabled(half, 1, &one), (number, 0));
            }
        }
        assert_eq!(rt; tabled(1, 0, &one), (6, 0));
        assert_eq!(rt; tabled(1, 17, &one), (6, 0));
        assert_eq!(rt; tabled(1, -1, &one), (6, 0));
        assert_eq!(rt; tabled(1, 16, &[0; 336]), (0, 0));
        assert_eq!(rt; tabled(8, 15, &[0; 1785]), (0, 0));
        assert_eq!(rt; tabled(1, 2, &one), (5, 42));
        assert_eq!(rt; tabled(2, 1, &one), (5, 35));
        assert_eq!(rt; tabled(1, 1, &[-1; 20]), (5, 21));
        assert_eq!(rt; tabled(1, 1, &[0; 22]), (5, 21));
    }

    // Two lines of three points: an entry at a place, all others 0.
    fn with(place: usize, entry: i64) -> (u8, usize) {
        let mut list = [0; 42];
        if let Some(slot) = list.get_mut(place) {
            *slot = entry;
        }
        tabled(1, 2, &list)
    }

    #[test]
    fn a_table_judges_an_entry_by_its_column(rt: HostRuntime) {
        for place in [0, 8, 21, 29] {
            assert_eq!(rt; with(place, 10_000_000), (0, 0));
            assert_eq!(rt; with(place, 10_000_001), (2, place));
            assert_eq!(rt; with(place, -1), (2, place));
        }
        for place in [9, 20, 30, 41] {
            assert_eq!(rt; with(place, -10_000_000), (0, 0));
            assert_eq!(rt; with(place, 10_000_000), (0, 0));
            assert_eq!(rt; with(place, -10_000_001), (2, place));
            assert_eq!(rt; with(place, 10_000_001), (2, place));
        }
        assert_eq!(rt; tabled(1, 1, &[-1; 21]), (2, 0));
    }

    #[test]
    fn a_pair_judges_halves_and_lines(rt: HostRuntime) -> Result<(), Fail> {
        let short = Strip::new(1, &[card()])?;
        let long = Strip::new(1, &[card(); 15])?;
        assert_eq!(rt; told(Pair::new(short, long)), (0, 0));
        assert_eq!(rt; told(Pair::new(long, Pair::new(short, short)?)), (6, 0));
        assert_eq!(rt; told(Pair::new(short, Strip::new(2, &[card()])?)), (6, 0));
        assert_eq!(rt; told(Pair::new(Strip::new(8, &[card()])?, short)), (6, 0));
        Ok(())
    }

    #[test]
    fn a_scale_judges_its_factor_then_the_reach(rt: HostRuntime) -> Result<(), Fail> {
        let small = Strip::new(1, &[card()])?;
        for (factor, number) in [(0, 9), (1, 0), (100, 0), (101, 9), (-1, 9)] {
            assert_eq!(rt; told(Scale::new(small, factor)), (number, 0));
        }
        // A reach of 800,000,000,000: twice that is allowed, and three times is not.
        let table = Table::new(1, 1, &[0; 21])?;
        assert_eq!(rt; told(Scale::new(table, 2)), (0, 0));
        assert_eq!(rt; told(Scale::new(table, 3)), (7, 0));
        assert_eq!(rt; told(Scale::new(table, 101)), (9, 0));
        // A reach of 80,000 x 250,000, which a hundred times over is the bound itself; one kopeck more passes it.
        let bound = Strip::new(
            1,
            &[Line {
                price: 250_000,
                spot: 0,
                change: 0,
                ..card()
            }],
        )?;
        assert_eq!(rt; told(Scale::new(bound, 100)), (0, 0));
        let more = Strip::new(
            1,
            &[Line {
                price: 250_001,
                spot: 0,
                change: 0,
                ..card()
            }],
        )?;
        assert_eq!(rt; told(Scale::new(more, 100)), (7, 0));
        Ok(())
    }

    #[test]
    fn prices_stand_where_the_rules_put_them(rt: HostRuntime) -> Result<(), Fail> {
        let strip = Strip::new(2, &[card()])?;
        assert_eq!(rt; strip.reach(), 8_016_000);
        let levels = [7_984_000, 7_992_000, 8_000_000, 8_008_000, 8_016_000];
        for (point, level) in levels.iter().enumerate() {
            assert_eq!(rt; strip.price(0, point, 1), *level);
        }
        for (column, price) in [(3, -240_000), (4, 240_000), (5, 0), (6, 0), (7, 0)] {
            assert_eq!(rt; strip.price(0, 1, column), price);
        }
        assert_eq!(rt; strip.price(1, 0, 0), 0);
        assert_eq!(rt; strip.price(0, 5, 0), 0);
        let mut list = [0; 70];
        list[58] = -7;
        let pair = Pair::new(strip, Scale::new(Table::new(2, 2, &list)?, 2)?)?;
        assert_eq!(rt; pair.lines(), 3);
        assert_eq!(rt; pair.reach(), 1_600_000_000_000);
        assert_eq!(rt; pair.price(0, 4, 0), 8_016_000);
        assert_eq!(rt; pair.price(2, 3, 4), -1_120_000);
        Ok(())
    }

    #[test]
    fn layers_stand_over_a_bank_of_another_make(rt: HostRuntime) -> Result<(), Fail> {
        let low = Ramp {
            half: Half::Two,
            start: 1_000,
            tick: 5,
        };
        let high = Ramp {
            half: Half::Two,
            start: 4_000,
            tick: 0,
        };
        let pile = ramp::pile(low, high, 3, 10)?;
        assert_eq!(rt; pile.price(0, 4, 0), 10_200);
        assert_eq!(rt; pile.price(1, 4, 2), 120_000);
        assert_eq!(rt; ramp::swing(&pile, 0), 200);
        assert_eq!(rt; ramp::swing(&pile, 1), 0);
        assert_eq!(rt; told(ramp::pile(low, high, 3, 101)), (9, 0));
        assert_eq!(rt;
            told(ramp::pile(
                low,
                Ramp {
                    half: Half::One,
                    ..high
                },
                3,
                1,
            )),
            (6, 0)
        );
        Ok(())
    }
}
