// Tests of the margin through the code: figures and worlds of small books, worked by hand. Values are written out, so that what is expected does not come from the code.
#![tactic(auto)]

#[cfg(test)]
mod tests {
    use banks::strip::Strip;
    use cover::Blocked;
    use cover::judged::margin_of;
    use deck::deck::Deck;
    use deck::given::Given;
    use margin::book::{Open, Position};
    use margin::choice::{Counted, Kept};
    use std::alloc::Global;
    use std::test::Fail;
    use terms::cards::{Basket, Family, Limits, Line, Month, Rates};

    const NETTED: Family = Family { rule: 1, window: 0 };

    // A future at 100,000 kopecks with the limits 10 and 20.
    fn future(month: i64, change: i64) -> Line {
        let rates = Rates {
            r1: 1000,
            r2: 1500,
            r3: 2000,
        };
        let limits = Limits { a: 10, b: 20 };
        Line {
            month,
            price: 100_000,
            spot: 100_000,
            change,
            rates,
            limits,
        }
    }

    // What the margin answers for a book of futures on a grid of half 1.
    fn answered(
        heap: Global,
        given: &Given,
        positions: &[Position],
        orders: &[Open],
    ) -> Option<Blocked> {
        let bank = Strip::new(1, given.lines).ok()?;
        let deck = Deck::judged(heap, given, &[], given.lines.len()).ok()?;
        margin_of(&bank, &deck, positions, orders)
    }

    // What it answers for one future in one netted basket.
    fn alone(heap: Global, positions: &[Position], orders: &[Open]) -> Option<Blocked> {
        let given = Given {
            families: &[NETTED],
            baskets: &[Basket { family: 0, rule: 1 }],
            months: &[Month { basket: 0 }],
            lines: &[future(0, 0)],
            futures: 1,
        };
        answered(heap, &given, positions, orders)
    }

    // What is blocked for so many of it, and orders for more.
    fn one(heap: Global, net: i64, cost: i64, orders: &[Open]) -> Option<u64> {
        alone(heap, &[Position { net, cost }], orders).map(|answer| answer.amount)
    }

    #[test]
    fn one_future(rt: HostRuntime) {
        let heap = rt.alloc();
        assert_eq!(rt; one(heap, 0, 0, &[]), Some(0));
        assert_eq!(rt; one(heap, 10, 80_000_000_000, &[]), Some(100_000));
        assert_eq!(rt; one(heap, 12, 96_000_000_000, &[]), Some(130_000));
        assert_eq!(rt; one(heap, -12, -96_000_000_000, &[]), Some(130_000));
        assert_eq!(rt; one(heap, 21, 168_000_000_000, &[]), Some(270_000));
        assert_eq!(rt; one(heap, 7, 56_000_000_000, &[]), Some(70_000));
    }

    #[test]
    fn one_future_with_an_order(rt: HostRuntime) {
        let heap = rt.alloc();
        let sell = Open {
            line: 0,
            left: -5,
            limit: 100_000,
        };
        assert_eq!(rt; one(heap, 12, 96_000_000_000, &[sell]), Some(130_000));
        let low = Open {
            line: 0,
            left: 1,
            limit: 90_000,
        };
        assert_eq!(rt; one(heap, 0, 0, &[low]), Some(0));
        let high = Open {
            line: 0,
            left: 1,
            limit: 90_001,
        };
        assert_eq!(rt; one(heap, 0, 0, &[high]), Some(1));
        let far = Open {
            line: 0,
            left: 10_001,
            limit: 90_001,
        };
        assert_eq!(rt; one(heap, 0, 0, &[far]), None);
    }

    // Two futures in two months of one basket, 3 held and 2 sold at 100,000 kopecks, and a buy of one at 95,000. The
    // rule is a number, as a card holds it.
    fn calendar(heap: Global, rule: i64) -> Option<Blocked> {
        let given = Given {
            families: &[NETTED],
            baskets: &[Basket { family: 0, rule }],
            months: &[Month { basket: 0 }, Month { basket: 0 }],
            lines: &[future(0, 500), future(1, 700)],
            futures: 2,
        };
        let positions = [
            Position {
                net: 3,
                cost: 24_000_000_000,
            },
            Position {
                net: -2,
                cost: -16_000_000_000,
            },
        ];
        answered(
            heap,
            &given,
            &positions,
            &[Open {
                line: 0,
                left: 1,
                limit: 95_000,
            }],
        )
    }

    // What is blocked for it.
    fn two_months(heap: Global, rule: i64) -> Option<u64> {
        calendar(heap, rule).map(|answer| answer.amount)
    }

    #[test]
    fn a_calendar_spread(rt: HostRuntime) {
        assert_eq!(rt; two_months(rt.alloc(), 1), Some(18_400));
        assert_eq!(rt; two_months(rt.alloc(), 0), Some(37_000));
    }

    #[test]
    fn rounded_up_once(rt: HostRuntime) {
        let rates = Rates {
            r1: 1,
            r2: 1,
            r3: 1,
        };
        let small = Line {
            price: 10_000,
            spot: 3_000,
            rates,
            ..future(0, 0)
        };
        let given = Given {
            families: &[NETTED, NETTED],
            baskets: &[Basket { family: 0, rule: 1 }, Basket { family: 1, rule: 1 }],
            months: &[Month { basket: 0 }, Month { basket: 1 }],
            lines: &[small, Line { month: 1, ..small }],
            futures: 2,
        };
        let held = Position {
            net: 1,
            cost: 800_000_000,
        };
        let answer = answered(rt.alloc(), &given, &[held, held], &[]);
        assert_eq!(rt; answer.map(|answer| answer.amount), Some(1));
    }

    // Written out, so that what is expected does not come from the code.
    const KEPT: Kept = Kept {
        volatility: 0,
        rate: None,
        twist: None,
    };

    // Written out for the same reason.
    const UNCOUNTED: Counted = Counted {
        volatility: false,
        rate: false,
        twist: false,
    };

    // Nothing is held, and an open buy loses at no point: all is left out, and the order counts nowhere.
    #[test]
    fn nothing_lost(rt: HostRuntime) -> Result<(), Fail> {
        let orders = [Open {
            line: 0,
            left: 1,
            limit: 90_000,
        }];
        let answer = alone(rt.alloc(), &[], &orders).ok_or("no answer")?;
        assert_eq!(rt; answer.amount, 0);
        assert_eq!(rt; answer.world.families, [None; 2]);
        assert_eq!(rt; answer.world.baskets, [None; 4]);
        assert_eq!(rt; answer.world.months, [None; 8]);
        assert_eq!(rt; answer.world.orders, [UNCOUNTED; 32]);
        Ok(())
    }

    // Two futures in two months, one held and one sold at 100,000 kopecks, each in a basket of its own.
    fn one_against_one(heap: Global, family: Family) -> Option<Blocked> {
        let given = Given {
            families: &[family],
            baskets: &[Basket { family: 0, rule: 1 }, Basket { family: 0, rule: 1 }],
            months: &[Month { basket: 0 }, Month { basket: 1 }],
            lines: &[future(0, 0), future(1, 0)],
            futures: 2,
        };
        let positions = [
            Position {
                net: 1,
                cost: 8_000_000_000,
            },
            Position {
                net: -1,
                cost: -8_000_000_000,
            },
        ];
        answered(heap, &given, &positions, &[])
    }

    // Within a window of one point the family stands in the middle and each basket at its own worst end.
    #[test]
    fn a_window(rt: HostRuntime) -> Result<(), Fail> {
        let family = Family { rule: 1, window: 1 };
        let answer = one_against_one(rt.alloc(), family).ok_or("no answer")?;
        assert_eq!(rt; answer.amount, 20_000);
        assert_eq!(rt; answer.losses, [1_600_000_000, 0]);
        assert_eq!(rt; answer.world.families, [Some(1), None]);
        assert_eq!(rt; answer.world.baskets, [Some(0), Some(2), None, None]);
        assert_eq!(rt; answer.world.months[0], Some(KEPT));
        assert_eq!(rt; answer.world.months[1], Some(KEPT));
        Ok(())
    }

    // A half family takes the basket that loses, at the first of two points where as much is lost, and leaves the other out.
    #[test]
    fn a_half_family(rt: HostRuntime) -> Result<(), Fail> {
        let family = Family { rule: 0, window: 0 };
        let answer = one_against_one(rt.alloc(), family).ok_or("no answer")?;
        assert_eq!(rt; answer.amount, 10_000);
        assert_eq!(rt; answer.world.families, [Some(0), None]);
        assert_eq!(rt; answer.world.baskets, [Some(0), None, None, None]);
        assert_eq!(rt; answer.world.months[0], Some(KEPT));
        assert_eq!(rt; answer.world.months[1], None);
        Ok(())
    }

    // In a netted basket both months are kept, each with the rate column that is worse for it; a half basket leaves the month out
    // that gains. The open buy loses at the lowest price and where rates fall.
    #[test]
    fn months_of_a_calendar_spread(rt: HostRuntime) -> Result<(), Fail> {
        let down = Kept {
            rate: Some(3),
            ..KEPT
        };
        let up = Kept {
            rate: Some(4),
            ..KEPT
        };
        let counted = Counted {
            volatility: true,
            rate: true,
            twist: false,
        };
        let netted = calendar(rt.alloc(), 1).ok_or("no answer")?;
        assert_eq!(rt; netted.world.months[0], Some(down));
        assert_eq!(rt; netted.world.months[1], Some(up));
        assert_eq!(rt; netted.world.orders[0], counted);
        assert_eq!(rt; netted.world.orders[1], UNCOUNTED);
        let half = calendar(rt.alloc(), 0).ok_or("no answer")?;
        assert_eq!(rt; half.world.families, [Some(0), None]);
        assert_eq!(rt; half.world.months[0], Some(down));
        assert_eq!(rt; half.world.months[1], None);
        assert_eq!(rt; half.world.orders[0], counted);
        Ok(())
    }
}
