use crate::dearest::Dearest;
use crate::shelf::Answer::*;
use crate::shelf::*;
use lots::policy::*;
use lots::rows::*;
use matching::wanted::{Draw, Wanted};
use weights::*;

#[test]
fn drawn_in_the_policys_order(rt: HostRuntime) {
    let mut shelf = Shelf::new();
    assert_eq!(rt; shelf.buy(JANUARY, 1000), Serial(1));
    assert_eq!(rt; shelf.buy(FEBRUARY, 400), Serial(2));
    let mut by_fifo = shelf.duplicate();
    assert_eq!(rt;
        by_fifo.sell(&Fifo, ANY, 1200),
        Draws(2, (1, 1000), (2, 200), NONE)
    );
    let mut by_lifo = shelf.duplicate();
    assert_eq!(rt;
        by_lifo.sell(&Lifo, ANY, 1200),
        Draws(2, (2, 400), (1, 800), NONE)
    );
    let mut in_part = shelf.duplicate();
    assert_eq!(rt;
        in_part.sell(&Fifo, ANY, 400),
        Draws(1, (1, 400), NONE, NONE)
    );
    let mut whole = shelf.duplicate();
    assert_eq!(rt;
        whole.sell(&WholeLot { below: Fifo }, ANY, 400),
        Draws(1, (2, 400), NONE, NONE)
    );
    // no lot has exactly 12, so whole-lot leaves it to the policy below
    assert_eq!(rt;
        shelf.sell(&WholeLot { below: Lifo }, ANY, 1200),
        Draws(2, (2, 400), (1, 800), NONE)
    );
}

#[test]
fn what_is_left_to_draw_is_no_whole_lot(rt: HostRuntime) {
    // 8 asked: FIFO empties the 6 and has 2 left to draw, which lot 3 has exactly
    let mut shelf = Shelf::new();
    assert_eq!(rt; shelf.buy(part(100, 20240101), 600), Serial(1));
    assert_eq!(rt; shelf.buy(part(100, 20240102), 400), Serial(2));
    assert_eq!(rt; shelf.buy(part(100, 20240103), 200), Serial(3));
    assert_eq!(rt;
        shelf.sell(&WholeLot { below: Fifo }, ANY, 800),
        Draws(2, (1, 600), (2, 200), NONE)
    );
}

#[test]
fn ties_in_date(rt: HostRuntime) {
    let mut shelf = Shelf::new();
    assert_eq!(rt; shelf.buy(part(300, 20240101), 100), Serial(1));
    assert_eq!(rt; shelf.buy(part(200, 20240101), 100), Serial(2));
    assert_eq!(rt; shelf.buy(part(100, 20240101), 100), Serial(3));
    assert_eq!(rt; shelf.sell(&Fifo, ANY, 50), Draws(1, (1, 50), NONE, NONE));
    assert_eq!(rt;
        shelf.sell(&Lifo, ANY, 150),
        Draws(2, (3, 100), (2, 50), NONE)
    );
    assert_eq!(rt;
        shelf.sell(&Fifo, ANY, 70),
        Draws(2, (1, 50), (2, 20), NONE)
    );
}

#[test]
fn ties_in_units(rt: HostRuntime) {
    let mut shelf = Shelf::new();
    assert_eq!(rt; shelf.buy(part(100, 20240101), 900), Serial(1));
    assert_eq!(rt; shelf.buy(part(100, 20240102), 500), Serial(2));
    assert_eq!(rt; shelf.buy(part(100, 20240103), 500), Serial(3));
    assert_eq!(rt;
        shelf.sell(&WholeLot { below: Lifo }, ANY, 500),
        Draws(1, (3, 500), NONE, NONE)
    );
    // two lots match, and the earliest has exactly what is asked: whole-lot over STRICT settles, STRICT does not
    assert_eq!(rt; shelf.sell(&Strict, ANY, 500), Refused(23));
    assert_eq!(rt;
        shelf.sell(&WholeLot { below: Strict }, ANY, 500),
        Draws(1, (2, 500), NONE, NONE)
    );
    assert_eq!(rt; shelf.buy(part(100, 20240104), 900), Serial(4));
    assert_eq!(rt;
        shelf.sell(&WholeLot { below: Fifo }, ANY, 900),
        Draws(1, (1, 900), NONE, NONE)
    );
}

#[test]
fn one_cost_of_two_dates(rt: HostRuntime) {
    let by_cost = Wanted {
        cost: Some(euro(2500)),
        ..ANY
    };
    let by_date = Wanted {
        date: Some(20240102),
        ..ANY
    };
    let by_both = Wanted {
        cost: Some(euro(2500)),
        date: Some(20240102),
        ..ANY
    };
    let mut shelf = Shelf::new();
    assert_eq!(rt; shelf.buy(part(2500, 20240101), 300), Serial(1));
    assert_eq!(rt; shelf.buy(part(2500, 20240102), 300), Serial(2));
    assert_eq!(rt; shelf.buy(part(2500, 20240101), 200), Serial(1));
    assert_eq!(rt; shelf.look(1), Units(500));
    assert_eq!(rt; shelf.sell(&Strict, by_cost, 100), Refused(23));
    assert_eq!(rt;
        shelf.sell(&Strict, by_date, 100),
        Draws(1, (2, 100), NONE, NONE)
    );
    assert_eq!(rt;
        shelf.sell(&Strict, by_both, 100),
        Draws(1, (2, 100), NONE, NONE)
    );
    assert_eq!(rt; shelf.look(2), Units(100));
}

#[test]
fn a_cost_counts_with_its_commodity(rt: HostRuntime) {
    let dollars = Cost {
        number: 2500,
        commodity: 3,
    };
    let in_dollars = Wanted {
        cost: Some(dollars),
        ..ANY
    };
    let mut shelf = Shelf::new();
    assert_eq!(rt; shelf.buy(part(2500, 20240101), 100), Serial(1));
    assert_eq!(rt;
        shelf.buy(
            Key {
                cost: dollars,
                ..part(2500, 20240101)
            },
            100
        ),
        Serial(2)
    );
    // another account's lot matches none of these sales
    assert_eq!(rt;
        shelf.buy(
            Key {
                account: 2,
                ..part(2500, 20240101)
            },
            100
        ),
        Serial(3)
    );
    assert_eq!(rt;
        shelf.sell(&Strict, in_dollars, 40),
        Draws(1, (2, 40), NONE, NONE)
    );
    assert_eq!(rt; shelf.sell(&Fifo, ANY, 161), Refused(22));
    assert_eq!(rt;
        shelf.sell(&Fifo, ANY, 160),
        Draws(2, (1, 100), (2, 60), NONE)
    );
    assert_eq!(rt; shelf.look(3), Units(100));
}

#[test]
fn refused_22_and_23(rt: HostRuntime) {
    let mut shelf = Shelf::new();
    assert_eq!(rt; shelf.buy(JANUARY, 1000), Serial(1));
    assert_eq!(rt; shelf.buy(FEBRUARY, 400), Serial(2));
    assert_eq!(rt; shelf.sell(&Strict, ANY, 1500), Refused(22));
    assert_eq!(rt; shelf.sell(&Strict, ANY, 1400), Refused(23));
    assert_eq!(rt; shelf.sell(&Strict, ANY, 300), Refused(23));
    assert_eq!(rt; shelf.look(1), Units(1000));
    assert_eq!(rt; shelf.look(2), Units(400));
    // all that is held is not too much to ask
    assert_eq!(rt;
        shelf.sell(&Fifo, ANY, 1400),
        Draws(2, (1, 1000), (2, 400), NONE)
    );
    assert_eq!(rt; shelf.sell(&Fifo, ANY, 1), Refused(22));
}

#[test]
fn an_emptied_lot_is_gone(rt: HostRuntime) {
    let mut shelf = Shelf::new();
    assert_eq!(rt; shelf.buy(JANUARY, 1000), Serial(1));
    assert_eq!(rt; shelf.buy(FEBRUARY, 400), Serial(2));
    assert_eq!(rt;
        shelf.sell(&Fifo, ANY, 1000),
        Draws(1, (1, 1000), NONE, NONE)
    );
    assert_eq!(rt; shelf.look(1), NoLot);
    // the same key again is a new lot, with a serial of its own, and of the earlier date
    assert_eq!(rt; shelf.buy(JANUARY, 700), Serial(3));
    assert_eq!(rt; shelf.sell(&Fifo, ANY, 100), Draws(1, (3, 100), NONE, NONE));
    assert_eq!(rt; shelf.look(3), Units(600));
}

#[test]
fn two_hundred_and_fifty_six_lots(rt: HostRuntime) {
    let mut shelf = Shelf::new();
    for day in 0..256u32 {
        assert_eq!(rt; shelf.buy(part(100, day), 10), Serial(day + 1));
    }
    assert_eq!(rt; shelf.table.lots().len(), 256);
    assert_eq!(rt; shelf.buy(part(100, 256), 10), Refused(24));
    // no new lot is needed for a key that is open
    assert_eq!(rt; shelf.buy(part(100, 7), 5), Serial(8));
    // the place of an emptied lot is used again, its serial is not
    assert_eq!(rt; shelf.sell(&Lifo, ANY, 10), Draws(1, (256, 10), NONE, NONE));
    assert_eq!(rt; shelf.buy(part(100, 256), 10), Serial(257));
    assert_eq!(rt; shelf.sell(&Fifo, ANY, 2566), Refused(22));
    assert_eq!(rt;
        shelf.sell(&Fifo, ANY, 2565),
        Draws(256, (1, 10), (2, 10), (3, 10))
    );
    assert_eq!(rt; shelf.table.lots().len(), 0);
    assert_eq!(rt; shelf.table.next_serial(), 258);
}

#[test]
fn units_and_costs_at_their_limits(rt: HostRuntime) {
    let dear = part(99_999_999, 20240101);
    let mut shelf = Shelf::new();
    assert_eq!(rt; shelf.buy(dear, 0), NoLot);
    assert_eq!(rt; shelf.buy(dear, 100_000_000), NoLot);
    assert_eq!(rt; shelf.buy(part(100_000_000, 20240101), 1), NoLot);
    assert_eq!(rt; shelf.buy(dear, 99_999_998), Serial(1));
    assert_eq!(rt; shelf.buy(dear, 2), Refused(21));
    assert_eq!(rt; shelf.look(1), Units(99_999_998));
    assert_eq!(rt; shelf.buy(dear, 1), Serial(1));
    assert_eq!(rt; shelf.buy(dear, 1), Refused(21));
    assert_eq!(rt; shelf.buy(part(0, 20240102), 1), Serial(2));
    assert_eq!(rt; shelf.sell(&Lifo, ANY, 100_000_001), Refused(22));
    assert_eq!(rt;
        shelf.sell(&Lifo, ANY, 100_000_000),
        Draws(2, (2, 1), (1, 99_999_999), NONE)
    );
}

#[test]
fn whole_lot_over_whole_lot(rt: HostRuntime) {
    let mut shelf = Shelf::new();
    assert_eq!(rt; shelf.buy(JANUARY, 1000), Serial(1));
    assert_eq!(rt; shelf.buy(FEBRUARY, 400), Serial(2));
    assert_eq!(rt;
        shelf.sell(
            &WholeLot {
                below: WholeLot { below: Fifo }
            },
            ANY,
            400
        ),
        Draws(1, (2, 400), NONE, NONE)
    );
    assert_eq!(rt;
        shelf.sell(
            &WholeLot {
                below: WholeLot { below: Fifo }
            },
            ANY,
            300
        ),
        Draws(1, (1, 300), NONE, NONE)
    );
    let twice = WholeLot {
        below: WholeLot { below: Fifo },
    };
    assert_eq!(rt; (twice.code(), twice.name()), (10, "FIFO"));
}

#[test]
fn names_and_codes(rt: HostRuntime) {
    assert_eq!(rt; (Strict.code(), Fifo.code(), Lifo.code()), (1, 2, 3));
    assert_eq!(rt;
        (Strict.name(), Fifo.name(), Lifo.name()),
        ("STRICT", "FIFO", "LIFO")
    );
    let over_lifo = WholeLot { below: Lifo };
    assert_eq!(rt; (over_lifo.code(), over_lifo.name()), (11, "LIFO"));
    // 96 is 64 and 32, so the bit of value 8 is new to it
    assert_eq!(rt; WholeLot { below: Dearest }.code(), 104);
    assert_eq!(rt;
        (<WholeLot<Lifo>>::NAME, <WholeLot<Dearest>>::NAME),
        ("LIFO", "DEAREST")
    );
}

#[test]
fn a_policy_of_the_tests_own(rt: HostRuntime) {
    let mut shelf = Shelf::new();
    assert_eq!(rt; shelf.buy(part(100, 20240101), 100), Serial(1));
    assert_eq!(rt; shelf.buy(part(300, 20240102), 100), Serial(2));
    assert_eq!(rt;
        shelf.sell(&Dearest, ANY, 150),
        Draws(2, (2, 100), (1, 50), NONE)
    );
    assert_eq!(rt; shelf.buy(part(200, 20240103), 100), Serial(3));
    assert_eq!(rt; shelf.buy(part(300, 20240104), 100), Serial(4));
    // three match, which it settles only where whole-lot finds a lot of exactly what is asked
    assert_eq!(rt; shelf.sell(&Dearest, ANY, 100), Refused(23));
    assert_eq!(rt;
        shelf.sell(&WholeLot { below: Dearest }, ANY, 100),
        Draws(1, (4, 100), NONE, NONE)
    );
}

#[test]
fn weights_are_exact(rt: HostRuntime) {
    let january = draw_weight(&Draw {
        lot: LotRow {
            key: JANUARY,
            units: 1000,
            serial: 1,
        },
        units: 1000,
    });
    assert_eq!(rt; (january.commodity, january.amount), (1, -2_450_000));
    let most = LotRow {
        key: part(99_999_999, 20240103),
        units: 99_999_999,
        serial: 2,
    };
    assert_eq!(rt;
        draw_weight(&Draw {
            lot: most,
            units: 99_999_999,
        },)
        .amount,
        -9_999_999_800_000_001
    );
    let plain = plain_weight(-833, 4);
    assert_eq!(rt; (plain.commodity, plain.amount), (4, -83_300));
}
