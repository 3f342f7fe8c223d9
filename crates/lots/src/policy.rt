// Booking policies: in which order lots are drawn, and whether a reduction is settled.
ghost use Rattle.std.specs.Prelude.{◌≡◌};
ghost use Rattle.lots.specs.Orders.{Order, Keeps, strict, fifo, lifo, whole_lot};
ghost use Rattle.std.proofs.Common.{rules};

use crate::rows::LotRow;

// What a policy is told before it settles a reduction.
#[derive(Clone, Copy, PartialEq, Eq, Debug)]
pub struct Question {
    // the units asked for
    pub units: u32,
    // how many lots match
    pub lots: usize,
    // the first of them in the policy's order
    pub earliest: LotRow,
}

// The name stands in a trait of its own, since a trait with a law takes no constant that refers to memory.
pub trait Named {
    const NAME: &'static str;
}

// Being asked changes nothing. What a policy answers is its value's meaning, which keeps the laws. No method has a default, though
// some impls are alike: what it promises hangs on the impl's order, so its proof would need a law more, and ask more of hosts.
pub trait Policy: Named {
    ghost order: { Self → Order };

    fn name(&self) -> &str
        ensures { result.now ≡ (order self.now).name };

    // The number that stands for it in the header of a record. It is no enum: hosts have policies of their own.
    fn code(&self) -> u16
        ensures { result ≡ (order self.now).code };

    // Whether the first of two lots is drawn before the second, where so many units are asked for.
    fn before(&self, units: u32, a: &LotRow, b: &LotRow) -> bool
        ensures { result ≡ (order self.now).before units a.now b.now };

    fn settles(&self, question: &Question) -> bool
        ensures { result ≡ (order self.now).settles question.now };

    ghost keeps: { (p : Self) → Keeps (order p) };
}

#[derive(Clone, Copy, PartialEq, Eq, Debug)]
pub struct Strict;

impl Named for Strict {
    const NAME: &'static str = "STRICT";
}

impl Policy for Strict {
    ghost order = { λ _. strict };

    ghost keeps = { Prim.search rules };

    fn name(&self) -> &str {
        Self::NAME
    }

    fn code(&self) -> u16 {
        1
    }

    fn before(&self, _units: u32, a: &LotRow, b: &LotRow) -> bool {
        a.serial < b.serial
    }

    fn settles(&self, question: &Question) -> bool {
        question.lots == 1
    }
}

#[derive(Clone, Copy, PartialEq, Eq, Debug)]
pub struct Fifo;

impl Named for Fifo {
    const NAME: &'static str = "FIFO";
}

impl Policy for Fifo {
    ghost order = { λ _. fifo };

    ghost keeps = { Prim.search rules };

    fn name(&self) -> &str {
        Self::NAME
    }

    fn code(&self) -> u16 {
        2
    }

    fn before(&self, _units: u32, a: &LotRow, b: &LotRow) -> bool {
        (a.key.date, a.serial) < (b.key.date, b.serial)
    }

    fn settles(&self, _question: &Question) -> bool {
        true
    }
}

#[derive(Clone, Copy, PartialEq, Eq, Debug)]
pub struct Lifo;

impl Named for Lifo {
    const NAME: &'static str = "LIFO";
}

impl Policy for Lifo {
    ghost order = { λ _. lifo };

    ghost keeps = { Prim.search rules };

    fn name(&self) -> &str {
        Self::NAME
    }

    fn code(&self) -> u16 {
        3
    }

    fn before(&self, _units: u32, a: &LotRow, b: &LotRow) -> bool {
        (a.key.date, a.serial) > (b.key.date, b.serial)
    }

    fn settles(&self, _question: &Question) -> bool {
        true
    }
}

// Whole-lot stands over any policy: a lot of exactly the asked units goes first, so that it is handed over whole.
#[derive(Clone, Copy, PartialEq, Eq, Debug)]
pub struct WholeLot<P> {
    pub below: P,
}

impl<P: Policy> Named for WholeLot<P> {
    const NAME: &'static str = P::NAME;
}

impl<P: Policy> Policy for WholeLot<P> {
    ghost order = { λ w. whole_lot (P.Policy.order w.below) };

    ghost keeps = { Prim.search rules };

    fn name(&self) -> &str {
        self.below.name()
    }

    fn code(&self) -> u16 {
        self.below.code() | 8
    }

    fn before(&self, units: u32, a: &LotRow, b: &LotRow) -> bool {
        match (a.units == units, b.units == units) {
            (true, false) => true,
            (false, true) => false,
            _ => self.below.before(units, a, b),
        }
    }

    fn settles(&self, question: &Question) -> bool {
        question.earliest.units == question.units || self.below.settles(question)
    }
}
