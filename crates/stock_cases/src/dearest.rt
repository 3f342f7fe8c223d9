// A policy of the tests' own: the higher cost goes first, then the smaller serial. It settles up to two matching lots.
ghost use Rattle.std.specs.Prelude.{◌&&◌, ◌||◌, codes, ◌==◌, nat_le, nat_lt};
ghost use Rattle.std.proofs.Common.{rules};

use lots::policy::{Named, Policy, Question};
use lots::rows::LotRow;

pub struct Dearest;

impl Named for Dearest {
    const NAME: &'static str = "DEAREST";
}

impl Policy for Dearest {
    ghost order = { λ _. record {
      name = codes "DEAREST";
      code = 96;
      before = λ u a b. nat_lt b.key.cost.number a.key.cost.number || (a.key.cost.number == b.key.cost.number && nat_lt a.serial b.serial);
      settles = λ q. nat_le q.lots 2;
    } };

    ghost keeps = { Prim.search rules };

    fn name(&self) -> &str {
        Self::NAME
    }

    fn code(&self) -> u16 {
        96
    }

    fn before(&self, _units: u32, a: &LotRow, b: &LotRow) -> bool {
        (b.key.cost.number, a.serial) < (a.key.cost.number, b.serial)
    }

    fn settles(&self, question: &Question) -> bool {
        question.lots <= 2
    }
}
