// The postings of a draft: at most 16, each within its ranges.
ghost use Rattle.booking.specs.Ranges.{posting_in_range};

use crate::posting::{Posting, PostingKind};
use crate::ranged::{Ranged, RangedList};

// The most postings of a draft.
pub const MOST_POSTINGS: usize = 16;

pub type Postings = RangedList<Posting, MOST_POSTINGS>;

impl Ranged for Posting {
    ghost in_range = { posting_in_range };

    fn filler() -> Posting {
        Posting {
            line: 0,
            account: 0,
            kind: PostingKind::Blank,
        }
    }
}
