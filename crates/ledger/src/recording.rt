// The header of the record, written alone.
ghost use Rattle.std.specs.Prelude.{◌≡◌, length};
ghost use Rattle.books.specs.Calls.{writing_header};
ghost use Rattle.books.specs.declared.outcome.Outcome.TheVariants.{Done};
ghost use Rattle.books.specs.Recording.{header_of, record_after_call};
ghost use Rattle.ledger.specs.Answers.{carried_out, outcome_of};

use crate::Ledger;
use crate::fault::reported;
use lots::policy::Policy;
use record::header::Header;
use refusal::Fault;

impl<P: Policy> Ledger<P> {
    pub(crate) fn header(&self) -> Header
        ensures { result ≡ header_of (P.Policy.order self.now.policy) self.now.state }
    {
        Header {
            policy: self.policy.code(),
            transactions: self.transactions,
            next: self.holdings.lots().next_serial(),
        }
    }

    // Writes the header for what is settled so far; refused, not a byte.
    pub fn write_header(&self, book: &mut [u8]) -> Result<(), Fault>
        ensures answer { (outcome_of (λ _. Done) result, self.now) ≡ carried_out P.Policy.order self.now (writing_header (length book.old)) }
        ensures book { book.new ≡ record_after_call (P.Policy.order self.now.policy) self.now.state (writing_header (length book.old)) book.old }
    {
        reported(0, record::write_header(book, self.rows, self.header()))
    }
}
