// What lotbook prints of a journal that it books.
ghost use Rattle.std.specs.Prelude.{◌≡◌, length, IfOk, OnOk};
ghost use Rattle.std.specs.String.{string_bytes};
ghost use Rattle.books.specs.Recording.{record_after_calls};
ghost use Rattle.books.specs.States.{empty_ledger};
ghost use Rattle.journals.specs.Methods.{method_of};
ghost use Rattle.lines.specs.Lines.{lines_of};
ghost use Rattle.pages.specs.Pages.{journal_page, shop_order};
ghost use Rattle.reader.specs.Readings.{journal_read};

use crate::booked::write_booked;
use books::outcome::Outcome;
use journals::{book_journal, booking_method, most_outcomes};
use lines::directive::Method;
use lots::policy::{Fifo, Lifo, Policy, Strict, WholeLot};
use std::alloc::Global;

// The bytes of the record that a journal is booked in.
pub const BOOK_LEN: usize = 49_152;

fn print_under<P: Policy + Drop>(
    heap: Global,
    policy: P,
    journal: &[u8],
    book: &mut [u8],
    with_lots: bool,
) -> anyhow::Result<String>
    ensures page { IfOk result (λ out. string_bytes out ≡ journal_page (P.Policy.order policy) (length book.old) journal.now book.new with_lots) }
    ensures book { OnOk result (book.new ≡ record_after_calls (P.Policy.order policy) empty_ledger (journal_read (P.Policy.order policy) (length book.old) journal.now).calls book.old) }
{
    let mut list = vec![in heap; Outcome::Done; most_outcomes(journal)]?;
    let places = list.as_mut_slice();
    let booked = book_journal(policy, journal, places, book);
    let outcomes = &places[..booked.outcomes];
    let mut out = String::new(heap);
    write_booked(&mut out, &booked.ledger, outcomes, book, with_lots)?;
    Ok(out)
}

// Books a journal in a record, by the shop's policy: whole-lot over the journal's booking method.
pub fn print_journal(
    heap: Global,
    journal: &[u8],
    book: &mut [u8],
    with_lots: bool,
) -> anyhow::Result<String>
    ensures page { IfOk result (λ out. string_bytes out ≡ journal_page (shop_order (method_of (lines_of journal.now))) (length book.old) journal.now book.new with_lots) }
    ensures book { OnOk result (book.new ≡ record_after_calls (shop_order (method_of (lines_of journal.now))) empty_ledger (journal_read (shop_order (method_of (lines_of journal.now))) (length book.old) journal.now).calls book.old) }
{
    match booking_method(journal) {
        Method::Strict => print_under(heap, WholeLot { below: Strict }, journal, book, with_lots),
        Method::Fifo => print_under(heap, WholeLot { below: Fifo }, journal, book, with_lots),
        Method::Lifo => print_under(heap, WholeLot { below: Lifo }, journal, book, with_lots),
    }
}
