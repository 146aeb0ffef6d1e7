//! A note of staff on a loan, at a desk in a file.

ghost use Rattle.std.specs.Prelude.{◌≡◌, map, Some, None};
ghost use Rattle.ill_browser.specs.Wanted.{loan_asked};
ghost use Rattle.ill_web.specs.Acts.{KeepsNote, Notes};
ghost use Rattle.ill_web.specs.Pages.{AtDesk, asked_at, said};
ghost use Rattle.ill_web.specs.Replies.{house_shown};

use crate::house::House;
use crate::trouble::Trouble;
use ill_beside::notes::is_note;
use ill_browser::LoanName;
use ill_commands::note::{NoteView, note};
use ill_page::seen_reply;
use ill_place::place::{DeskPlace, HostFiles};
use ill_report::link::Place;
use ill_saved::LockFiles;

/// Keeps the note `words` on `loan`, and returns the reply. An empty text removes the note. What `ill note` refuses is
/// refused.
pub fn note_loan<T: LockFiles>(
    house: &House<'_, T>,
    loan: &LoanName,
    words: &str,
) -> Result<Vec<u8>, Trouble>
    ensures { AtDesk (house_shown house.now).files loan.now.desk.items (Notes (loan_asked loan.now) words.now) (said result) }
{
    let place = house.place(loan)?;
    note_at(house, &place, words)
}

/// Keeps the note `words` on the loan at `place`, if the text is a note. Else it fails with `NoNote`.
fn note_at<T: LockFiles>(
    house: &House<'_, T>,
    place: &Place<'_>,
    words: &str,
) -> Result<Vec<u8>, Trouble>
    ensures { Notes (asked_at place.now) words.now (said result) }
{
    if is_note(words) {
        keep(house, place, words)
    } else {
        Err(Trouble::NoNote)
    }
}

/// Keeps the note `words`, which was checked, on the loan at `place`, as `ill note` does.
fn keep<T: LockFiles>(
    house: &House<'_, T>,
    place: &Place<'_>,
    words: &str,
) -> Result<Vec<u8>, Trouble>
    ensures { KeepsNote (asked_at place.now) words.now (said result) }
{
    let words = [words];
    let view = NoteView {
        txn: place.txn,
        words: &words,
    };
    let files = HostFiles::of(house.rt);
    let desk = DeskPlace {
        files: &files,
        path: place.desk,
    };
    match note(&mut house.machine(), &desk, &view) {
        Ok(_) => Ok(seen_reply(house.alloc, place)?),
        Err(fault) => Err(Trouble::Desk(fault)),
    }
}
