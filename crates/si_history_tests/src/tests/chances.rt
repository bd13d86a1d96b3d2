//! At how many places something could have been found in what a book has.

use super::book_scripts::accept;
use super::*;
use si_accept::Book;
use si_chances::chances_of;
use si_model::{Chances, Count, MOST_EDITS, OutOfMemory};
use si_scripts::edit_of;
use std::hash::RandomState;

/// Of `x`: 1 writes it twice, beside the readers 2 and 6; 3 reads what 1 wrote last, writes, and reads that thrice; 8 reads what 3 wrote; 4
/// writes and is rolled back. Of `y`: 5 and 6 read, and 7 writes and is rolled back.
pub(super) const LINES: &str = "
    arrive 1 2 5 x=1 x=2
    arrive 2 4 9 x?null
    arrive 3 6 10 x?2 x=3 x?3 x?3 x?3
    arrive 4 7 aborted x=4
    arrive 5 11 12 y?null
    arrive 6 1 13 x?null y?null
    arrive 7 8 aborted y=9
    arrive 8 14 14 x?3";

/// What could have been found there.
pub(super) const THERE: Chances = Chances {
    own: Count { places: 3, keys: 1 },
    aborted: Count { places: 2, keys: 2 },
    intermediate: Count { places: 2, keys: 1 },
    future: Count { places: 2, keys: 1 },
    stale: Count { places: 2, keys: 1 },
    overlap: Count { places: 1, keys: 1 },
};

/// Counts over what the book has.
pub(super) fn counted(
    rt: &impl Host,
    book: &Book,
    hash: RandomState,
) -> Result<Chances, OutOfMemory> {
    let txns = book.present()?;
    assert!(rt; txns.len() <= MOST_EDITS);
    chances_of(rt.alloc(), hash, &txns)
}

#[test]
fn each_kind_is_counted(rt: HostRuntime) {
    let mut book = Book::new(rt.alloc(), secret_key(&rt), MOST_EDITS);
    are_same(
        &rt,
        counted(&rt, &book, secret_key(&rt))
            .expect(&rt, "memory")
            .stale
            .places,
        0,
    );
    for line in LINES.trim().lines() {
        let edit = edit_of(&rt, line.trim()).expect(&rt, "an edit");
        are_same(&rt, accept(&mut book, edit).is_ok(), true);
    }
    are_same(&rt, counted(&rt, &book, secret_key(&rt)), Ok(THERE));
    drop(book);
}
