//! What was worked out by hand, and what is drawn by chance.

mod chance;
mod judges;
mod keys;
mod timelines;
mod worlds;

use si_model::Edit;
use si_scripts::edit_of;
use std::alloc::AllocGlobal;
use std::fmt::{Debug, Display};
use std::process::Abort;

/// The edit that the words say. Where memory is refused they are read again.
fn edit(rt: &(impl Abort + AllocGlobal), words: &str) -> Edit {
    match edit_of(rt, words) {
        Ok(edit) => edit,
        Err(_) => edit_of(rt, words).expect(rt, "an edit"),
    }
}

/// The two are the same. They are moved here, so that no other proof sees how they are compared and let go.
fn are_same<T: PartialEq + Debug + Drop>(rt: &impl Abort, found: T, wanted: T) {
    assert_eq!(rt; found, wanted);
}

/// The two are the same, at that place of a test.
fn are_same_at<T: PartialEq + Debug + Drop>(
    rt: &impl Abort,
    found: T,
    wanted: T,
    place: impl Display + Drop,
) {
    assert_eq!(rt; found, wanted, "at {place}");
}

/// The value as it stands in code.
fn shown_as(rt: &(impl Abort + AllocGlobal), value: impl Debug + Drop) -> String {
    format!(in rt.alloc(); "{value:?}").expect(rt, "memory")
}
