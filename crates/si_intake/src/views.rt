//! What the passes of the queue know. Contracts alone read it, and no value of it is made.

use crate::items::Item;
use std::collections::LinkedList;

/// What a pass knows: the part of a source or that of the accepter. A pass that was taken in has none.
pub struct View {
    /// It is a source's.
    pub sends: bool,
    /// The source's number.
    pub from: usize,
    /// What the source has put.
    pub put: LinkedList<Item>,
    /// It is the accepter's.
    pub gets: bool,
    /// What the accepter has taken.
    pub got: LinkedList<Item>,
    /// How many sources there are. Those from this number on have no pass yet.
    pub made: usize,
    /// What the first sources have put in all, of those whose passes were taken in.
    pub known: LinkedList<LinkedList<Item>>,
}
