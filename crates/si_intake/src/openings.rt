//! The intake is opened with all its ends.
ghost use Rattle.std.specs.Prelude.{◌≡◌, ◌≤◌, IfOk, []};
ghost use Rattle.std.specs.Arc.{arc_value};
ghost use Rattle.crossbeam_queue.specs.Passes.{view, IsPassOf};
ghost use Rattle.si_intake.specs.Ends.{new_ends};
ghost use Rattle.si_intake.specs.Views.{accepter_view};

use crate::accepters::Accepter;
use crate::hand_over::HandOver;
use crate::rule::{NextSource, Place, Queue};
use crate::source_ends::SourceEnd;
use si_model::OutOfMemory;
use std::alloc::Global;
use std::sync::Arc;

/// The most sources that an intake may have.
pub const MOST_SOURCES: usize = 8;

/// An intake of so many sources, with room for so many items between them and the accepter: the ends of the sources, in the order
/// of their numbers, and the accepter.
pub fn open(
    alloc: Global,
    sources: usize,
    room: usize,
) -> Result<(Vec<SourceEnd>, Accepter), OutOfMemory>
    requires sources { (1 ≤ sources) × (sources ≤ MOST_SOURCES) }
    requires room { 1 ≤ room }
    ensures ends { IfOk result (λ o. o.0.items ≡ new_ends o.1.intake sources) }
    ensures accepter { IfOk result (λ o. o.1 ≡ record o.1 { sources = sources; taken = [] }) }
{
    let (queue, mut place) = Queue::ruled(alloc, room)?;
    let shared = Arc::new(alloc, HandOver::new(queue))?;
    let ends = ends_of(alloc, &shared, &mut place, sources)?;
    let half = room / 2;
    let accepter = Accepter {
        shared,
        place,
        sources,
        unended: sources,
        half,
        to_call: half,
    };
    Ok((ends, accepter))
}

/// An end for each source, by which it puts its items.
fn ends_of(
    alloc: Global,
    shared: &Arc<HandOver, Global>,
    place: &mut Place,
    sources: usize,
) -> Result<Vec<SourceEnd>, OutOfMemory>
    requires own { IsPassOf (arc_value shared.now).queue place.old }
    requires view { view place.old ≡ accepter_view 0 [] [] }
    ensures own { IsPassOf (arc_value shared.now).queue place.new }
    ensures view { IfOk result (λ _. view place.new ≡ accepter_view sources [] []) }
    ensures ends { IfOk result (λ ends. ends.items ≡ new_ends place.old.table_id sources) }
{
    let mut ends = Vec::new(alloc);
    for source in 0..sources {
        let theirs = Arc::try_clone(shared)?;
        let seat = theirs.queue.another::<NextSource>(place);
        ends.push(SourceEnd {
            shared: theirs,
            place: seat,
            source,
        })?;
    }
    Ok(ends)
}
