//! What a run is short of what was expected of it.

ghost use Rattle.std.specs.Prelude.{◌≡◌, ◌++◌, take, decimal, codes};
ghost use Rattle.std.specs.List.{flat_map};
ghost use Rattle.si_text.specs.Printing.{Appends};
ghost use Rattle.si_text.specs.Texts.{ids_text, short_text, shortage_lines};

use crate::appending::{put, put_number};
use si_model::{OutOfMemory, TxnId};

/// The most ids of transactions in doubt that are told.
pub const MOST_IDS_TOLD: usize = 20;

/// A run in which fewer transactions are committed than were expected, or some are in doubt.
#[derive(Debug, PartialEq, Drop)]
pub struct Shortage {
    /// How many committed transactions are present.
    pub committed: usize,
    /// How many were expected at least.
    pub expected: u64,
    /// The ids of the transactions in doubt, in order.
    pub in_doubt: Vec<TxnId>,
}

/// Appends the line of a shortage, if there is one.
pub(crate) fn put_shortage(
    out: &mut Vec<u8>,
    shortage: &Option<Shortage>,
) -> Result<(), OutOfMemory>
    ensures { Appends result out.old.items out.new.items (shortage_lines shortage.now) }
{
    match shortage {
        None => Ok(()),
        Some(shortage) => put_short(
            out,
            shortage.committed as u64,
            shortage.expected,
            &shortage.in_doubt,
        ),
    }
}

fn put_short(
    out: &mut Vec<u8>,
    committed: u64,
    expected: u64,
    in_doubt: &[TxnId],
) -> Result<(), OutOfMemory>
    ensures { Appends result out.old.items out.new.items (short_text committed expected in_doubt.now) }
{
    put_number(out, "short committed=", committed)?;
    put_number(out, " expected=", expected)?;
    put_number(out, " indoubt=", in_doubt.len() as u64)?;
    put_ids(out, least(in_doubt))?;
    put(out, "\n")
}

/// The first of these ids, [`MOST_IDS_TOLD`] at most.
fn least(ids: &[TxnId]) -> &[TxnId]
    ensures { result.now ≡ take MOST_IDS_TOLD ids.now }
{
    if ids.len() <= MOST_IDS_TOLD {
        ids
    } else {
        &ids[..MOST_IDS_TOLD]
    }
}

fn put_ids(out: &mut Vec<u8>, ids: &[TxnId]) -> Result<(), OutOfMemory>
    ensures { Appends result out.old.items out.new.items (ids_text ids.now) }
{
    match ids.split_first() {
        None => Ok(()),
        Some((first, others)) => {
            put_number(out, " ids=", first.0)?;
            put_others(out, others)
        }
    }
}

fn put_others(out: &mut Vec<u8>, ids: &[TxnId]) -> Result<(), OutOfMemory>
    ensures { Appends result out.old.items out.new.items (flat_map (λ id. codes "," ++ decimal id.0) ids.now) }
{
    for id in ids {
        put_number(out, ",", id.0)?;
    }
    Ok(())
}
