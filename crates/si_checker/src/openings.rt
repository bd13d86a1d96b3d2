//! A checker is opened in parts, which have no name yet.
ghost use Rattle.std.specs.Prelude.{◌≡◌, IfOk, OnOk, IfErr};
ghost use Rattle.si_words.specs.Seats.{new_passes};
ghost use Rattle.si_checker.specs.Openings.{CanOpen, IsOpenFault, open_fault_code};

use si_model::MOST_EDITS;
use si_shard::MOST_SHARDS;
use si_words::{BookSeat, Pass, ShardSeat, Words};
use std::alloc::{AllocError, Global};
use std::hash::RandomState;
use std::marker::Model;
use thiserror::Error;

/// The most passes that one checker may have.
pub const MOST_PASSES: usize = 16;

/// Why nothing was opened.
#[derive(Clone, Copy, Debug, PartialEq, Eq, Error)]
pub enum OpenFault {
    /// There can't be so many shards.
    #[error("bad number of shards")]
    BadShards,
    /// There can't be so many passes.
    #[error("bad number of passes")]
    BadPasses,
    /// The journal can't have such a limit.
    #[error("bad limit")]
    BadLimit,
    /// The growth of some memory was refused.
    #[error("out of memory")]
    OutOfMemory,
}

impl From<AllocError> for OpenFault {
    ghost use Rattle.std.specs.Prelude.{◌≡◌};
    ghost use Rattle.si_checker.specs.declared.openings.OpenFault.TheVariants.{OutOfMemory};

    ghost from_gives = { λ _ fault. fault ≡ OutOfMemory };

    fn from(_error: AllocError) -> Self {
        OpenFault::OutOfMemory
    }
}

impl OpenFault {
    /// The number of the fault, where it has one. The program prints it nowhere: its command line lets no such numbers through.
    pub fn code(&self) -> Option<u64>
        ensures { result ≡ open_fault_code self.now }
    {
        match self {
            OpenFault::BadShards => Some(51),
            OpenFault::BadPasses => Some(52),
            OpenFault::BadLimit => Some(53),
            OpenFault::OutOfMemory => None,
        }
    }
}

/// The parts of a checker that has no name yet: its words, the seats of its book and its shards, and the limit of its journal.
#[derive(Drop)]
pub struct Parts {
    pub(crate) hash: RandomState,
    pub(crate) words: Words,
    pub(crate) book: BookSeat,
    pub(crate) seats: Vec<ShardSeat>,
    pub(crate) limit: usize,
}

impl Model for Parts {
    ghost use Rattle.si_checker.specs.Openings.{AreParts, PartsState};

    ghost Value = { PartsState };

    ghost view = { λ p. record { board = p.words; limit = p.limit } };

    ghost invariant = { λ p. AreParts p.words p.book p.seats.items p.limit };
}

/// Opens a checker of so many shards, whose journal may have so many edits, and the passes of its callers, which have seen
/// nothing.
///
/// Its maps of ids, keys and values hash with this secret key, so that no log can be made to collide in them.
pub fn open(
    alloc: Global,
    hash: RandomState,
    shards: usize,
    passes: usize,
    limit: usize,
) -> Result<(Parts, Vec<Pass>), OpenFault>
    ensures shards { IfOk result (λ o. o.0.board.shards ≡ shards) }
    ensures passes { IfOk result (λ o. o.0.board.passes ≡ passes) }
    ensures limit { IfOk result (λ o. o.0.limit ≡ limit) }
    ensures seats { IfOk result (λ o. o.1.items ≡ new_passes o.0.board.table shards passes) }
    ensures can { OnOk result (CanOpen shards passes limit) }
    ensures fault { IfErr result (IsOpenFault shards passes limit) }
{
    if shards < 1 || shards > MOST_SHARDS {
        return Err(OpenFault::BadShards);
    }
    if passes < 1 || passes > MOST_PASSES {
        return Err(OpenFault::BadPasses);
    }
    if limit < 1 || limit > MOST_EDITS {
        return Err(OpenFault::BadLimit);
    }
    let (words, book, seats, all) = Words::open(alloc, shards, passes)?;
    let parts = Parts {
        hash,
        words,
        book,
        seats,
        limit,
    };
    Ok((parts, all))
}
