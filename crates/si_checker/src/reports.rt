//! What is reported, and why it isn't.
ghost use Rattle.std.specs.Prelude.{◌≡◌};
ghost use Rattle.si_checker.specs.Calls.{report_fault_code};

use si_model::{Finding, Key, Txn, TxnId, Value};
use std::alloc::AllocError;
use thiserror::Error;

/// The settled state of a journal.
#[derive(Drop)]
pub struct Report {
    /// How many edits the journal has.
    pub number: u64,
    /// The present transactions, in the order of arrival.
    pub present: Vec<Txn>,
    /// The keys that were set up with their values, in the order of arrival.
    pub initial: Vec<(Key, Value)>,
    /// The findings, in order.
    pub findings: Vec<Finding>,
}

/// The findings of a journal, settled, and how much is present.
#[derive(Drop)]
pub struct SettledFindings {
    /// How many edits the journal has.
    pub number: u64,
    /// How many transactions are present.
    pub transactions: usize,
    /// The findings, in order.
    pub findings: Vec<Finding>,
}

/// What changed between two settled states of a journal, and how much is present after it.
#[derive(Drop)]
pub struct SettledChanges {
    /// How many edits the journal has.
    pub number: u64,
    /// How many transactions are present.
    pub transactions: usize,
    /// The findings that came, in order.
    pub came: Vec<Finding>,
    /// The findings that went, in order.
    pub went: Vec<Finding>,
}

/// What became of the transactions that are present after a journal.
#[derive(Drop)]
pub struct Statuses {
    /// How many are committed.
    pub committed: usize,
    /// The ids of those in doubt, in the order of arrival.
    pub in_doubt: Vec<TxnId>,
}

/// The state of one shard.
#[derive(Drop)]
pub struct ShardReport {
    /// How many edits it has applied.
    pub position: u64,
    /// The findings on its keys of what is present after these edits, in order.
    pub findings: Vec<Finding>,
}

/// Why no report was made.
#[derive(Clone, Copy, Debug, PartialEq, Eq, Error)]
pub enum ReportFault {
    /// Memory was refused to an application by the shard of this number, and no rebuild came since.
    #[error("shard {0} is spoiled")]
    Spoiled(usize),
    /// The growth of some memory was refused.
    #[error("out of memory")]
    OutOfMemory,
}

impl ReportFault {
    /// The number of the fault, where it has one.
    pub fn code(&self) -> Option<u64>
        ensures { result ≡ report_fault_code self.now }
    {
        match self {
            ReportFault::Spoiled(_) => Some(41),
            ReportFault::OutOfMemory => None,
        }
    }
}

impl From<AllocError> for ReportFault {
    ghost use Rattle.std.specs.Prelude.{◌≡◌};
    ghost use Rattle.si_checker.specs.declared.reports.ReportFault.TheVariants.{OutOfMemory};

    ghost from_gives = { λ _ fault. fault ≡ OutOfMemory };

    fn from(_error: AllocError) -> Self {
        ReportFault::OutOfMemory
    }
}
