//! The laws of partitions. Each is the contract of a function with an empty body: to call one is to have its fact.

ghost use Rattle.si_partitions.specs.Laws.{EditsKeepPartitions, HorizonsKeepPartitions, PartitionsAccept, PartitionsAreAccepted, PartitionsAreHistories, PartitionsArePresent, PartitionsFind, PartitionsHaveAll, PartitionsTellReasons};

/// Each key is of one of the partitions.
#[tactic(auto, using(crate::proofs::Ranges::within))]
pub fn partitions_have_all()
    ensures { PartitionsHaveAll }
{}

/// What is present is a history exactly where each partition of it is one.
pub fn partitions_are_histories()
    ensures { PartitionsAreHistories }
{}

/// What a partition's edits leave is the partition of what all leave.
pub fn partitions_are_present()
    ensures { PartitionsArePresent }
{}

/// An edit leaves a partition of what it leaves of all.
pub fn edits_keep_partitions()
    ensures { EditsKeepPartitions }
{}

/// What is carried over a horizon is a partition of what is carried over of all.
pub fn horizons_keep_partitions()
    ensures { HorizonsKeepPartitions }
{}

/// On a history an edit is acceptable exactly where it is so on each partition.
pub fn partitions_accept()
    ensures { PartitionsAccept }
{}

/// A journal is accepted exactly where each partition of it is.
pub fn partitions_are_accepted()
    ensures { PartitionsAreAccepted }
{}

/// A partition tells the reason of the whole against an edit, and none tells one that is looked for before it.
pub fn partitions_tell_reasons()
    ensures { PartitionsTellReasons }
{}

/// Of a history, the findings on the keys of a partition are those of the partition, where operations count anew.
pub fn partitions_find()
    ensures { PartitionsFind }
{}
