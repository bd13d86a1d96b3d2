//! The laws of shards. Each is the contract of a function with an empty body: to call one is to have its fact.

ghost use Rattle.si_shard.specs.Laws.{FindingsAreOfShards};

/// The findings of all shards, put in order, are the findings.
pub fn findings_are_of_shards()
    ensures { FindingsAreOfShards }
{}
