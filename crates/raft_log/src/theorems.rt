//! What the changes of a memory make of the log that it stands for. The functions do nothing: their contracts are the theorems.
ghost use Rattle.raft_log.specs.Theorems.{NumbersCount, ValueBehind, EmptyLast, AppendMerges, BlockValid, HintLast};

/// The number of an entry counts the decisions up to it.
pub fn numbers_count()
    ensures { NumbersCount }
{}

/// A value that is appended is one more entry.
pub fn value_behind()
    ensures { ValueBehind }
{}

/// A new leader's empty entry renews one that is last, or is one more.
pub fn empty_last()
    ensures { EmptyLast }
{}

/// An append that is taken merges its entries with the log.
pub fn append_merges()
    ensures { AppendMerges }
{}

/// The entries of a block of bytes can be taken.
pub fn block_valid()
    ensures { BlockValid }
{}

/// The hint of a refusal is the last index whose term is low enough.
pub fn hint_last()
    ensures { HintLast }
{}
