ghost use Rattle.trace.specs.Cases.{WorkedLine};
ghost use Rattle.trace.specs.Promises.{CallsPromised, LatestDeliveriesHeld, LimitsStay, NoProgramRefused, OwnTreesPass, RoundsIsolated};

use kind::kind::Kind;

// The functions of this file do nothing: their promises are what holds of lines.

/// As long as the rounds of two lines find the same, so far as the node can tell, they give the same.
pub fn rounds_are_isolated<K: Kind>() -> u8
    ensures { RoundsIsolated (K.Value) }
{
    0
}

/// Who is held, with which link and tree: exactly the latest accepted deliveries that are neither dropped nor too old.
pub fn latest_deliveries_are_held<K: Kind>() -> u8
    ensures { LatestDeliveriesHeld (K.Value) }
{
    0
}

/// A tree that a round gave is accepted at every other node with the program.
pub fn own_trees_pass<K: Kind>() -> u8
    ensures { OwnTreesPass (K.Value) }
{
    0
}

/// A program that is for the kind is refused by no call.
pub fn programs_are_accepted<K: Kind>() -> u8
    ensures { NoProgramRefused (K.Value) }
{
    0
}

/// The program, the node's number, and the limits and the life of the inbox never change.
pub fn limits_stay<K: Kind>() -> u8
    ensures { LimitsStay (K.Value) }
{
    0
}

/// Every call ends each line that leaves the state before it one longer, and the promises hold of that line.
pub fn calls_are_promised<K: Kind>() -> u8
    ensures { CallsPromised (K.Value) }
{
    0
}

/// The worked line, from bytes to bytes.
pub fn worked_line_holds<K: Kind>() -> u8
    ensures { WorkedLine (K.Value) }
{
    0
}
