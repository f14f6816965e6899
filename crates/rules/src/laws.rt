ghost use Rattle.rules.specs.Cases.{WorkedCases};
ghost use Rattle.rules.specs.Isolation.{Isolation};
ghost use Rattle.rules.specs.Laws.{HeldOrderly, OwnTreesRead, RecordsDue, RecordsRise, ValuesSameElsewhere};

use kind::kind::Kind;

// The functions of this file do nothing: their promises are what holds of the rules.

/// What a round gives depends on the trees of other nodes only where they differ for this node at places that it
/// visits.
pub fn one_round_is_isolated<K: Kind>() -> u8
    ensures { Isolation (K.Value) }
{
    0
}

/// A value is the same at all numbers that are neither own nor held.
pub fn values_are_same_elsewhere<K: Kind>() -> u8
    ensures { ValuesSameElsewhere (K.Value) }
{
    0
}

/// The records of a round are those that its program has due; their places rise; and every other node with the
/// program accepts the tree that they make, as that tree.
pub fn own_trees_are_read<K: Kind>() -> u8
    ensures due { RecordsDue (K.Value) }
    ensures rising { RecordsRise (K.Value) }
    ensures read { OwnTreesRead (K.Value) }
{
    0
}

/// What an inbox holds, whatever its bytes, is in order for a round: rising, few, and without the node itself.
pub fn held_senders_are_orderly<K: Kind>() -> u8
    ensures { HeldOrderly (K.Value) }
{
    0
}

/// The worked cases, from bytes to bytes.
pub fn worked_cases_hold<K: Kind>() -> u8
    ensures { WorkedCases (K.Value) }
{
    0
}
