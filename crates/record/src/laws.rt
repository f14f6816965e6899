ghost use Rattle.record.specs.Examples.{Examples};
ghost use Rattle.record.specs.Laws.{WrittenRead, ReadWritten, ReadsEntry, ListsDue, AgreesAsSaid, PlacesRise, WeightBounds, TreeFits};

use kind::kind::Kind;

/// Reading and writing fit each other. The answer says nothing: the promises are the contract, as for those below.
pub fn messages_round_trip<K: Kind>() -> u8
    ensures written { WrittenRead (K.Value) }
    ensures canonical { ReadWritten (K.Value) }
    ensures reads { ReadsEntry (K.Value) }
    ensures lists { ListsDue (K.Value) }
{
    0
}

/// Two trees agree for a node at a place exactly when they say the same to it there.
pub fn agreement_is_by_what_is_said<K: Kind>() -> u8
    ensures { AgreesAsSaid (K.Value) }
{
    0
}

/// The places of due records rise.
pub fn places_rise<K: Kind>() -> u8
    ensures { PlacesRise (K.Value) }
{
    0
}

/// Due records take at most the weight of their expression, so that a tree of a checked program fits a message.
pub fn trees_fit<K: Kind>() -> u8
    ensures weight { WeightBounds (K.Value) }
    ensures fits { TreeFits (K.Value) }
{
    0
}

/// Messages of numbers that are read as the examples say, and one that draws each refusal.
pub fn examples_are_read() -> u8
    ensures { Examples }
{
    0
}
