ghost use Rattle.std.specs.Prelude.{◌≡◌, ℕ, ◌<◌, ◌≤◌, List, length, IfSome, option_map, option_and_then};
ghost use Rattle.record.specs.Forms.{Formed, reads_at};
ghost use Rattle.record.specs.Shapes.{shown};
ghost use Rattle.record.specs.Trees.{Rec, says};
ghost use Rattle.cursor.specs.Cursors.{Readable, Stands, said_value, said_choice, head_at, chooses};

use kind::kind::Kind;
use record::header::MOST_BYTES;
use record::reading::read_at;
use record::record::{Body, Record, counted, pair, record_at};

// Tree, position and place come apart: a round has its positions in an array of its own, and the trees in its bytes.

// The place of the record that begins at `at`, and where it ends, if the tree has it to its end.
fn head(tree: &[u8], at: usize) -> Option<(usize, usize)>
    ensures is { result ≡ head_at tree.now at }
    ensures ends { IfSome result (λ x. (at < x.1) × (x.1 ≤ length tree.now)) }
{
    let counted = counted(tree, at)?;
    let place = tree.get(at + 2..at + 4)?;
    Some((pair(place, 0), at + 2 + counted.len()))
}

// Whether a record chooses the first branch, or none if it is no if's. The caller has it from `record_at`.
fn chosen(found: Record<'_>) -> Option<bool>
    requires { (width long : ℕ) × Formed width long (shown found) }
    ensures { result ≡ chooses (shown found.entry) }
{
    match found {
        Record::Choice { choice, .. } => Some(choice[0] == 1),
        Record::Exchange { .. } => None,
    }
}

/// From `from` on, where the first record begins whose place is at least `place`, or the tree's end.
pub fn seek<K: Kind>(tree: &[u8], from: usize, place: usize) -> usize
    ensures stands { (rs : List (Rec (K.Value))) (low : ℕ) → Readable K.Kind.meaning tree.now rs → Stands K.Kind.meaning tree.now rs low from → low ≤ place → Stands K.Kind.meaning tree.now rs place result }
    ensures stops { IfSome (head_at tree.now result) (λ x. place ≤ x.0) }
{
    let mut at = from;
    // Each record says where the next begins; an iterator of our own would only wrap `head`.
    while let Some((found, end)) = head(tree, at) {
        if found >= place {
            break;
        }
        at = end;
    }
    at
}

// The record that the tree has at a place, looked for from `from` on, if it has this body.
fn found<K: Kind>(body: Body, tree: &[u8], from: usize, place: usize) -> Option<Record<'_>>
    ensures value { (rs : List (Rec (K.Value))) (low number : ℕ) → Readable K.Kind.meaning tree.now rs → Stands K.Kind.meaning tree.now rs low from → low ≤ place → body ≡ Body.Exchange → option_and_then (reads_at K.Kind.meaning number) (option_map shown result) ≡ said_value (says number place rs) }
    ensures choice { (rs : List (Rec (K.Value))) (low number : ℕ) → Readable K.Kind.meaning tree.now rs → Stands K.Kind.meaning tree.now rs low from → low ≤ place → body ≡ Body.Choice → option_and_then chooses (option_map shown result) ≡ said_choice (says number place rs) }
    ensures formed { IfSome result (λ x. Formed K.Kind.meaning.width (length tree.now) (shown x)) }
{
    let at = seek::<K>(tree, from, place);
    let (here, _) = head(tree, at)?;
    if here != place {
        return None;
    }
    record_at(body, K::WIDTH, tree, at).ok()
}

/// The value that the tree has at a place for a node number: looked for from `from` on.
pub fn value_at<K: Kind>(tree: &[u8], from: usize, place: usize, number: u16) -> Option<K::Value>
    ensures { (rs : List (Rec (K.Value))) (low : ℕ) → Readable K.Kind.meaning tree.now rs → Stands K.Kind.meaning tree.now rs low from → low ≤ place → result ≡ said_value (says number place rs) }
{
    if tree.len() > MOST_BYTES {
        return None;
    }
    let record = found::<K>(Body::Exchange, tree, from, place)?;
    read_at::<K>(record, number as usize)
}

/// The choice that the tree has at a place, looked for from `from` on.
pub fn choice_at<K: Kind>(tree: &[u8], from: usize, place: usize) -> Option<bool>
    ensures { (rs : List (Rec (K.Value))) (low number : ℕ) → Readable K.Kind.meaning tree.now rs → Stands K.Kind.meaning tree.now rs low from → low ≤ place → result ≡ said_choice (says number place rs) }
{
    let record = found::<K>(Body::Choice, tree, from, place)?;
    chosen(record)
}
