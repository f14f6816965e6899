ghost use Rattle.std.specs.Prelude.{◌≡◌};

use crate::call::Call;
use crate::counts::Counts;
use crate::generator::Generator;
use crate::model::Model;
use crate::pattern;
use crate::perform::perform;
use inbox::inbox::Inbox;

// Longer than the longest item, so that a write behind an item shows.
const BUFFER: usize = 2100;

// The item of the call, at the front of the buffer.
fn item(call: Call, buffer: &mut [u8]) -> &[u8] {
    match call {
        Call::Put { len, first, .. } => {
            let len = len.min(buffer.len());
            pattern::fill(buffer, len, first);
            &buffer[..len]
        }
        _ => &[],
    }
}

/// Makes the same calls of two inboxes and a model, and compares every answer and every buffer.
/// Two inboxes that hold the same before it hold the same after it.
pub fn run<A: Inbox, B: Inbox>(
    one: &mut A,
    two: &mut B,
    model: &mut Model,
    seed: u32,
    calls: u32,
) -> Counts
    ensures { A.Inbox.meaning one.old ≡ B.Inbox.meaning two.old → A.Inbox.meaning one.new ≡ B.Inbox.meaning two.new }
{
    let mut counts = Counts::default();
    let mut buffer = [0; BUFFER];
    let mut first = [0; BUFFER];
    let mut second = [0; BUFFER];
    let mut third = [0; BUFFER];
    for call in (Generator { state: seed }).take(calls as usize) {
        let item = item(call, &mut buffer);
        let a = perform(one, call, item, &mut first);
        let b = perform(two, call, item, &mut second);
        let c = model.perform(call, &mut third);
        counts.count(
            call,
            c,
            a == b && b == c && first == second && second == third,
        );
    }
    counts
}
