ghost use Rattle.std.specs.Prelude.{◌≡◌, ◌≤◌, length};
ghost use Rattle.refusal.specs.Outcomes.{mapped};
ghost use Rattle.inbox.specs.Calls.{IfRefused};
ghost use Rattle.rules.specs.Working.{told, on_output};
ghost use Rattle.trace.specs.States.{passed};
ghost use Rattle.trace.specs.Calls.{round_on, round_answer, after_round};
ghost use Rattle.trace.specs.Promises.{Promise, seen_in};
ghost use Rattle.node.specs.Nodes.{state};

use super::Node;
use buffer::buffer::Buffer;
use inbox::inbox::Inbox;
use kind::kind::Kind;
use refusal::refused::Refusal;
use round::work_out::work_out;

impl<K: Kind, I: Inbox> Node<K, I> {
    // Keeps the tree of a round, and lets the inbox pass.
    // An inner function: the tree has at most 2,048 bytes.
    fn pass(&mut self, tree: &[u8])
        requires { length tree.now ≤ 2048 }
        ensures { state I.Inbox.meaning self.new ≡ passed (state I.Inbox.meaning self.old) tree.now }
    {
        self.last = Buffer::of(tree);
        self.inbox.passing();
    }

    // Readings, values, bytes and output come apart: the caller lends each, and the promise names each.
    /// Works a round on the readings and on who is held: writes its tree to the output's front, and answers the result
    /// and the tree's length.
    pub fn round(
        &mut self,
        readings: &[u8],
        values: &mut [K::Value],
        bytes: &mut [u8],
        output: &mut [u8],
    ) -> Result<(K::Value, usize), Refusal>
        ensures value { result ≡ mapped told (round_answer K.Kind.meaning (state I.Inbox.meaning self.old) readings.now (length values.old) (length bytes.old) (length output.old)) }
        ensures after { state I.Inbox.meaning self.new ≡ after_round K.Kind.meaning (state I.Inbox.meaning self.old) readings.now (length values.old) (length bytes.old) (length output.old) }
        ensures output { output.new ≡ on_output (round_answer K.Kind.meaning (state I.Inbox.meaning self.old) readings.now (length values.old) (length bytes.old) (length output.old)) output.old }
        ensures untouched { IfRefused result ((self.new ≡ self.old) × (values.new ≡ values.old) × (bytes.new ≡ bytes.old)) }
        ensures promise { Promise K.Kind.meaning (state I.Inbox.meaning self.old) (round_on readings.now (length values.old) (length bytes.old) (length output.old)) (seen_in result output.new) (state I.Inbox.meaning self.new) }
    {
        let (value, n) = work_out::<K, I>(
            &self.program,
            self.number,
            &self.inbox,
            self.last.as_slice(),
            readings,
            values,
            bytes,
            output,
        )?;
        self.pass(&output[..n]);
        Ok((value, n))
    }
}
