ghost use Rattle.std.specs.Prelude.{◌≡◌, ◌≤◌, true, List, length, IfOk, Ok};
ghost use Rattle.refusal.specs.Outcomes.{mapped};
ghost use Rattle.inbox.specs.Calls.{IfRefused};
ghost use Rattle.program.specs.Programs.{shown, run_of};
ghost use Rattle.program.specs.Verdict.{suits};
ghost use Rattle.record.specs.Headers.{most_bytes};
ghost use Rattle.record.specs.Plans.{due};
ghost use Rattle.rules.specs.Working.{readings_in, other_node, last_in, working_values, working_bytes, worked_out, outcome_of, told, on_output};
ghost use Rattle.cursor.specs.Cursors.{Readable};
ghost use Rattle.round.specs.Outcomes.{GivesOut, GivesParts, GivesRound};

use crate::task::{Scene, Task};
use crate::worker::Worker;
use hearing::follow::begin;
use hearing::inputs::Inputs;
use held::load::load;
use held::slots::Slots;
use inbox::inbox::Inbox;
use kind::kind::Kind;
use program::program::Program;
use program::suited::ProgramFor;
use record::header::{HEADER_LENGTH, MOST_BYTES};
use record::output::Output;
use record::write::put_header;
use refusal::cause::Cause;
use refusal::refused::Refusal;
use row_stack::row_stack::RowStack;
use steps::frame::Frame;
use tree::message::read;
use unfolding::run::run_start;

/// How many values a round works with: 288 rows of 18.
pub const WORKING_VALUES: usize = 5184;

/// How many bytes a round works with: sixteen items of 2,064 take 33,024 of them.
pub const WORKING_BYTES: usize = 36864;

// Whether the readings are a value of the kind for each sensor, and nothing else.
fn check_readings<K: Kind>(sensors: u8, readings: &[u8]) -> Result<(), Refusal>
    ensures { result ≡ mapped (λ _. tt) (readings_in K.Kind.meaning sensors readings.now) }
{
    if readings.len() != sensors as usize * K::WIDTH {
        return Err(Refusal {
            cause: Cause::ReadingsRefused,
            position: 0,
        });
    }
    for (i, reading) in readings.chunks_exact(K::WIDTH).enumerate() {
        if K::read(reading).is_none() {
            return Err(Refusal {
                cause: Cause::ReadingsRefused,
                position: i * reading.len(),
            });
        }
    }
    Ok(())
}

// The number of another node.
fn another(node: u16) -> u16
    ensures { result ≡ other_node node }
{
    if node == 0 { 1 } else { 0 }
}

// The last own tree, as far as it counts: no bytes, unless another node takes them for a tree of this one.
fn own_tree<'l, K: Kind>(program: &ProgramFor<'_, K>, node: u16, last: &'l [u8]) -> &'l [u8]
    ensures { Readable K.Kind.meaning result.now (last_in K.Kind.meaning (due (run_of program.now.program.now) 0) (shown program.now.program.now).header.number node last.now) }
{
    if read::<K>(program.program(), another(node), last) == Ok(node) {
        last
    } else {
        &[]
    }
}

// Works the run of the program on its inputs: the result, and the length of the tree at the output's front.
fn run<K: Kind>(x: &Inputs<'_>, values: &mut [K::Value], output: &mut [u8]) -> (K::Value, usize)
    requires suits { suits K.Kind.meaning (shown x.now.program.now) ≡ true }
    requires values { length values.old ≡ working_values }
    requires output { most_bytes ≤ length output.old }
    ensures { GivesOut K.Kind.meaning x.now result.0 result.1 output.old output.new }
{
    let (at, depth) = run_start(x.program);
    let scene = Scene {
        inputs: x,
        frame: &Frame::empty(),
        aligned: &[true; 16],
    };
    let mut worker = Worker {
        rows: RowStack {
            cells: values,
            width: 2 + x.slots.count,
        },
        cursors: begin::<K>(),
        place: 0,
    };
    let mut out = Output {
        bytes: output,
        len: HEADER_LENGTH,
    };
    let _ = worker.work::<K>(&scene, &mut out, Task { at, depth, base: 0 });
    let result = worker.rows.cell(1);
    put_header::<K>(&mut out, x.program.number(), x.node);
    (result, out.len)
}

// The same, of the parts of the inputs. On its own, since what `load` wrote is known to be bytes where it comes in as a slice.
fn run_on<'a, K: Kind>(
    program: &'a ProgramFor<'_, K>,
    node: u16,
    slots: &'a Slots,
    bytes: &'a [u8],
    own: &'a [u8],
    readings: &'a [u8],
    values: &mut [K::Value],
    output: &mut [u8],
) -> (K::Value, usize)
    requires values { length values.old ≡ working_values }
    requires output { most_bytes ≤ length output.old }
    ensures { GivesParts K.Kind.meaning program.now.program.now node slots.now bytes.now own.now readings.now result.0 result.1 output.old output.new }
{
    let x = Inputs {
        program: program.program(),
        node,
        slots,
        bytes,
        own,
        readings,
    };
    run::<K>(&x, values, output)
}

// A round that is not refused. The parameters and the sizes of lent memory are those of `work_out`, whose promise names each.
fn give<K: Kind, I: Inbox>(
    program: &ProgramFor<'_, K>,
    node: u16,
    inbox: &I,
    last: &[u8],
    readings: &[u8],
    values: &mut [K::Value],
    bytes: &mut [u8],
    output: &mut [u8],
) -> (K::Value, usize)
    requires values { working_values ≤ length values.old }
    requires bytes { working_bytes ≤ length bytes.old }
    requires output { most_bytes ≤ length output.old }
    ensures { GivesRound K.Kind.meaning program.now.program.now node (I.Inbox.meaning inbox.now).items last.now readings.now result.0 result.1 output.old output.new }
{
    let slots = load::<K, I>(program.program(), node, inbox, bytes);
    let own = own_tree::<K>(program, node, last);
    let cells = &mut values[..WORKING_VALUES];
    run_on::<K>(program, node, &slots, bytes, own, readings, cells, output)
}

/// Works out a round of the node of this number: the result at its own number, and the length of the tree, which stands
/// at the output's front. It reads the inbox and changes nothing in it. A refusal comes before the first write.
pub fn work_out<K: Kind, I: Inbox>(
    program: &Program,
    node: u16,
    inbox: &I,
    last: &[u8],
    readings: &[u8],
    values: &mut [K::Value],
    bytes: &mut [u8],
    output: &mut [u8],
) -> Result<(K::Value, usize), Refusal>
    ensures value { result ≡ mapped told (worked_out K.Kind.meaning program.now node (I.Inbox.meaning inbox.now).items last.now readings.now (length values.old) (length bytes.old) (length output.old)) }
    ensures output { output.new ≡ on_output (worked_out K.Kind.meaning program.now node (I.Inbox.meaning inbox.now).items last.now readings.now (length values.old) (length bytes.old) (length output.old)) output.old }
    ensures untouched { IfRefused result ((values.new ≡ values.old) × (bytes.new ≡ bytes.old)) }
    ensures fits { IfOk result (λ x. x.1 ≤ most_bytes) }
{
    let suited = ProgramFor::<K>::of(program)?;
    check_readings::<K>(program.sensors(), readings)?;
    if values.len() < WORKING_VALUES || bytes.len() < WORKING_BYTES {
        return Err(Refusal {
            cause: Cause::MemoryShort,
            position: 0,
        });
    }
    if output.len() < MOST_BYTES {
        return Err(Refusal {
            cause: Cause::OutputShort,
            position: 0,
        });
    }
    Ok(give::<K, I>(&suited, node, inbox, last, readings, values, bytes, output))
}
