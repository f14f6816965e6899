ghost use Rattle.std.specs.Prelude.{◌≡◌, ◌+◌, ◌<◌, ◌≤◌, Some};
ghost use Rattle.program.specs.Programs.{shown};
ghost use Rattle.unfolding.specs.Unfolding.{listed, expression_at};
ghost use Rattle.unfolding.specs.Walks.{unfolded_in};
ghost use Rattle.steps.specs.Frames.{Arguments, row_after};
ghost use Rattle.round.specs.Machines.{seen, ReadyOne, ReadyAll, Worked, WorkedAll};
ghost use Rattle.steps.specs.Steps.{Computed, Sends, outcome_rows};

use crate::task::{Scene, Task};
use crate::worker::Worker;
use hearing::rows::{link_row, receive};
use kind::kind::Kind;
use program::expression::Expression;
use record::output::Output;
use steps::finish::finish;
use steps::frame::Frame;
use steps::hand_over::hand_over;
use steps::leaf::leaf;
use steps::part_ways::part_ways;
use unfolding::skip::{skip, skip_parts};
use unfolding::step::{count_parts, expression_at};

// What is asked and promised is of worker, scene, output and task together, so it stands at each method. A scene serves many
// tasks, so the two are no one struct.
impl<'m, V: Copy> Worker<'m, V> {
    // Works the expression at `at`: lays its row at `base`, puts its records, passes its places, and answers where it ends.
    #[cycle(working)]
    pub(crate) fn work<K: Kind<Value = V>>(
        &mut self,
        scene: &Scene<'_, '_>,
        output: &mut Output<'_>,
        task: Task,
    ) -> usize
        requires ready { ReadyOne K.Kind.meaning scene.now.inputs.now scene.now.aligned.now scene.now.frame.now task.base task.depth task.at (seen self.old output.old) }
        ensures { Worked K.Kind.meaning scene.now.inputs.now scene.now.aligned.now scene.now.frame.now task.base (seen self.old output.old) (seen self.new output.new) result (unfolded_in scene.now.inputs.now.program.now task.depth task.at) }
    {
        let program = scene.inputs.program;
        let Some(e) = expression_at(program, task.at) else {
            link_row::<K>(scene.inputs, &mut self.rows, task.base);
            return task.at;
        };
        match e {
            Expression::Let => self.bind::<K>(scene, output, task),
            Expression::Exchange | Expression::Share => self.exchange::<K>(scene, output, task, e),
            Expression::If => self.branch::<K>(scene, output, task),
            Expression::Call(n) => self.call::<K>(scene, output, task, n),
            Expression::Operator(_) | Expression::Fold(_) | Expression::Own | Expression::Choose =>
                self.compute::<K>(scene, output, task, e),
            Expression::Literal(_)
            | Expression::Variable(_)
            | Expression::Sensor(_)
            | Expression::Link => {
                leaf::<K>(scene.inputs, e, scene.frame, &mut self.rows, task.base);
                e.parts_start(task.at, program.width())
            }
        }
    }

    // The same of `count` expressions in a row: their rows lie one behind the other. By recursion, as the rules are: a loop
    // would have to say what was done so far in their words.
    #[cycle(working)]
    fn work_parts<K: Kind<Value = V>>(
        &mut self,
        scene: &Scene<'_, '_>,
        output: &mut Output<'_>,
        task: Task,
        count: usize,
    ) -> usize
        requires ready { ReadyAll K.Kind.meaning scene.now.inputs.now scene.now.aligned.now scene.now.frame.now task.base task.depth count task.at (seen self.old output.old) }
        requires few { count ≤ 8 }
        ensures { WorkedAll K.Kind.meaning scene.now.inputs.now scene.now.aligned.now scene.now.frame.now task.base (seen self.old output.old) (seen self.new output.new) result (listed (unfolded_in scene.now.inputs.now.program.now task.depth) count task.at) }
    {
        if count == 0 {
            return task.at;
        }
        let next = self.work::<K>(scene, output, task);
        let base = task.base + self.rows.width;
        self.work_parts::<K>(
            scene,
            output,
            Task {
                at: next,
                base,
                ..task
            },
            count - 1,
        )
    }

    // An expression whose value is made of the rows of its parts.
    #[cycle(working)]
    fn compute<K: Kind<Value = V>>(
        &mut self,
        scene: &Scene<'_, '_>,
        output: &mut Output<'_>,
        task: Task,
        e: Expression,
    ) -> usize
        requires ready { ReadyOne K.Kind.meaning scene.now.inputs.now scene.now.aligned.now scene.now.frame.now task.base task.depth task.at (seen self.old output.old) }
        requires step { Some e ≡ expression_at (shown scene.now.inputs.now.program.now).block task.at }
        requires parts { Computed e }
        ensures { Worked K.Kind.meaning scene.now.inputs.now scene.now.aligned.now scene.now.frame.now task.base (seen self.old output.old) (seen self.new output.new) result (unfolded_in scene.now.inputs.now.program.now task.depth task.at) }
    {
        let program = scene.inputs.program;
        let count = count_parts(program, e);
        let at = e.parts_start(task.at, program.width());
        let depth = task.depth - 1;
        let end = self.work_parts::<K>(scene, output, Task { at, depth, ..task }, count);
        // Copied: flags behind a field that is a reference are not lent again as a slice.
        let aligned = *scene.aligned;
        finish::<K>(e, &aligned, &mut self.rows, task.base);
        end
    }

    // A let: the second part sees the row of the first.
    #[cycle(working)]
    fn bind<K: Kind<Value = V>>(
        &mut self,
        scene: &Scene<'_, '_>,
        output: &mut Output<'_>,
        task: Task,
    ) -> usize
        requires ready { ReadyOne K.Kind.meaning scene.now.inputs.now scene.now.aligned.now scene.now.frame.now task.base task.depth task.at (seen self.old output.old) }
        requires step { Some Expression.Let ≡ expression_at (shown scene.now.inputs.now.program.now).block task.at }
        ensures { Worked K.Kind.meaning scene.now.inputs.now scene.now.aligned.now scene.now.frame.now task.base (seen self.old output.old) (seen self.new output.new) result (unfolded_in scene.now.inputs.now.program.now task.depth task.at) }
    {
        let (at, depth) = (task.at + 1, task.depth - 1);
        let part = Task { at, depth, ..task };
        let next = self.work::<K>(scene, output, part);
        let frame = &scene.frame.with(task.base);
        let inner = Scene { frame, ..*scene };
        let (at, base) = (next, task.base + self.rows.width);
        let end = self.work::<K>(&inner, output, Task { at, base, ..part });
        self.rows.copy(base, task.base);
        end
    }

    // A call: the arguments' rows are the variables of the called body.
    #[cycle(working)]
    fn call<K: Kind<Value = V>>(
        &mut self,
        scene: &Scene<'_, '_>,
        output: &mut Output<'_>,
        task: Task,
        n: u8,
    ) -> usize
        requires ready { ReadyOne K.Kind.meaning scene.now.inputs.now scene.now.aligned.now scene.now.frame.now task.base task.depth task.at (seen self.old output.old) }
        requires step { Some (Expression.Call n) ≡ expression_at (shown scene.now.inputs.now.program.now).block task.at }
        ensures { Worked K.Kind.meaning scene.now.inputs.now scene.now.aligned.now scene.now.frame.now task.base (seen self.old output.old) (seen self.new output.new) result (unfolded_in scene.now.inputs.now.program.now task.depth task.at) }
    {
        let called = scene.inputs.program.function(n);
        let count = called.parameters as usize;
        let (at, depth) = (task.at + 2, task.depth - 1);
        let part = Task { at, depth, ..task };
        let end = self.work_parts::<K>(scene, output, part, count);
        let (frame, top) = arguments(task.base, self.rows.width, count);
        let frame = &frame;
        let inner = Scene { frame, ..*scene };
        let (at, base) = (called.start, top);
        let _ = self.work::<K>(&inner, output, Task { at, base, ..part });
        self.rows.copy(base, task.base);
        end
    }

    // An exchange or share: its place is behind its parts, and the parts behind the initial one see what is received.
    #[cycle(working)]
    fn exchange<K: Kind<Value = V>>(
        &mut self,
        scene: &Scene<'_, '_>,
        output: &mut Output<'_>,
        task: Task,
        e: Expression,
    ) -> usize
        requires ready { ReadyOne K.Kind.meaning scene.now.inputs.now scene.now.aligned.now scene.now.frame.now task.base task.depth task.at (seen self.old output.old) }
        requires step { Some e ≡ expression_at (shown scene.now.inputs.now.program.now).block task.at }
        requires sends { Sends e }
        ensures { Worked K.Kind.meaning scene.now.inputs.now scene.now.aligned.now scene.now.frame.now task.base (seen self.old output.old) (seen self.new output.new) result (unfolded_in scene.now.inputs.now.program.now task.depth task.at) }
    {
        let x = scene.inputs;
        let (at, depth) = (task.at + 1, task.depth - 1);
        let part = Task { at, depth, ..task };
        let next = self.work::<K>(scene, output, part);
        let initial = self.rows.cell(task.base + 1);
        let count = e.part_count(0) - 1;
        let (_, inside) = skip_parts(x.program, count, next, depth);
        let here = self.place + inside;
        receive::<K>(
            x,
            &self.cursors,
            here,
            scene.aligned,
            initial,
            &mut self.rows,
            task.base,
        );
        let frame = &scene.frame.with(task.base);
        let inner = Scene { frame, ..*scene };
        let (at, base) = (next, task.base + self.rows.width);
        let end = self.work_parts::<K>(&inner, output, Task { at, base, ..part }, count);
        let found = rows_found(e, base, self.rows.width);
        hand_over::<K>(
            x,
            here,
            task.base,
            found,
            &mut self.rows,
            output,
            &mut self.cursors,
        );
        self.place = here + 1;
        end
    }

    // An if: only the chosen branch is worked, with the senders that chose it too. The places of the other are passed over.
    #[cycle(working)]
    fn branch<K: Kind<Value = V>>(
        &mut self,
        scene: &Scene<'_, '_>,
        output: &mut Output<'_>,
        task: Task,
    ) -> usize
        requires ready { ReadyOne K.Kind.meaning scene.now.inputs.now scene.now.aligned.now scene.now.frame.now task.base task.depth task.at (seen self.old output.old) }
        requires step { Some Expression.If ≡ expression_at (shown scene.now.inputs.now.program.now).block task.at }
        ensures { Worked K.Kind.meaning scene.now.inputs.now scene.now.aligned.now scene.now.frame.now task.base (seen self.old output.old) (seen self.new output.new) result (unfolded_in scene.now.inputs.now.program.now task.depth task.at) }
    {
        let program = scene.inputs.program;
        let (at, depth) = (task.at + 1, task.depth - 1);
        let part = Task { at, depth, ..task };
        let next = self.work::<K>(scene, output, part);
        let first = K::truth(self.rows.cell(task.base + 1));
        let place = self.place;
        let aligned = &part_ways::<K>(
            scene.inputs,
            place,
            first,
            scene.aligned,
            output,
            &mut self.cursors,
        );
        let inner = Scene { aligned, ..*scene };
        self.place = place + 1;
        if first {
            let second = self.work::<K>(&inner, output, Task { at: next, ..part });
            let (end, inside) = skip(program, second, depth);
            self.place += inside;
            end
        } else {
            let (second, inside) = skip(program, next, depth);
            self.place += inside;
            self.work::<K>(&inner, output, Task { at: second, ..part })
        }
    }
}

// The rows of what is returned and of what is sent.
fn rows_found(e: Expression, top: usize, width: usize) -> (usize, usize)
    requires { top + width < 65536 }
    ensures { result ≡ outcome_rows e top width }
{
    match e {
        Expression::Exchange => (top, top + width),
        _ => (top, top),
    }
}

// The frame of `count` rows from `base` on, and where they end. By a loop: a fold over two values is no plainer.
fn arguments(base: usize, width: usize, count: usize) -> (Frame, usize)
    requires few { count ≤ 8 }
    requires narrow { width ≤ 18 }
    requires small { base + 144 < 65536 }
    ensures rows { Arguments result.0 width base count }
    ensures top { result.1 ≡ row_after width base count }
{
    let mut frame = Frame::empty();
    let mut top = base;
    for _ in 0..count {
        frame = frame.with(top);
        top += width;
    }
    (frame, top)
}
