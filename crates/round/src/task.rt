use hearing::inputs::Inputs;
use steps::frame::Frame;

/// Which expression is to be worked: where it stands in the program's block, how deep it may be, and where its row is
/// to lie.
#[derive(Clone, Copy)]
pub(crate) struct Task {
    pub at: usize,
    pub depth: usize,
    pub base: usize,
}

/// What an expression sees: what the round is given, the variables in sight, and which senders are aligned.
#[derive(Clone, Copy)]
pub(crate) struct Scene<'s, 'a> {
    pub inputs: &'s Inputs<'a>,
    pub frame: &'s Frame,
    pub aligned: &'s [bool; 16],
}
