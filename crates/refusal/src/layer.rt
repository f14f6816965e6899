ghost use Rattle.std.specs.Prelude.{◌≡◌};
ghost use Rattle.refusal.specs.Causes.{layer_number};

/// What refused a call.
#[derive(Clone, Copy, PartialEq, Eq, Debug)]
pub enum Layer {
    Program = 1,
    Link = 2,
    Tree = 3,
    Inbox = 4,
    Round = 5,
}

impl Layer {
    /// The number by which a layer is told.
    pub fn number(self) -> u8
        ensures { result ≡ layer_number self }
    {
        self as u8
    }
}
