ghost use Rattle.std.specs.Prelude.{◌≡◌, ◌≤◌, ℕ, ◌++◌, length, drop};
ghost use Rattle.kind.specs.Kind.{Meaning, Lawful};

/// A kind of value: what a program computes with.
///
/// `meaning` says what each constant is and what each function answers, as a function of the operands alone, and `lawful`
/// what every kind shows of it. Each constant has a ghost member of its name, which contracts can cite.
pub trait Kind {
    /// The values of the kind.
    type Value: Copy;

    ghost meaning: { Meaning Self.Value };

    /// The kind's number, as a program names it.
    const NUMBER: u8;

    ghost NUMBER: { ℕ };

    /// How many bytes a written value has: 1 to 16.
    const WIDTH: usize;

    ghost WIDTH: { ℕ };

    /// How many operators there are: they are numbered from 0.
    const OPERATORS: u8;

    ghost OPERATORS: { ℕ };

    /// What the link of a node to itself is.
    const OWN: Self::Value;

    ghost OWN: { Self.Value };

    /// What the link of a node to one that it does not hold is.
    const UNKNOWN: Self::Value;

    ghost UNKNOWN: { Self.Value };

    /// Whether a value counts as yes.
    fn truth(v: Self::Value) -> bool
        ensures { result ≡ meaning.truth v };

    /// Whether two values are the same value.
    fn same(a: Self::Value, b: Self::Value) -> bool
        ensures { result ≡ meaning.same a b };

    /// The operator of that number on two values. Every number has an answer; a program names only those below `OPERATORS`.
    // By number, and no enum: each kind has operators of its own, and a program names one by a byte.
    fn apply(operator: u8, a: Self::Value, b: Self::Value) -> Self::Value
        ensures { result ≡ meaning.apply operator a b };

    /// The value that the bytes write. `None` for any other number of bytes than `WIDTH`, and for bytes that the kind refuses.
    fn read(bytes: &[u8]) -> Option<Self::Value>
        ensures { result ≡ meaning.read bytes.now };

    /// Writes a value to the front of `out`, and no further.
    ///
    /// The one function that asks something of its caller: `out` has room for the value.
    /// The layers above check the room before they write, and each of their own calls takes any output.
    fn write(v: Self::Value, out: &mut [u8])
        requires { meaning.width ≤ length out.old }
        ensures { out.new ≡ meaning.written v ++ drop meaning.width out.old };

    ghost lawful: { Lawful meaning };

    ghost number_is: { NUMBER ≡ meaning.number };

    ghost width_is: { WIDTH ≡ meaning.width };

    ghost operators_is: { OPERATORS ≡ meaning.operators };

    ghost own_is: { OWN ≡ meaning.own };

    ghost unknown_is: { UNKNOWN ≡ meaning.unknown };
}
