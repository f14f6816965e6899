ghost use Rattle.std.specs.Prelude.{◌≡◌, ℕ, ◌+◌, ◌^◌, ◌<◌, ◌≤◌, length, IfOk};
ghost use Rattle.program.specs.Reading.{expression_of, start, decoded, part_count, binds};

use refusal::cause::Cause;
use refusal::refused::Refusal;

/// An expression without its parts.
#[derive(Clone, Copy)]
pub enum Expression {
    /// Where in the block its value's bytes begin.
    Literal(usize),
    /// The variable's number.
    Variable(u8),
    Let,
    /// The operator's number.
    Operator(u8),
    /// The operator's number.
    Fold(u8),
    Exchange,
    Share,
    If,
    /// The function's number.
    Call(u8),
    /// The sensor's number.
    Sensor(u8),
    Link,
    Own,
    Choose,
}

// The expression that stands at `at`, where `rest` begins, and where its parts begin.
pub(crate) fn decode(rest: &[u8], at: usize, width: u8) -> Result<(Expression, usize), Refusal>
    requires { at + length rest.now ≤ 1024 }
    ensures is { result ≡ decoded width rest.now at }
    ensures moves { IfOk result (λ d. (at < d.1) × (d.1 ≤ at + length rest.now) × ((o : ℕ) → d.0 ≡ Expression.Literal o → o + width ≡ d.1)) }
{
    let cut = Refusal {
        cause: Cause::ExpressionCut,
        position: at,
    };
    let [code, numbers @ ..] = rest else {
        return Err(cut);
    };
    let number = numbers.first().copied().unwrap_or(0);
    let Some(e) = Expression::of(*code, number, at) else {
        return Err(Refusal {
            cause: Cause::UnknownCode,
            position: at,
        });
    };
    let next = e.parts_start(at, width as usize);
    if next > at + rest.len() {
        return Err(cut);
    }
    Ok((e, next))
}

impl Expression {
    /// The expression with a code at a position of a block, and with the number behind the code if it has one; none if
    /// no expression has the code. For the layers above: a walk keeps its position near the block.
    // No `TryFrom`: a literal is told by its position, and an operand by the byte behind the code.
    pub fn of(code: u8, number: u8, at: usize) -> Option<Expression>
        requires { at + 1 < 2 ^ 64 }
        ensures { result ≡ expression_of code number at }
    {
        match code {
            1 => Some(Expression::Literal(at + 1)),
            2 => Some(Expression::Variable(number)),
            3 => Some(Expression::Let),
            4 => Some(Expression::Operator(number)),
            5 => Some(Expression::Fold(number)),
            6 => Some(Expression::Exchange),
            7 => Some(Expression::Share),
            8 => Some(Expression::If),
            9 => Some(Expression::Call(number)),
            10 => Some(Expression::Sensor(number)),
            11 => Some(Expression::Link),
            12 => Some(Expression::Own),
            13 => Some(Expression::Choose),
            _ => None,
        }
    }

    /// Where its parts begin, if it stands at `at`, with values of `width` bytes.
    pub fn parts_start(self, at: usize, width: usize) -> usize
        requires { start width at self < 2 ^ 64 }
        ensures { result ≡ start width at self }
    {
        match self {
            Expression::Literal(from) => from + width,
            Expression::Variable(_)
            | Expression::Operator(_)
            | Expression::Fold(_)
            | Expression::Call(_)
            | Expression::Sensor(_) => at + 2,
            _ => at + 1,
        }
    }

    /// How many parts follow; a called function has so many parameters.
    pub fn part_count(self, parameters: u8) -> usize
        ensures { result ≡ part_count parameters self }
    {
        match self {
            Expression::Call(_) => parameters as usize,
            Expression::Exchange | Expression::If | Expression::Choose => 3,
            Expression::Let | Expression::Operator(_) | Expression::Fold(_) | Expression::Share =>
                2,
            Expression::Own => 1,
            _ => 0,
        }
    }

    // How many variables the parts behind the first see more.
    pub(crate) fn new_variables(self) -> usize
        ensures is { result ≡ binds self }
        ensures few { result ≤ 1 }
    {
        match self {
            Expression::Let | Expression::Exchange | Expression::Share => 1,
            _ => 0,
        }
    }
}
