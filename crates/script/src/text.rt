ghost use Rattle.std.specs.Prelude.{◌≡◌, ℕ, ◌==◌, Bool, not, ◌<◌, ◌≤◌, length, drop};
ghost use Rattle.std.specs.Fn.{ComputesKey};
ghost use Rattle.script.specs.Script.{blank, before, from, first_word, other_words};

/// Whether a byte parts words.
fn is_blank(b: u8) -> bool
    ensures { result ≡ blank b }
{
    matches!(b, b' ' | b'\t' | b'\r')
}

/// What stands before the first byte that stops, and what stands from it on.
fn split_before<F: Fn(&u8) -> bool>(text: &[u8], stops: F) -> (&[u8], &[u8])
    requires { F.IsAlwaysCallable stops }
    ensures within { length result.1.now ≤ length text.now }
    ensures front { (p : ℕ → Bool) → ComputesKey F.FnMut p stops → result.0.now ≡ before p text.now }
    ensures back { (p : ℕ → Bool) → ComputesKey F.FnMut p stops → result.1.now ≡ from p text.now }
{
    let n = text.iter().position(stops).unwrap_or(text.len());
    text.split_at(n)
}

/// What stands before the first byte `c`, and what stands behind it.
pub fn cut(text: &[u8], c: u8) -> (&[u8], &[u8])
    ensures front { result.0.now ≡ before (λ b. b == c) text.now }
    ensures back { result.1.now ≡ drop 1 (from (λ b. b == c) text.now) }
    ensures shorter { 0 < length text.now → length result.1.now < length text.now }
{
    let (front, back) = split_before(text, |b| *b == c);
    match back {
        [_, behind @ ..] => (front, behind),
        [] => (front, back),
    }
}

/// The first word of a line, empty if there is none, and what follows it.
// Empty, and no `Option`: what follows is answered either way.
pub fn first_word(line: &[u8]) -> (&[u8], &[u8])
    ensures word { result.0.now ≡ first_word line.now }
    ensures rest { result.1.now ≡ other_words line.now }
{
    let (_, words) = split_before(line, |b| !is_blank(*b));
    split_before(words, |b| is_blank(*b))
}
