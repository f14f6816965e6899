ghost use Rattle.std.specs.Prelude.{◌≡◌};
ghost use Rattle.script.specs.Script.{decimal_value};

/// The number that a word writes in decimal, if it is that and fits 32 bits.
pub fn decimal(word: &[u8]) -> Option<u32>
    ensures { result ≡ decimal_value 0 word.now }
{
    // `str::parse` would take a sign, and refuse the empty word.
    let mut n = 0u32;
    for b in word {
        let digit = match b {
            b'0'..=b'9' => *b - b'0',
            _ => return None,
        };
        n = n.checked_mul(10)?.checked_add(u32::from(digit))?;
    }
    Some(n)
}
