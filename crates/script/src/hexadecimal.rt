ghost use Rattle.std.specs.Prelude.{◌≡◌, ◌⊎◌, Some, None, IfOk, IfErr, vec_items};
ghost use Rattle.hex.specs.declared.error.FromHexError.TheVariants.{OutOfMemory};
ghost use Rattle.script.specs.Script.{pairs as pairs_of, written_bytes};

use hex::FromHexError;
use std::alloc::Global;

// Why a word got no bytes where memory ran short: its first byte that is no digit, if it has one.
fn no_bytes(word: &[u8]) -> FromHexError
    ensures { (result ≡ OutOfMemory) ⊎ (pairs_of word.now ≡ None) }
{
    match word.iter().position(|b| !b.is_ascii_hexdigit()) {
        Some(index) => FromHexError::InvalidHexCharacter {
            c: char::from(word[index]),
            index,
        },
        None => FromHexError::OutOfMemory,
    }
}

// Bytes of two digits each.
#[tactic(auto, using(crate::proofs::Pairs::decoded))]
fn pairs(heap: Global, word: &[u8]) -> Result<Vec<u8>, FromHexError>
    ensures read { IfOk result (λ v. pairs_of word.now ≡ Some (vec_items v)) }
    ensures refused { IfErr result (λ e. (e ≡ OutOfMemory) ⊎ (pairs_of word.now ≡ None)) }
{
    match hex::decode(heap, word) {
        // It asks for memory before it reads a digit, and a word with a bad one needs none.
        Err(FromHexError::OutOfMemory) => Err(no_bytes(word)),
        decoded => decoded,
    }
}

/// The bytes of a word in hexadecimal, in either case, `-` for none.
pub fn bytes(heap: Global, word: &[u8]) -> Result<Vec<u8>, FromHexError>
    ensures read { IfOk result (λ v. written_bytes word.now ≡ Some (vec_items v)) }
    ensures refused { IfErr result (λ e. (e ≡ OutOfMemory) ⊎ (written_bytes word.now ≡ None)) }
{
    match word {
        [b'-'] => Ok(Vec::new(heap)),
        _ => pairs(heap, word),
    }
}
