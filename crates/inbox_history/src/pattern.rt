/// The byte at index `i` of an item that begins with `first`.
pub fn byte(first: u8, i: usize) -> u8 {
    first.wrapping_add((i % 251) as u8)
}

/// Fills the first `len` bytes of the buffer as an item that begins with `first`.
pub fn fill(buffer: &mut [u8], len: usize, first: u8) {
    for (i, b) in buffer.iter_mut().enumerate().take(len) {
        *b = byte(first, i);
    }
}
