use buffer::buffer::Buffer;
use program::program::Program;
use record::header::MOST_BYTES;
use std::marker::PhantomData;

mod calls;
mod delivery;
mod rounds;

/// A node: it works rounds of its program on what its inbox holds.
#[derive(Drop)]
pub struct Node<K, I> {
    program: Program,
    number: u16,
    inbox: I,
    // No bytes before the first round, as `last_tree` answers them.
    last: Buffer<MOST_BYTES>,
    kind: PhantomData<K>,
}
