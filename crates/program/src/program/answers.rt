ghost use Rattle.std.specs.Prelude.{◌≡◌, ◌≤◌, length, slice_index_or};
ghost use Rattle.program.specs.Measures.{size, depth, weight, places, sites, sizes_of};
ghost use Rattle.program.specs.Sizing.{table_of, no_row};
ghost use Rattle.program.specs.Programs.{shown, run_of};

use super::Program;
use crate::function::Function;
use crate::sizes::Sizes;

impl Program {
    /// The program's number.
    pub fn number(&self) -> u32
        ensures { result ≡ (shown self.now).header.number }
    {
        self.outline.header.number
    }

    /// The number of the kind that it was checked for.
    // A number, and no enum: kinds are open, and one of a user brings its own.
    pub fn kind(&self) -> u8
        ensures { result ≡ (shown self.now).shape.number }
    {
        self.shape.number
    }

    /// How many sensors it reads.
    pub fn sensors(&self) -> u8
        ensures { result ≡ (shown self.now).header.sensors }
    {
        self.outline.header.sensors
    }

    /// How many functions it has; the last one is run.
    pub fn functions(&self) -> u8
        ensures is { result ≡ (shown self.now).header.functions }
        ensures all { result ≡ length (shown self.now).functions }
    {
        self.outline.header.functions
    }

    /// How many bytes a value of that kind has.
    pub fn width(&self) -> usize
        ensures is { result ≡ (shown self.now).shape.width }
    {
        self.shape.width as usize
    }

    /// How many operators that kind has.
    pub fn operators(&self) -> u8
        ensures { result ≡ (shown self.now).shape.operators }
    {
        self.shape.operators
    }

    /// What is kept of a function: a free row where there is none of this number.
    pub fn function(&self, n: u8) -> Function
        ensures { result ≡ slice_index_or (table_of (shown self.now).shape.width (shown self.now).functions) n no_row }
    {
        let row = self.outline.functions.get(n as usize);
        row.copied().unwrap_or_default()
    }

    /// The block that it was read from.
    pub fn block(&self) -> &[u8]
        ensures { result.now ≡ (shown self.now).block }
    {
        self.block.as_slice()
    }

    // The sizes of the function that is run.
    fn run_sizes(&self) -> Sizes
        ensures { result ≡ sizes_of (shown self.now).shape.width (run_of self.now) }
    {
        let last = self.functions() as usize - 1;
        self.outline.functions[last].sizes
    }

    /// The size of the unfolded run: how many expressions it has.
    pub fn size(&self) -> u32
        ensures is { result ≡ size (run_of self.now) }
        ensures limit { result ≤ 4096 }
    {
        self.run_sizes().size
    }

    /// The depth of the unfolded run.
    pub fn depth(&self) -> u32
        ensures is { result ≡ depth (run_of self.now) }
        ensures limit { result ≤ 32 }
    {
        self.run_sizes().depth
    }

    /// The weight of the unfolded run: the most bytes that the records of a round take.
    pub fn weight(&self) -> u32
        ensures is { result ≡ weight (shown self.now).shape.width (run_of self.now) }
        ensures limit { result ≤ 2039 }
    {
        self.run_sizes().weight
    }

    /// How many places the unfolded run has.
    pub fn places(&self) -> u32
        ensures is { result ≡ places (run_of self.now) }
        ensures listed { result ≡ length (sites (run_of self.now)) }
        ensures limit { result ≤ 4096 }
    {
        self.run_sizes().places
    }
}
