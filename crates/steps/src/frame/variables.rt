ghost use Rattle.std.specs.Prelude.{◌≡◌, ◌<◌};
ghost use Rattle.steps.specs.Frames.{found_row, Longer};

use super::Frame;

impl Frame {
    /// No variables.
    pub fn empty() -> Frame
        ensures { result.count ≡ 0 }
    {
        Frame {
            rows: [0; 40],
            count: 0,
        }
    }

    /// The row of a variable, if there is one of this number.
    pub fn row(&self, i: usize) -> Option<usize>
        ensures { result ≡ found_row self.now i }
    {
        self.rows[..self.count].get(i).map(|row| *row as usize)
    }

    /// These, and one more. An inner function: there is room, and the row has an index of two bytes.
    pub fn with(&self, row: usize) -> Frame
        requires room { self.now.count < 40 }
        requires small { row < 65536 }
        ensures { Longer self.now result row }
    {
        let mut rows = self.rows;
        rows[self.count] = row as u16;
        Frame {
            rows,
            count: self.count + 1,
        }
    }
}
