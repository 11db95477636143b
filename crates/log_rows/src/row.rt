//! A row as a feed has it.

ghost use Rattle.std.specs.Prelude.{◌≡◌};
ghost use Rattle.log_rows.specs.Written.{no_cells, cells_value};

use std::alloc::Global;

/// The texts of a row's columns, as the fields of a row message have them (`query.proto`, Row).
#[derive(Debug, Drop)]
pub struct WrittenCells {
    /// the lengths of the texts, packed; that of NULL is -1
    pub lengths: Vec<u8>,
    /// the texts, one behind another
    pub values: Vec<u8>,
}

impl WrittenCells {
    /// No column. Takes no memory.
    pub fn new(alloc: Global) -> WrittenCells
        ensures { cells_value result ≡ no_cells }
    {
        WrittenCells {
            lengths: Vec::new(alloc),
            values: Vec::new(alloc),
        }
    }

    /// Takes all columns out. The memory is kept for others.
    pub fn clear(&mut self)
        ensures { cells_value self.new ≡ no_cells }
    {
        self.lengths.clear();
        self.values.clear();
    }
}
