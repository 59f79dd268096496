//! What can be done with a table.
ghost use Rattle.std.specs.Prelude.{◌≡◌, ◌+◌, ◌<◌, ◌≤◌, [], ◌∷◌, ◌++◌, length, IfOk};
ghost use Rattle.std.specs.List.{flat_map};
ghost use Rattle.std.specs.Option.{option_to_list};
ghost use Rattle.lowering.specs.Rows.{rows_of};

use super::Table;
use std::alloc::{AllocError, Global};

impl<T, const N: usize> Table<T, N> {
    pub(crate) fn new(heap: Global) -> Result<Table<T, N>, AllocError>
        ensures { IfOk result (λ t. rows_of t ≡ []) }
    {
        let rows = Vec::with_capacity(heap, N)?;
        Ok(Table { rows })
    }

    /// Appends a row, for which there is room. How much room is left is for each caller to know, since all of them append another
    /// number of rows, and none may ask for memory.
    pub(crate) fn push(&mut self, row: T)
        requires { length (rows_of self.old) < N }
        ensures { rows_of self.new ≡ rows_of self.old ++ row ∷ [] }
    {
        self.rows.push_reserved(row);
    }

    /// The rows, in order.
    pub fn as_slice(&self) -> &[T]
        ensures { result.now ≡ rows_of self.now }
    {
        self.rows.as_slice()
    }
}

impl<T: Copy, const N: usize> Table<T, N> {
    /// Appends the rows that are there.
    pub(crate) fn push_present(&mut self, rows: &[Option<T>])
        requires { length (rows_of self.old) + length (flat_map option_to_list rows.now) ≤ N }
        ensures { rows_of self.new ≡ rows_of self.old ++ flat_map option_to_list rows.now }
    {
        for row in rows {
            if let Some(row) = row {
                self.push(*row);
            }
        }
    }
}

impl<T: Drop, const N: usize> Table<T, N> {
    pub(crate) fn clear(&mut self)
        ensures { rows_of self.new ≡ [] }
    {
        self.rows.clear();
    }
}
