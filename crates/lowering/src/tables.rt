//! Tables whose room is reserved where they are made.
ghost use Rattle.std.specs.Prelude.{◌≤◌, vec_len, vec_capacity};

mod methods;

/// A table with room for `N` rows, and no more than these. A row more is appended without asking for memory. It has ghost fields and
/// no model: a model would show whoever is lent a table its rows, and not that they are `N` at most.
#[derive(Drop)]
pub struct Table<T, const N: usize> {
    pub(crate) rows: Vec<T>,
    ghost few: { vec_len rows ≤ N },
    ghost room: { N ≤ vec_capacity rows },
}
