//! Lists of a few things, held in place, and how a sheet has them: a count, and so many things behind it.

#![tactic(auto)]

ghost use Rattle.std.specs.Prelude.{◌≡◌, ◌≤◌, length};

mod methods;
mod reading;

pub use reading::{Item, read_list};

/// A list of at most `N` things: the first `len` of `items`, behind which stand fillers.
///
/// It lies in place and is copied, since a member is, and nothing may be allocated where a class is lowered. It has no model, since a
/// type that is copied would have to be given back by its model, and a list does not say which fillers stand behind it.
#[derive(Copy)]
pub struct Bounded<T, const N: usize> {
    items: [T; N],
    len: usize,
    ghost room: { length items ≡ N },
    ghost within: { len ≤ N },
}
