//! A line of a table of lowerings.
use anyhow::Context;
use std::alloc::Global;

/// A named sheet, and from where marks and storage numbers go on.
#[derive(Drop)]
pub struct Case<'l> {
    pub name: &'l str,
    /// The first mark of the counter.
    pub first: u16,
    /// The storage number before the lowering.
    pub storage: u16,
    pub bytes: Vec<u8>,
}

impl<'l> Case<'l> {
    /// The case of a line: a name, the two numbers, and the sheet in hexadecimal digits, with a blank between them.
    pub(crate) fn parse(heap: Global, line: &'l str) -> anyhow::Result<Case<'l>> {
        let (name, rest) = line.split_once(' ').context("no first mark")?;
        let (first, rest) = rest.split_once(' ').context("no storage number")?;
        let (storage, digits) = rest.split_once(' ').context("no sheet")?;
        Ok(Case {
            name,
            first: first.parse::<u16>()?,
            storage: storage.parse::<u16>()?,
            bytes: hex::decode(heap, digits)?,
        })
    }
}
