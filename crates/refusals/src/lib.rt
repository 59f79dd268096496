//! How a refusal is told: its number, the layer that refuses, and the place at fault.

#![tactic(auto)]

ghost use Rattle.std.specs.Prelude.{Some};
ghost use Rattle.refusals.specs.Told.{layer_name, told};

use std::fmt;

/// The layer that refuses.
#[derive(Clone, Copy)]
pub enum Layer {
    /// The bytes of a sheet.
    Reading,
    /// The rules of members.
    Members,
    /// The marks that a source supplies.
    Marks,
}

/// A refusal as it is told.
#[derive(Clone, Copy)]
pub struct Numbered {
    pub number: u8,
    pub layer: Layer,
    pub place: usize,
}

impl fmt::Display for Layer {
    ghost output = { λ x. Some (layer_name x) };

    fn fmt<W: fmt::Write>(&self, f: &mut fmt::Formatter<W>) -> fmt::Result {
        match self {
            Layer::Reading => f.write_str("reading"),
            Layer::Members => f.write_str("members"),
            Layer::Marks => f.write_str("marks"),
        }
    }
}

impl fmt::Display for Numbered {
    ghost output = { λ x. Some (told x) };

    fn fmt<W: fmt::Write>(&self, f: &mut fmt::Formatter<W>) -> fmt::Result {
        let number = self.number;
        let layer = self.layer;
        let place = self.place;
        write!(f, "refused {number} {layer} {place}")
    }
}
