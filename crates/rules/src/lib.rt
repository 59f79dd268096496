//! The rules of the lowering: what is made of a class.
//!
//! The types are those of the record that a lowering fills. The rules themselves stand in specs/, as definitions.

#![tactic(auto)]

mod describing;
mod forming;
mod naming;
mod treating;

pub use describing::{
    Assignment, Code, Decoration, Decorators, Descriptor, DescriptorKey, Extra, Function,
    PrivateField,
};
pub use forming::{
    Access, Constructor, Frame, Held, Initializer, Made, MadeForm, Storage, StorageStem,
};
pub use naming::{Name, Stem};
pub use treating::{Starters, Treatment};
