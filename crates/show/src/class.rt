//! A class as it is shown.
use crate::member::Entry;
use crate::text::Text;
use sheet::{Class, Sheet};
use std::fmt;
use std::fmt::Display;

/// A class, and the sheet that has its texts.
#[derive(Clone, Copy)]
pub struct Listing<'s> {
    pub class: &'s Class,
    pub sheet: Sheet<'s>,
}

impl fmt::Display for Listing<'_> {
    fn fmt<W: fmt::Write>(&self, f: &mut fmt::Formatter<W>) -> fmt::Result {
        let class = self.class;
        let sheet = self.sheet;
        write!(f, "class {}", Text::new(sheet, class.name))?;
        if let Some(superclass) = class.superclass {
            write!(f, " extends {}", Text::new(sheet, superclass))?;
        }
        writeln!(f)?;
        for (number, member) in class.members.iter().enumerate() {
            let entry = Entry {
                number,
                parts: member.parts(),
                sheet,
            };
            entry.fmt(f)?;
        }
        match class.members.len() {
            1 => writeln!(f, "1 member"),
            count => writeln!(f, "{count} members"),
        }
    }
}
