//! A record as it is told: a line for the codes of the descriptors, for the names, for the variables, for the places where a starter is
//! called, and for each member.
use lowering::Record;
use rules::{Constructor, Made, MadeForm, Name, Stem, Storage, StorageStem};
use sheet::{Place, Sheet};
use std::fmt;

/// A record, and the sheet that has its texts.
#[derive(Clone, Copy)]
pub struct Lowered<'s> {
    pub record: &'s Record,
    pub sheet: Sheet<'s>,
}

/// A text of a sheet; one that is no UTF-8 is told as a question mark.
#[derive(Clone, Copy)]
struct Text<'s>(&'s [u8]);

/// A name as it is written.
#[derive(Clone, Copy)]
struct Written<'s> {
    name: Name,
    sheet: Sheet<'s>,
}

/// What a member is made into.
#[derive(Clone, Copy)]
struct Member<'s> {
    made: &'s Made,
    sheet: Sheet<'s>,
}

impl fmt::Display for Text<'_> {
    fn fmt<W: fmt::Write>(&self, f: &mut fmt::Formatter<W>) -> fmt::Result {
        f.write_str(std::str::from_utf8(self.0).unwrap_or("?"))
    }
}

impl fmt::Display for Written<'_> {
    fn fmt<W: fmt::Write>(&self, f: &mut fmt::Formatter<W>) -> fmt::Result {
        let text = |key: Place| Text(self.sheet.part(key));
        match self.name.stem {
            Stem::Dec => f.write_str("_dec"),
            Stem::ComputedKey => f.write_str("_computedKey"),
            Stem::Init(key) => write!(f, "_init_{}", text(key)),
            Stem::InitFieldKey => f.write_str("_init__computedKey"),
            Stem::InitAccessorKey => f.write_str("_init_computedKey"),
            Stem::Value => f.write_str("value"),
            Stem::V => f.write_str("_v"),
            Stem::Get(key) => write!(f, "_get___{}", text(key)),
            Stem::Set(key) => write!(f, "_set___{}", text(key)),
            Stem::Call(key) => write!(f, "_call_{}", text(key)),
            Stem::InstanceStarter => f.write_str("_initProto"),
            Stem::StaticStarter => f.write_str("_initStatic"),
            Stem::Args => f.write_str("args"),
        }?;
        write!(f, "${}", self.name.mark)
    }
}

impl<'s> Member<'s> {
    fn written(&self, name: Name) -> Written<'s> {
        Written {
            name,
            sheet: self.sheet,
        }
    }

    fn write_storage<W: fmt::Write>(
        &self,
        storage: Storage,
        f: &mut fmt::Formatter<W>,
    ) -> fmt::Result {
        match storage.stem {
            StorageStem::Private(key) => write!(f, "#__{}", Text(self.sheet.part(key))),
            StorageStem::Public(key) => write!(f, "#___private_{}", Text(self.sheet.part(key))),
            StorageStem::ComputedKey => f.write_str("#___private_computedKey"),
        }?;
        write!(f, "_{}", storage.number)
    }

    fn write_value<W: fmt::Write>(
        &self,
        value: Option<Place>,
        f: &mut fmt::Formatter<W>,
    ) -> fmt::Result {
        match value {
            Some(place) => write!(f, " of {}", Text(self.sheet.part(place))),
            None => f.write_str(" of nothing"),
        }
    }
}

impl fmt::Display for Member<'_> {
    fn fmt<W: fmt::Write>(&self, f: &mut fmt::Formatter<W>) -> fmt::Result {
        match self.made.form {
            MadeForm::AsWritten => f.write_str("as written"),
            MadeForm::Initialized { initializer, .. } => {
                write!(f, "field {}", self.written(initializer.name))?;
                self.write_value(initializer.value, f)
            }
            MadeForm::Stored { storage, value, .. } => {
                f.write_str("storage ")?;
                self.write_storage(storage, f)?;
                self.write_value(value, f)
            }
            MadeForm::StoredDecorated {
                storage,
                initializer,
                ..
            } => {
                f.write_str("storage ")?;
                self.write_storage(storage, f)?;
                write!(f, " {}", self.written(initializer.name))?;
                self.write_value(initializer.value, f)
            }
            MadeForm::Called { name } => write!(f, "called {}", self.written(name)),
        }
    }
}

impl Lowered<'_> {
    fn write_names<W: fmt::Write>(
        &self,
        word: &str,
        names: &[Name],
        f: &mut fmt::Formatter<W>,
    ) -> fmt::Result {
        write!(f, "  {word}")?;
        for name in names {
            let name = *name;
            let sheet = self.sheet;
            write!(f, " {}", Written { name, sheet })?;
        }
        writeln!(f)
    }
}

impl Lowered<'_> {
    /// The places where the record has a starter called: in the value of a member, in the constructor, in the static block.
    fn write_calls<W: fmt::Write>(&self, f: &mut fmt::Formatter<W>) -> fmt::Result {
        f.write_str("  calls")?;
        for (number, made) in self.record.members.as_slice().iter().enumerate() {
            if let MadeForm::StoredDecorated { starts: true, .. } = made.form {
                write!(f, " value-of-{number}")?;
            }
        }
        match self.record.frame.constructor {
            Constructor::AsWritten => {}
            Constructor::Old { member } => write!(f, " constructor-{member}")?,
            Constructor::New { before, args } => {
                write!(f, " new-constructor-before-{before}")?;
                if let Some(name) = args {
                    let sheet = self.sheet;
                    write!(f, "-with-{}", Written { name, sheet })?;
                }
            }
        }
        if self.record.frame.static_starter.is_some() {
            f.write_str(" block")?;
        }
        writeln!(f)
    }
}

impl fmt::Display for Lowered<'_> {
    fn fmt<W: fmt::Write>(&self, f: &mut fmt::Formatter<W>) -> fmt::Result {
        let record = self.record;
        f.write_str("  codes")?;
        for descriptor in record.descriptors.as_slice() {
            write!(f, " {}", u8::from(descriptor.code))?;
        }
        writeln!(f)?;
        self.write_names("names", record.names.as_slice(), f)?;
        self.write_names("variables", record.variables.as_slice(), f)?;
        self.write_calls(f)?;
        for (number, made) in record.members.as_slice().iter().enumerate() {
            let sheet = self.sheet;
            writeln!(f, "  member {number}: {}", Member { made, sheet })?;
        }
        Ok(())
    }
}
