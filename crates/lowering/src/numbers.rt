//! The storage number, and a guard that puts it back.
ghost use Rattle.std.specs.Prelude.{◌≡◌, if◌then◌else◌};

/// The last storage number that was given.
#[derive(Clone, Copy)]
pub(crate) struct Numbers {
    pub(crate) storage: u16,
}

impl Numbers {
    /// The last storage number that was given. That it fits 16 bits is known of what a call returns, and not of a field that is read.
    pub(crate) fn last(self) -> u16
        ensures { result ≡ self.storage }
    {
        self.storage
    }
}

/// Unless the work is accepted, the storage number goes back to what it was, by whichever way the work is left. It is a guard and not
/// an assignment, so that no way out of a lowering, not even one that is added later, can forget it.
pub(crate) struct Restore<'a> {
    pub(crate) numbers: &'a mut Numbers,
    pub(crate) before: u16,
    pub(crate) accepted: bool,
}

impl Drop for Restore<'_> {
    fn drop(self)
        ensures { self.exit.0.now.storage ≡ (if self.entry.accepted then self.entry.numbers.now.storage else self.entry.before) }
    {
        if !self.accepted {
            self.numbers.storage = self.before;
        }
        let Restore {
            numbers: _,
            before: _,
            accepted: _,
        } = self;
    }
}
