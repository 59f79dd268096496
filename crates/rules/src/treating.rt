//! What the walks have to do.

/// What the walks do with a member. An element is a method, a getter or a setter.
#[derive(Clone, Copy)]
pub enum Treatment {
    /// It stays as it is.
    Untouched,
    /// An accessor without decorators gets storage.
    Stored,
    DecoratedField { private: bool },
    DecoratedAccessor { private: bool },
    DecoratedElement { private: bool },
}

/// What walk 2 knows of the starters: which were drawn, and whether the value of a storage calls the instance starter already.
#[derive(Clone, Copy)]
pub struct Starters {
    pub instance: bool,
    pub statics: bool,
    pub called: bool,
}
