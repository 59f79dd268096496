//! Made names.
use formats::Place;

/// What a made name begins with. Below, `k` is the text of a member's key.
#[derive(Clone, Copy)]
pub enum Stem {
    /// `_dec`: a decorator that was taken out.
    Dec,
    /// `_computedKey`: a key that was taken out.
    ComputedKey,
    /// `_init_k`: the initializer of a field or an accessor.
    Init(Place),
    /// `_init__computedKey`: that of a field whose key was taken out.
    InitFieldKey,
    /// `_init_computedKey`: that of an accessor whose key was taken out.
    InitAccessorKey,
    /// `value`: the parameter of the setter in a private field's descriptor.
    Value,
    /// `_v`: the parameter of a setter of storage.
    V,
    /// `_get___k`: the decorated getter of a private accessor.
    Get(Place),
    /// `_set___k`: the decorated setter of a private accessor.
    Set(Place),
    /// `_call_k`: the decorated function of a private method, getter or setter.
    Call(Place),
    /// `_initProto`
    InstanceStarter,
    /// `_initStatic`
    StaticStarter,
    /// `args`: the arguments of a new constructor in a derived class.
    Args,
}

/// A made name: a stem, a dollar sign and the mark in decimal.
#[derive(Clone, Copy)]
pub struct Name {
    pub stem: Stem,
    pub mark: u16,
}
