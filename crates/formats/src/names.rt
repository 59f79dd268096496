//! Names: from 1 to 64 ASCII letters, digits, `_` and `$`, of which the first is no digit.
ghost use Rattle.std.specs.Prelude.{◌≡◌};
ghost use Rattle.formats.specs.Names.{in_name, all_in_name, is_name};

/// Whether `bytes` are a name.
pub fn is_name(bytes: &[u8]) -> bool
    ensures { result ≡ is_name bytes.now }
{
    match bytes {
        [] => false,
        [first, ..] => !first.is_ascii_digit() && bytes.len() <= 64 && all_in_name(bytes),
    }
}

fn all_in_name(bytes: &[u8]) -> bool
    ensures { result ≡ all_in_name bytes.now }
{
    bytes.iter().all(|b| in_name(*b))
}

fn in_name(b: u8) -> bool
    ensures { result ≡ in_name b }
{
    b.is_ascii_alphanumeric() || matches!(b, b'_' | b'$')
}
