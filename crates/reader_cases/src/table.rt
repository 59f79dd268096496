//! The lines of a table of sheets.
use anyhow::{Context, bail, ensure};
use hex::FromHex;
use std::alloc::Global;

/// A named sheet.
#[derive(Drop)]
pub struct Case<'l> {
    pub name: &'l str,
    pub bytes: Vec<u8>,
}

impl<'l> Case<'l> {
    /// The case of a line: a name, a colon, and tokens with blanks between them.
    pub(crate) fn parse(heap: Global, line: &'l str) -> anyhow::Result<Case<'l>> {
        let (name, tokens) = line.split_once(':').context("no name before a colon")?;
        let mut bytes = Vec::new(heap);
        for token in tokens.split(' ') {
            match token.split_once('*') {
                Some((byte, count)) => push_run(&mut bytes, byte.as_bytes(), count)?,
                None => push_pairs(&mut bytes, token.as_bytes())?,
            }
        }
        Ok(Case { name, bytes })
    }
}

/// Appends a byte, a pair of hexadecimal digits, as often as `count` says.
fn push_run(bytes: &mut Vec<u8>, pair: &[u8], count: &str) -> anyhow::Result<()> {
    let &[high, low] = pair else {
        bail!("a repeated byte is no pair of digits");
    };
    let byte = hex_byte([high, low])?;
    let len = bytes.len().saturating_add(count.parse::<usize>()?);
    bytes.resize(len, byte)?;
    Ok(())
}

/// Appends a byte for each pair of digits.
fn push_pairs(bytes: &mut Vec<u8>, digits: &[u8]) -> anyhow::Result<()> {
    let (pairs, rest) = digits.as_chunks();
    ensure!(rest.is_empty(), "a digit without its pair");
    for pair in pairs {
        bytes.push(hex_byte(*pair)?)?;
    }
    Ok(())
}

/// The byte of two hexadecimal digits, of which capitals are none.
fn hex_byte(digits: [u8; 2]) -> anyhow::Result<u8> {
    let has_capital = digits.iter().any(|digit| digit.is_ascii_uppercase());
    match <[u8; 1]>::from_hex(digits) {
        Ok(byte) if !has_capital => Ok(byte[0]),
        _ => bail!("no hexadecimal digit"),
    }
}
