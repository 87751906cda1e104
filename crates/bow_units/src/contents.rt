// How the content of a block is told.
ghost use Rattle.std.specs.Prelude.{◌≡◌, ◌++◌, ◌<◌, length, OnOk, codes};
ghost use Rattle.std.specs.String.{string_bytes};
ghost use Rattle.bow_units.specs.Blocks.{are_zero};
ghost use Rattle.bow_units.specs.Contents.{content_text, hex_digit as hex_digit_of, hex_text, pattern_text, trimmed as trimmed_of, PatternsAreTold, TextsTellContents};
ghost use Rattle.bow_units.specs.Sizes.{IsBlockSize};

use crate::{NoMemory, pattern_of};
use std::fmt::Write;

/// Adds the text of a block's content: `zero` where all bytes are zero, `pattern B S` where they are
/// the pattern of block B with seed S, and else `hex H`, where H is the bytes in lower-case hexadecimal
/// without the zero bytes at the end. The bytes are one block. After `NoMemory` the text holds a part.
pub fn push_content(out: &mut String, bytes: &[u8]) -> Result<(), NoMemory>
    requires { IsBlockSize (length bytes.now) }
    ensures { OnOk result (string_bytes out.new ≡ string_bytes out.old ++ content_text bytes.now) }
{
    if all_zero(bytes) {
        return push_word(out, "zero");
    }
    match pattern_of(bytes) {
        Some((block, seed)) => push_pattern(out, block, seed),
        None => push_hex_word(out, trimmed(bytes)),
    }
}

/// The law of these texts: for one block size a content can be told from its text, and a pattern is
/// always told as one. It does nothing.
pub fn content_text_law()
    ensures one { TextsTellContents }
    ensures patterns { PatternsAreTold }
{}

/// Whether all these bytes are zero.
pub fn all_zero(bytes: &[u8]) -> bool
    ensures { result ≡ are_zero bytes.now }
{
    bytes.iter().all(|byte| *byte == 0)
}

fn push_word(out: &mut String, word: &str) -> Result<(), NoMemory>
    ensures { OnOk result (string_bytes out.new ≡ string_bytes out.old ++ word.now) }
{
    out.push_str(word)?;
    Ok(())
}

fn push_pattern(out: &mut String, block: u32, seed: u32) -> Result<(), NoMemory>
    ensures { OnOk result (string_bytes out.new ≡ string_bytes out.old ++ pattern_text block seed) }
{
    write!(out, "pattern {block} {seed}")?;
    Ok(())
}

fn push_hex_word(out: &mut String, bytes: &[u8]) -> Result<(), NoMemory>
    ensures { OnOk result (string_bytes out.new ≡ string_bytes out.old ++ (codes "hex " ++ hex_text bytes.now)) }
{
    push_word(out, "hex ")?;
    push_hex(out, bytes)
}

// The bytes without the zero bytes at the end.
fn trimmed(bytes: &[u8]) -> &[u8]
    ensures { result.now ≡ trimmed_of bytes.now }
{
    let mut end = bytes.len();
    while end > 0 {
        if bytes[end - 1] != 0 {
            return &bytes[..end];
        }
        end -= 1;
    }
    &[]
}

/// Adds two lower-case hexadecimal digits for each byte. After `NoMemory` the text holds a part.
pub fn push_hex(out: &mut String, bytes: &[u8]) -> Result<(), NoMemory>
    ensures { OnOk result (string_bytes out.new ≡ string_bytes out.old ++ hex_text bytes.now) }
{
    for byte in bytes {
        out.push(hex_digit(*byte / 16))?;
        out.push(hex_digit(*byte % 16))?;
    }
    Ok(())
}

/// The lower-case hexadecimal digit of a number below 16.
pub fn hex_digit(n: u8) -> char
    requires { n < 16 }
    ensures value { result ≡ hex_digit_of n }
    ensures ascii { result < 128 }
{
    if n < 10 {
        (b'0' + n) as char
    } else {
        (b'a' + (n - 10)) as char
    }
}
