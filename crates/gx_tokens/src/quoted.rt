// Quoted texts, as they are spelled and as what they mean.
ghost use Rattle.std.specs.Prelude.{◌≡◌, ◌++◌, false, IfOk, OnOk};
ghost use Rattle.gx_tokens.specs.Quotes.{doubled, quoted_text, unquoted};
ghost use Rattle.gx_tokens.specs.Spelling.{IsQuoted};

use memchr::memchr;
use std::alloc::{AllocError, Global};

/// The text that is meant by the bytes between two quotes, in which each quote stands twice.
pub fn quoted_value(alloc: Global, text: &[u8]) -> Result<Vec<u8>, AllocError>
    // Written between quotes it is these bytes.
    ensures meant { IfOk result (λ value. IsQuoted false text.now →
        doubled value.items ≡ text.now) }
    ensures value { IfOk result (λ value. value.items ≡ unquoted false text.now) }
{
    match memchr(b'"', text) {
        None => text.to_vec(alloc),
        Some(_) => paired_value(alloc, text),
    }
}

// The same, byte by byte.
fn paired_value(alloc: Global, text: &[u8]) -> Result<Vec<u8>, AllocError>
    ensures { IfOk result (λ value. value.items ≡ unquoted false text.now) }
{
    let mut value = Vec::with_capacity(alloc, text.len())?;
    let mut second = false;
    let mut rest = text;
    while let [byte, after @ ..] = rest {
        if !second {
            value.push(*byte)?;
        }
        second = !second && *byte == b'"';
        rest = after;
    }
    Ok(value)
}

/// Appends the text between quotes, each quote in it twice. After an error a part of that may
/// stand.
pub fn push_quoted(out: &mut Vec<u8>, text: &[u8]) -> Result<(), AllocError>
    ensures { OnOk result (out.new.items ≡ out.old.items ++ quoted_text text.now) }
{
    out.push(b'"')?;
    push_doubled(out, text)?;
    out.push(b'"')?;
    Ok(())
}

// Appends the text with each quote in it twice.
fn push_doubled(out: &mut Vec<u8>, text: &[u8]) -> Result<(), AllocError>
    ensures { OnOk result (out.new.items ≡ out.old.items ++ doubled text.now) }
{
    let quote = memchr(b'"', text);
    match quote {
        None => {
            out.extend_from_slice(text)?;
            Ok(())
        }
        Some(_) => push_pairs(out, text),
    }
}

// The same, byte by byte.
fn push_pairs(out: &mut Vec<u8>, text: &[u8]) -> Result<(), AllocError>
    ensures { OnOk result (out.new.items ≡ out.old.items ++ doubled text.now) }
{
    for byte in text {
        if *byte == b'"' {
            out.push(b'"')?;
        }
        out.push(*byte)?;
    }
    Ok(())
}
