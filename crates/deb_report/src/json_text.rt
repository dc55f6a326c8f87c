//! The strings of JSON.

ghost use Rattle.std.specs.Prelude.{◌≡◌, ◌++◌, ◌<◌, OnOk};
ghost use Rattle.std.specs.Char.{digit_char};
ghost use Rattle.std.specs.List.{list_any};
ghost use Rattle.deb_report.specs.Forms.{escaped_byte, member, needs_escape, quoted};

use deb_relation::push_texts;
use std::alloc::AllocError;

/// The letter of a digit below 16.
fn hex_digit(digit: u8) -> u8
    requires { digit < 16 }
    ensures { result ≡ digit_char digit }
{
    if digit < 10 {
        b'0' + digit
    } else {
        b'a' + digit - 10
    }
}

#[tactic(auto, unfolding(crate::specs::Forms::escaped_byte))]
fn push_escaped_byte(out: &mut Vec<u8>, byte: u8) -> Result<(), AllocError>
    ensures { OnOk result (out.new.items ≡ out.old.items ++ escaped_byte byte) }
{
    if byte == b'"' || byte == b'\\' {
        out.extend_from_slice(&[b'\\', byte])?;
    } else if byte < 32 {
        out.extend_from_slice(b"\\u00")?;
        out.extend_from_slice(&[hex_digit(byte / 16), hex_digit(byte % 16)])?;
    } else {
        out.push(byte)?;
    }
    Ok(())
}

/// Whether some byte of a text can't stand in a string as it is.
fn needs_escapes(text: &[u8]) -> bool
    ensures { result ≡ list_any needs_escape text.now }
{
    text.iter()
        .any(|byte| *byte == b'"' || *byte == b'\\' || *byte < 32)
}

/// Adds a text as a string. Hardly any has a byte that needs an escape, and a JSON report is strings: byte by byte it takes a quarter longer.
#[tactic(auto, unfolding(crate::specs::Forms::quoted))]
pub fn push_quoted(out: &mut Vec<u8>, text: &[u8]) -> Result<(), AllocError>
    ensures { OnOk result (out.new.items ≡ out.old.items ++ quoted text.now) }
{
    if !needs_escapes(text) {
        return push_texts(out, &[b"\"", text, b"\""]);
    }
    out.extend_from_slice(b"\"")?;
    for byte in text {
        push_escaped_byte(out, *byte)?;
    }
    out.extend_from_slice(b"\"")
}

/// Adds a member of an object, whose value is a string.
#[tactic(auto, unfolding(crate::specs::Forms::member))]
pub(crate) fn push_member(out: &mut Vec<u8>, title: &str, text: &[u8]) -> Result<(), AllocError>
    ensures { OnOk result (out.new.items ≡ out.old.items ++ member title.now text.now) }
{
    push_texts(out, &[b"\"", title.as_bytes(), b"\":"])?;
    push_quoted(out, text)
}
