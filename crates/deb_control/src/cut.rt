//! A text cut into two, so that each part may be read by itself.
ghost use Rattle.std.specs.Prelude.{◌≡◌, ◌<◌, ◌≤◌, ◌++◌, length};
ghost use Rattle.deb_control.specs.Stanzas.{IsClosed, stanzas_of};

use memchr::memmem;

/// Cuts a text in two, right behind the first empty line whose line before it ends at byte `from` or later. Where there is none, the second part is empty.
///
/// The stanzas of the text are those of the first part and, behind them, those of the second: no stanza goes on over an empty line.
pub fn cut_behind_blank(text: &[u8], from: usize) -> (&[u8], &[u8])
    requires { from ≤ length text.now }
    ensures whole { text.now ≡ result.0.now ++ result.1.now }
    ensures stanzas { stanzas_of text.now ≡ stanzas_of result.0.now ++ stanzas_of result.1.now }
    // Where there is a second part, it begins anew, whatever it is.
    ensures closed { 0 < length result.1.now → IsClosed result.0.now }
{
    match memmem::find(&text[from..], b"\n\n".as_slice()) {
        Some(place) => text.split_at(from + place + 2),
        None => (text, &[]),
    }
}
