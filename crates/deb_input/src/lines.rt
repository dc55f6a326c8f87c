//! The lines of a text and their fields, and what of a value is shown.

/// How many bytes of a value are shown.
const SHOWN: usize = 60;

/// Whether a line has spaces and tabs alone.
pub(crate) fn is_blank(line: &[u8]) -> bool {
    line.iter().all(|b| *b == b' ' || *b == b'\t')
}

/// What stands behind a field's name and its colon, with which a line begins, without the white space at both ends.
pub(crate) fn value_in<'t>(line: &'t [u8], name: &[u8]) -> Option<&'t [u8]> {
    let (front, value) = line.split_at_checked(name.len())?;
    front.eq_ignore_ascii_case(name).then(|| value.trim_ascii())
}

/// Whether the first stanza of a text has a field of this name, which has its colon.
pub(crate) fn has_field(text: &[u8], name: &[u8]) -> bool {
    text.split(|b| *b == b'\n')
        .take_while(|line| !is_blank(line))
        .any(|line| value_in(line, name).is_some())
}

/// As much of a value as is shown, where it has printable bytes alone, and some.
pub(crate) fn shown(value: &[u8]) -> Option<&[u8]> {
    if value.is_empty() || !value.iter().all(|b| 32 <= *b && *b <= 126) {
        return None;
    }
    Some(&value[..value.len().min(SHOWN)])
}
