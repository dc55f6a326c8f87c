//! A text that is cut in two.
ghost use Rattle.std.specs.Prelude.{◌≤◌, length};

use crate::stanzas::examples::ALTERNATIVES;
use crate::stanzas::fields::outcome_of;
use deb_control::cut_behind_blank;
use std::process::Abort;

/// So many bytes, with so many stanzas, stand in front of the cut, and so many stanzas behind it.
fn expect_cut(
    rt: &(impl Abort + AllocGlobal),
    text: &[u8],
    from: usize,
    bytes: usize,
    before: usize,
    behind: usize,
)
    requires { from ≤ length text.now }
{
    let (front, back) = cut_behind_blank(text, from);
    let counts = (outcome_of(rt, front), outcome_of(rt, back));
    assert!(rt; front.len() == bytes && counts == (Ok(before), Ok(behind)));
}

static CUTS: [(usize, usize, usize, usize); 6] = [
    (0, 56, 1, 2),
    (54, 56, 1, 2),
    (55, 97, 2, 1),
    (95, 97, 2, 1),
    (96, 137, 3, 0),
    (137, 137, 3, 0),
];

#[test]
fn cut_behind_empty_lines(rt: HostRuntime) {
    let text = ALTERNATIVES.as_bytes();
    for (from, bytes, before, behind) in &CUTS {
        assert!(rt; *from <= text.len());
        expect_cut(&rt, text, *from, *bytes, *before, *behind);
    }
}
