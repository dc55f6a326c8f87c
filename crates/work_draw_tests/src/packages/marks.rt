//! Which packages are marked as installable, compared with what is expected.

ghost use Rattle.std.specs.Prelude.{◌<◌, All, length};

use crate::packages::compared::compare_value;
use crate::packages::grounded::Grounded;
use deb_index::Index;
use deb_verdict::find_installable;
use std::alloc::{AllocError, AllocGlobal};
use std::process::Abort;

/// Adds the places that are written, of which each is one of the index. The error is want of memory.
fn add_places(
    rt: &impl Abort,
    places: &mut Vec<u32>,
    index: &Index,
    written: &str,
) -> Result<(), AllocError>
    requires { All (λ place. place < length index.now.packages) places.old.items }
    ensures { All (λ place. place < length index.now.packages) places.new.items }
{
    'words: for word in written.split_whitespace() {
        let place = word.parse::<u32>().expect(rt, "no place");
        assert!(rt; place < index.len());
        places.push(place)?;
    }
    Ok(())
}

/// Compares which packages are marked, where some places are asked for, with what is expected: `0 1 = [true, true, false]`.
pub fn expect_marks(
    rt: &(impl Abort + AllocGlobal),
    grounded: &Grounded<'_>,
    name: &str,
    line: &str,
) -> Result<(), AllocError> {
    let (asked, wanted) = line.split_once('=').expect(rt, name);
    let mut places = Vec::new(rt.alloc());
    expect_marks_of(rt, grounded, &mut places, asked, name, wanted)
}

fn expect_marks_of(
    rt: &(impl Abort + AllocGlobal),
    grounded: &Grounded<'_>,
    places: &mut Vec<u32>,
    asked: &str,
    name: &str,
    wanted: &str,
) -> Result<(), AllocError>
    requires { All (λ place. place < length grounded.now.index.now.packages) places.old.items }
{
    add_places(rt, places, grounded.index, asked)?;
    let marks = find_installable(rt.alloc(), &grounded.groundwork, places)?;
    compare_value(rt, name, "", &marks, wanted)
}
