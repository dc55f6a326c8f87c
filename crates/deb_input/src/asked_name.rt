//! What a name is that is asked in vain.

use crate::lines::shown;
use crate::naming::text_of;
use deb_index::Index;
use std::alloc::Global;

/// The shortest name that is taken for another one.
const LEAST: usize = 3;

/// Whether one letter more, less or other makes one name of the other, or two that change places.
fn is_one_off(a: &[u8], b: &[u8]) -> bool {
    let (short, long) = (a.len().min(b.len()), a.len().max(b.len()));
    if short < LEAST || long > short.saturating_add(1) {
        return false;
    }
    let pairs = a.iter().zip(b.iter());
    let front = pairs.take_while(|(x, y)| **x == **y).count().min(short);
    let pairs = a.iter().rev().zip(b.iter().rev());
    let back = pairs.take_while(|(x, y)| **x == **y).count();
    let same = front.saturating_add(back);
    match (&a[front..], &b[front..]) {
        ([x, y, ..], [z, w, ..]) if *x == *w && *y == *z => same.saturating_add(2) >= long,
        _ => same.saturating_add(1) >= long,
    }
}

/// The first package of the foreground whose name is one letter off.
fn near<'i>(index: &'i Index, name: &[u8]) -> Option<&'i [u8]> {
    for place in 0..index.len().min(index.foreground()) {
        let other = index.package(place).name.as_slice();
        if is_one_off(name, other) {
            return Some(other);
        }
    }
    None
}

/// What a name is that no package of the foreground has: one of the background, one that is provided, or one that is a letter off.
pub fn name_text(alloc: Global, index: &Index, name: &[u8]) -> Option<Vec<u8>> {
    if !index.places_of(name).is_empty() {
        let behind = b" is a package of the background: names are asked of the index alone";
        return text_of(alloc, &[name, behind]);
    }
    let before = b"no package is called ";
    match index.provides_of(name).first() {
        Some(entry) if entry.0 < index.len() => {
            let provider = index.package(entry.0).name.as_slice();
            text_of(alloc, &[before, name, b", but ", provider, b" provides it"])
        }
        _ => {
            let near = shown(near(index, name)?)?;
            text_of(alloc, &[before, name, b", but one is called ", near])
        }
    }
}
