//! A text in parts, which several workers read side by side before they are taken in.
ghost use Rattle.std.specs.Prelude.{◌≡◌, ◌++◌, ℕ, List, Ok, IfOk, map};
ghost use Rattle.std.specs.Thread.{IsSync};
ghost use Rattle.deb_control.specs.Stanzas.{stanzas_of};
ghost use Rattle.deb_index.specs.Built.{ArePartsOf, IsForeseen};
ghost use Rattle.deb_index.specs.Reading.{reading_view, readings};

use crate::error::IndexError;
use crate::package::{Reading, next_reading};
use deb_control::{Reader, cut_behind_blank};
use std::alloc::{AllocError, Global};
use std::thread;
use std::thread::Threads;

/// A part of a text: no stanza of the text goes on over either end of it.
#[derive(Drop)]
pub(crate) struct Part<'a> {
    pub(crate) text: &'a [u8],
    /// What its stanzas read as, where they were read beforehand and none has a fault.
    pub(crate) found: Option<Vec<Reading>>,
}

/// A text in one part, which is read when it is taken in.
pub(crate) fn in_one(alloc: Global, text: &[u8]) -> Result<Vec<Part<'_>>, AllocError>
    ensures { IfOk result (λ parted. (arch : List ℕ) → ArePartsOf arch text.now parted.items) }
{
    let mut parts = Vec::new(alloc);
    parts.push(Part { text, found: None })?;
    Ok(parts)
}

/// A text in at most as many parts as there are workers, each of which reads one; a part of fewer than `2 * least` bytes is cut no further.
pub(crate) fn in_many<'a, R: Threads + Sync>(
    rt: &R,
    alloc: Global,
    arch: &[u8],
    text: &'a [u8],
    workers: u32,
    least: usize,
) -> Result<Vec<Part<'a>>, AllocError>
    ensures { IfOk result (λ parted. ArePartsOf arch.now text.now parted.items) }
{
    if workers < 2 {
        return in_one(alloc, text);
    }
    read_parts(rt, alloc, arch, text, workers, least)
}

/// What the stanzas of a part read as, with numbers from 1.
fn read_stanzas(alloc: Global, arch: &[u8], text: &[u8]) -> Result<Vec<Reading>, IndexError>
    ensures { IfOk result (λ v. readings arch.now 0 0 (stanzas_of text.now) ≡ Ok (map reading_view v.items)) }
{
    let mut reader = Reader::new(text);
    let mut found = Vec::new(alloc);
    while let Some(reading) = next_reading(alloc, arch, 0, &mut reader)? {
        found.push(reading)?;
    }
    Ok(found)
}

/// A text as one part, read beforehand. A fault is told when it is taken in, with the number that its stanza has in the whole text.
fn read_part<'a>(alloc: Global, arch: &[u8], text: &'a [u8]) -> Result<Part<'a>, AllocError>
    ensures text { IfOk result (λ part. part.text.now ≡ text.now) }
    ensures found { IfOk result (λ part. IsForeseen arch.now part) }
{
    match read_stanzas(alloc, arch, text) {
        Ok(found) => Ok(Part {
            text,
            found: Some(found),
        }),
        Err(IndexError::Memory) => Err(AllocError),
        Err(_) => Ok(Part { text, found: None }),
    }
}

fn read_alone<'a>(alloc: Global, arch: &[u8], text: &'a [u8]) -> Result<Vec<Part<'a>>, AllocError>
    ensures { IfOk result (λ v. ArePartsOf arch.now text.now v.items) }
{
    let mut parts = Vec::new(alloc);
    parts.push(read_part(alloc, arch, text)?)?;
    Ok(parts)
}

/// The first worker's part, and what is left for the others; nothing is left where the text is too short, or has no empty line there.
fn first_part(text: &[u8], workers: u32, least: usize) -> (&[u8], &[u8])
    ensures whole { text.now ≡ result.0.now ++ result.1.now }
    ensures stanzas { stanzas_of text.now ≡ stanzas_of result.0.now ++ stanzas_of result.1.now }
{
    if workers < 2 || text.len() / 2 < least {
        return (text, &[]);
    }
    cut_behind_blank(text, (text.len() / workers as usize).max(least))
}

fn read_parts<'a, R: Threads + Sync>(
    rt: &R,
    alloc: Global,
    arch: &[u8],
    text: &'a [u8],
    workers: u32,
    least: usize,
) -> Result<Vec<Part<'a>>, AllocError>
    ensures { IfOk result (λ v. ArePartsOf arch.now text.now v.items) }
{
    let (front, back) = first_part(text, workers, least);
    if workers == 0 || back.is_empty() {
        return read_alone(alloc, arch, text);
    }
    let others = workers - 1;
    let (first, rest) = thread::join(
        rt,
        move || -> Result<Vec<Part>, AllocError>
            ensures { IfOk result (λ v. ArePartsOf arch.entry.now front.entry.now v.items) }
        { read_alone(alloc, arch, front) },
        move || -> Result<Vec<Part>, AllocError>
            requires { IsSync R.row }
            ensures { IfOk result (λ v. ArePartsOf arch.entry.now back.entry.now v.items) }
        { read_parts(rt, alloc, arch, back, others, least) },
    );
    let mut parts = first?;
    let mut more = rest?;
    parts.append(&mut more)?;
    Ok(parts)
}
