//! A package that was asked, with what is told of it.

use crate::told::Told;

/// An asked place, and what is told of it.
#[derive(Drop)]
pub struct Shown<'t> {
    pub place: u32,
    pub told: &'t Told,
}
