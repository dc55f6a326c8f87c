//! The newly broken packages of an index: those of whose name none was broken in an earlier one.

ghost use Rattle.std.specs.Prelude.{map};
ghost use Rattle.deb_report.specs.Since.{AreMarks, broken_view, was_broken};

use crate::broken::BrokenPackage;
use crate::marks::marks_of;
use deb_health::Shown;
use deb_index::Index;
use std::alloc::{AllocError, Global};

/// The packages that were broken in an earlier index, and an index that is compared with that.
#[derive(Drop)]
pub struct Before<'b> {
    pub index: &'b Index,
    pub packages: &'b [BrokenPackage],
    /// Marks on the index's names: of each, whether a package of it was broken.
    marks: Vec<bool>,
    ghost are_marks: { AreMarks index.now (was_broken (map broken_view packages.now)) marks.items },
}

impl<'b> Before<'b> {
    ghost use Rattle.std.specs.Prelude.{◌≡◌, ◌<◌, All, IfOk, filter, length, map};
    ghost use Rattle.deb_health.specs.Verdicts.{IsAskedOf, shown_view};
    ghost use Rattle.deb_report.specs.Since.{broken_view, is_new, is_news};

    /// These packages, as `broken_packages` gives them, for an index. `AllocError` where there is no memory for it.
    pub fn new(
        alloc: Global,
        index: &'b Index,
        packages: &'b [BrokenPackage],
    ) -> Result<Before<'b>, AllocError>
        ensures index { IfOk result (λ before. before.index.now ≡ index.now) }
        ensures packages { IfOk result (λ before. before.packages.now ≡ packages.now) }
    {
        let marks = marks_of(alloc, index, packages)?;
        Ok(Before {
            index,
            packages,
            marks,
        })
    }

    /// Whether the package at a place of the index is newly broken, where it is broken: no package of its name was.
    pub fn is_new(&self, place: u32) -> bool
        requires { place < length self.now.index.now.packages }
        ensures { result ≡ is_new self.now.index.now (map broken_view self.now.packages.now) place }
    {
        let marks = self.marks.as_slice();
        !marks[self.index.name_of(place) as usize]
    }

    /// Those of the broken that are newly broken. Their places are of the index. `AllocError` where there is no memory for it.
    pub fn news_of<'v>(
        &self,
        alloc: Global,
        broken: &[Shown<'v>],
    ) -> Result<Vec<Shown<'v>>, AllocError>
        requires { All (λ one. IsAskedOf self.now.index.now (shown_view one)) broken.now }
        ensures { IfOk result (λ news. map shown_view news.items ≡
            filter (is_news self.now.index.now (map broken_view self.now.packages.now)) (map shown_view broken.now)) }
    {
        let mut news = Vec::new(alloc);
        for one in broken {
            if self.is_new(one.place) {
                news.push(Shown {
                    place: one.place,
                    told: one.told,
                })?;
            }
        }
        Ok(news)
    }
}
