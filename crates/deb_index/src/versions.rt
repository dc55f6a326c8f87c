//! The versions of a name, in order, so that those within a bound are found without a look at all.
ghost use Rattle.std.specs.Prelude.{◌≡◌, ◌≤◌, filter, length};
ghost use Rattle.std.specs.List.Sorted.{IsPermutation, IsSortedByKey};
ghost use Rattle.std.specs.Ordering.{is_le, is_lt};
ghost use Rattle.deb_relation.specs.VersionOrder.{bound_holds, version_cmp};

use deb_relation::{Op, Version};

/// A version that a package has under a name or provides, and the place of the package.
#[derive(Clone, Copy)]
pub(crate) struct Offer<'t> {
    pub(crate) version: &'t Version,
    pub(crate) place: u32,
}

/// All versions of a name, the lowest first (deb-version(7)).
#[derive(Drop)]
pub(crate) struct Versions<'t> {
    pub(crate) offers: Vec<Offer<'t>>,
    ghost ordered: { IsSortedByKey (λ o. o.version.now) version_cmp offers.items },
}

impl<'t> Versions<'t> {
    ghost use Rattle.deb_index.specs.Rows.{IsPoint};

    pub(crate) fn new(mut offers: Vec<Offer<'t>>) -> Versions<'t>
        ensures { IsPermutation offers.entry.items result.offers.items }
    {
        offers.sort_unstable_by(|one, other| one.version.compare(other.version));
        Versions { offers }
    }

    /// How many are below a version.
    fn below(&self, than: &Version) -> usize
        ensures few { result ≤ length self.now.offers.items }
        ensures point { IsPoint (λ o. is_lt (version_cmp o.version.now than.now)) self.now.offers.items result }
    {
        self.offers
            .partition_point(|offer| offer.version.compare(than).is_lt())
    }

    /// How many are below a version or equal to it.
    fn up_to(&self, than: &Version) -> usize
        ensures few { result ≤ length self.now.offers.items }
        ensures point { IsPoint (λ o. is_le (version_cmp o.version.now than.now)) self.now.offers.items result }
    {
        self.offers
            .partition_point(|offer| offer.version.compare(than).is_le())
    }

    /// Those within a bound (Debian Policy 7.1).
    pub(crate) fn within(&self, op: Op, than: &Version) -> &[Offer<'t>]
        ensures { result.now ≡ filter (λ o. bound_holds o.version.now op than.now) self.now.offers.items }
    {
        match op {
            Op::Lt => &self.offers[..self.below(than)],
            Op::Le => &self.offers[..self.up_to(than)],
            Op::Eq => &self.offers[self.below(than)..self.up_to(than)],
            Op::Ge => &self.offers[self.below(than)..],
            Op::Gt => &self.offers[self.up_to(than)..],
        }
    }
}
