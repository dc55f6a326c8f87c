//! The rows of places for the groups and entries of the packages, by place.
ghost use Rattle.std.specs.Prelude.{◌≡◌, ◌+◌, ◌<◌, ◌^◌, ◌++◌, [], IfOk, OnOk, map};
ghost use Rattle.std.specs.List.{All};
ghost use Rattle.deb_index.specs.declared.meets.Role.TheVariants.{Alternative, Entry};
ghost use Rattle.deb_index.specs.Links.{AreJoined, CanFollow, IsLinked, IsRange, packages_in, start_behind};

use crate::lookup::Lookup;
use crate::meets::Role;
use crate::role_rows::RoleRows;
use number_sets::Rows;
use std::alloc::{AllocError, Global};

/// Where the rows of a package's groups and those of its entries begin.
#[derive(Clone, Copy)]
pub(crate) struct Start {
    pub(crate) group: u32,
    pub(crate) entry: u32,
}

/// Adds where the rows of more packages begin, behind rows that end there.
fn push_behind(starts: &mut Vec<Start>, end: Start, more: &[Start]) -> Result<(), AllocError>
    requires groups { All (λ s. end.group + s.group < 2 ^ 32) more.now }
    requires entries { All (λ s. end.entry + s.entry < 2 ^ 32) more.now }
    ensures { OnOk result (starts.new.items ≡ starts.old.items ++ map (start_behind end) more.now) }
{
    for start in more {
        starts.push(Start {
            group: end.group + start.group,
            entry: end.entry + start.entry,
        })?;
    }
    Ok(())
}

/// Adds the rows of the packages in a range of places, and gives where those of each begin.
fn add_rows<'t>(
    alloc: Global,
    lookup: &'t Lookup<'t>,
    from: u32,
    to: u32,
    groups: &mut RoleRows<'t>,
    entries: &mut RoleRows<'t>,
) -> Result<Vec<Start>, AllocError>
    requires range { IsRange lookup.now from to }
    requires groups { groups.old ≡ record { index = lookup.now; role = Alternative; rows = [] } }
    requires entries { entries.old ≡ record { index = lookup.now; role = Entry; rows = [] } }
    ensures { IfOk result (λ s. IsLinked lookup.now (packages_in lookup.now from to) (record { starts = s; groups = groups.new.rows; entries = entries.new.rows })) }
{
    let mut starts = Vec::from_slice(alloc, &[Start { group: 0, entry: 0 }])?;
    for place in from..to {
        let asking = lookup.package(place);
        groups.add_groups(asking)?;
        entries.add_entries(asking)?;
        starts.push(Start {
            group: groups.len() as u32,
            entry: entries.len() as u32,
        })?;
    }
    Ok(starts)
}

/// The rows of the packages' groups and entries, by place.
#[derive(Drop)]
pub(crate) struct Links {
    /// One more than there are packages.
    pub(crate) starts: Vec<Start>,
    pub(crate) groups: Rows,
    pub(crate) entries: Rows,
}

impl Links {
    /// The rows of the packages in a range of places.
    pub(crate) fn of<'t>(
        alloc: Global,
        lookup: &'t Lookup<'t>,
        from: u32,
        to: u32,
    ) -> Result<Links, AllocError>
        requires { IsRange lookup.now from to }
        ensures { IfOk result (λ l. IsLinked lookup.now (packages_in lookup.now from to) l) }
    {
        let mut groups = RoleRows::new(alloc, lookup, Role::Alternative, to - from)?;
        let mut entries = RoleRows::new(alloc, lookup, Role::Entry, to - from)?;
        let starts = add_rows(alloc, lookup, from, to, &mut groups, &mut entries);
        // What was refused is told once both are given up by a call.
        let groups = groups.into_rows();
        let entries = entries.into_rows();
        Ok(Links {
            starts: starts?,
            groups,
            entries,
        })
    }

    /// These rows, and behind them those of more packages.
    pub(crate) fn followed_by(mut self, more: &Links) -> Result<Links, AllocError>
        requires { CanFollow self more.now }
        ensures { IfOk result (AreJoined self more.now) }
    {
        let end = Start {
            group: self.groups.len() as u32,
            entry: self.entries.len() as u32,
        };
        // The first one is the last that stands already: where the rows so far end.
        push_behind(&mut self.starts, end, &more.starts[1..])?;
        let Links {
            starts,
            groups,
            entries,
        } = self;
        let groups = groups.followed_by(&more.groups)?;
        let entries = entries.followed_by(&more.entries)?;
        Ok(Links {
            starts,
            groups,
            entries,
        })
    }
}
