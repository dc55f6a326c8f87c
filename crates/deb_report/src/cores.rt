//! The cores of a package, as a report tells them.

ghost use Rattle.std.specs.Prelude.{◌≡◌, ◌++◌, ◌<◌, All, OnOk, length, map};
ghost use Rattle.deb_report.specs.Document.{all_cores, core_in, first_title, is_walked, told_in};
ghost use Rattle.deb_report.specs.Sought.{IsTold};
ghost use Rattle.run_settings.specs.Settings.{settings_of};

use crate::form::{Lead, Writer, push_each, push_elements, push_one_of, push_title};
use crate::walk_lines::push_walk;
use deb_index::Constraint;
use deb_relation::Print;
use run_settings::Format;
use std::alloc::AllocError;

impl<'i> Print<Constraint> for Writer<'i> {
    ghost fits = { λ writer constraint. IsTold writer.index.now writer.config.now writer.similar.now constraint };

    ghost text = { λ writer constraint. told_in writer.index.now (settings_of writer.config.now) constraint };

    #[tactic(auto, unfolding(crate::specs::Document::told_in))]
    fn print(&self, out: &mut Vec<u8>, constraint: &Constraint) -> Result<(), AllocError> {
        self.push_reason_front(out, *constraint)?;
        if self.config.why {
            self.push_links(out, *constraint)?;
        }
        push_one_of(self.config.format, out, "\n", "}")
    }
}

/// The cores of the package at a place.
#[derive(Drop)]
struct Cores<'w, 'i> {
    writer: &'w Writer<'i>,
    place: u32,
}

impl<'w, 'i> Print<Vec<Constraint>> for Cores<'w, 'i> {
    ghost fits = { λ cores core. (cores.place < length cores.writer.now.index.now.packages)
        × All (IsTold cores.writer.now.index.now cores.writer.now.config.now cores.writer.now.similar.now) core.items };

    ghost text = { λ cores core. core_in cores.writer.now.index.now (settings_of cores.writer.now.config.now) cores.place core.items };

    #[tactic(auto, unfolding(crate::specs::Document::core_in))]
    fn print(&self, out: &mut Vec<u8>, core: &Vec<Constraint>) -> Result<(), AllocError> {
        let writer = self.writer;
        let place = self.place;
        let core = core.as_slice();
        if writer.is_walked() {
            out.extend_from_slice(b"\n")?;
            push_walk(writer.alloc, out, writer.index, writer.similar, place, core)?;
        } else {
            push_elements(writer.config.format, out, Lead::Within, writer, core)?;
        }
        Ok(())
    }
}

impl<'i> Writer<'i> {
    /// Whether lines tell a walk as it goes.
    fn is_walked(&self) -> bool
        ensures { result ≡ is_walked self.now.config.now.format self.now.config.now.why }
    {
        match self.config.format {
            Format::Text => self.config.why,
            Format::Json => false,
        }
    }

    /// The title of a first core.
    fn first_title(&self) -> &'static str
        ensures { result.now ≡ first_title (is_walked self.now.config.now.format self.now.config.now.why) }
    {
        if self.is_walked() { "why" } else { "reasons" }
    }

    /// Adds the first core of the package at a place, and those behind it, or how many they are.
    #[tactic(auto, unfolding(crate::specs::Document::all_cores, crate::specs::Document::later_in))]
    pub(crate) fn push_cores(
        &self,
        out: &mut Vec<u8>,
        place: u32,
        cores: &[Vec<Constraint>],
    ) -> Result<(), AllocError>
        requires place { place < length self.now.index.now.packages }
        requires cores { All (λ core. All (IsTold self.now.index.now self.now.config.now self.now.similar.now) core.items) cores.now }
        ensures { OnOk result (out.new.items ≡
            out.old.items ++ all_cores self.now.index.now (settings_of self.now.config.now) place (map (λ core. core.items) cores.now)) }
    {
        if let [core, later @ ..] = cores {
            let form = self.config.format;
            let of_place = Cores {
                writer: self,
                place,
            };
            push_title(form, out, Lead::Within, self.first_title())?;
            of_place.print(out, core)?;
            if self.config.all_reasons {
                push_each(form, out, "also", &of_place, later)?;
            } else if !later.is_empty() {
                self.push_number(out, Lead::Within, "further", later.len())?;
            }
        }
        Ok(())
    }
}
