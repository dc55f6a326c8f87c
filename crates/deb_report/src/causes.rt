//! The blocks of causes.

ghost use Rattle.std.specs.Prelude.{◌≡◌, ◌++◌, All, OnOk, Some, map};
ghost use Rattle.deb_index.specs.Constraints.{IsOfIndex};
ghost use Rattle.deb_causes.specs.Causes.{IsCauseOf, cause_view};
ghost use Rattle.deb_report.specs.CauseText.{cause_in, causes_in, count_in, told_in};
ghost use Rattle.deb_report.specs.Sought.{FitsCause};

use crate::form::{Lead, Writer, push_elements, push_list, push_one_of, push_some, push_title};
use crate::hits::hits_of;
use crate::parts::{Part, package_part};
use crate::reasons::group_field;
use crate::sought::similar_to_causes;
use deb_causes::Cause;
use deb_index::Constraint;
use deb_relation::{Print, push_texts};
use run_settings::Format;
use std::alloc::AllocError;

/// The constraints of a cause: what is wrong, or who needs it.
#[derive(Drop)]
struct Reasons<'p, 'i> {
    writer: &'p Writer<'i>,
    needed: bool,
}

impl<'p, 'i> Print<Constraint> for Reasons<'p, 'i> {
    ghost fits = { λ reasons constraint. IsOfIndex reasons.writer.now.index.now constraint };

    ghost text = { λ reasons constraint. told_in reasons.needed reasons.writer.now.config.now.format reasons.writer.now.index.now constraint };

    #[tactic(auto, unfolding(crate::specs::CauseText::told_parts))]
    fn print(&self, out: &mut Vec<u8>, constraint: &Constraint) -> Result<(), AllocError> {
        let writer = self.writer;
        match *constraint {
            Constraint::Need(place, number) => {
                let deb = writer.index.package(place);
                let field = Part::Field(group_field(deb, number).as_bytes());
                let relation = Part::Relation(writer.index.need(place, number));
                if self.needed {
                    writer.push_item(out, Lead::Within, &[package_part(deb), field, relation])?;
                } else {
                    writer.push_item(out, Lead::Within, &[Part::Kind(b"missing"), relation])?;
                }
            }
            Constraint::Essential(_) | Constraint::Apart(_, _) | Constraint::Only(_) => {
                writer.push_reason_front(out, *constraint)?;
                push_one_of(writer.config.format, out, "\n", "}")?;
            }
        }
        Ok(())
    }
}

impl<'i> Print<Cause> for Writer<'i> {
    ghost fits = { λ writer cause. FitsCause writer.index.now writer.similar.now cause };

    ghost text = { λ writer cause. cause_in writer.config.now.format writer.index.now (cause_view cause) };

    fn print(&self, out: &mut Vec<u8>, cause: &Cause) -> Result<(), AllocError> {
        let form = self.config.format;
        let constraints = cause.constraints.as_slice();
        let places = cause.places.as_slice();
        let hits = hits_of(self.alloc, self.index, constraints)?;
        let wrong = Reasons {
            writer: self,
            needed: false,
        };
        let needed = Reasons {
            writer: self,
            needed: true,
        };
        self.push_number(out, Lead::Block, "packages", places.len())?;
        self.push_number(out, Lead::Within, "frees", cause.frees)?;
        push_list(form, out, Lead::Within, "reasons", &wrong, constraints)?;
        push_some(form, out, "needed-by", &needed, cause.needs.as_slice())?;
        push_some(form, out, "hits", self, hits.as_slice())?;
        push_some(form, out, "versions", self, cause.versions.as_slice())?;
        self.push_near_to(out, constraints)?;
        push_list(form, out, Lead::Within, "broken", self, places)?;
        push_one_of(form, out, "", "}")?;
        Ok(())
    }
}

impl<'i> Writer<'i> {
    /// Adds how many causes there are, where lines tell it.
    #[tactic(auto, unfolding(crate::specs::CauseText::count_in))]
    fn push_count(&self, out: &mut Vec<u8>, count: usize) -> Result<(), AllocError>
        ensures { OnOk result (out.new.items ≡ out.old.items ++ count_in self.now.config.now.format count) }
    {
        let digits = count.to_string(self.alloc)?;
        if self.config.format == Format::Text {
            push_texts(out, &[b" ", digits.as_str().as_bytes()])?;
        }
        Ok(())
    }

    /// Adds the causes, by the names that are similar to theirs.
    pub(crate) fn push_causes(&self, out: &mut Vec<u8>, causes: &[Cause]) -> Result<(), AllocError>
        requires { All (λ cause. IsCauseOf self.now.index.now (cause_view cause)) causes.now }
        ensures { OnOk result (out.new.items ≡
            out.old.items ++ causes_in self.now.config.now.format self.now.index.now (Some (map cause_view causes.now))) }
    {
        let form = self.config.format;
        let similar = similar_to_causes(self.alloc, self.index, causes)?;
        let writer = Writer {
            similar: &similar,
            ..*self
        };
        push_title(form, out, Lead::Tall, "causes")?;
        self.push_count(out, causes.len())?;
        push_elements(form, out, Lead::Tall, &writer, causes)?;
        Ok(())
    }
}
