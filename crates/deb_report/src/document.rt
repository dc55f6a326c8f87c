//! The report in its form: lines, or one JSON document (RFC 8259).

ghost use Rattle.std.specs.Prelude.{◌≡◌, ◌++◌, [], All, IfOk, OnOk, if◌then◌else◌, map};
ghost use Rattle.deb_report.specs.Sought.{FitsBlock, IsWalked};
ghost use Rattle.deb_health.specs.Verdicts.{shown_view};
ghost use Rattle.deb_report.specs.CauseText.{causes_in};
ghost use Rattle.deb_report.specs.Document.{block_in, explanation_in, head_in, report_end, text_under};
ghost use Rattle.run_settings.specs.Settings.{settings_of};
ghost use Rattle.deb_report.specs.Content.{IsContentOf, content_view};

use crate::content::Content;
use crate::form::{Lead, Writer, push_list, push_one_of};
use crate::shown::status_text;
use crate::summary::numbers_of;
use deb_health::{Shown, Told};
use deb_relation::{Print, push_all};
use run_settings::Format;
use std::alloc::AllocError;

impl<'i> Writer<'i> {
    /// Adds what explains a status, where that is asked for.
    #[tactic(auto, unfolding(crate::specs::Document::explanation_in))]
    fn push_explanation(&self, out: &mut Vec<u8>, shown: &Shown<'_>) -> Result<(), AllocError>
        requires { FitsBlock self.now.index.now self.now.config.now self.now.similar.now shown.now }
        ensures { OnOk result (out.new.items ≡ out.old.items
            ++ (if self.now.config.now.explain then explanation_in self.now.index.now (settings_of self.now.config.now) (shown_view shown.now) else [])) }
    {
        if !self.config.explain {
            return Ok(());
        }
        let format = self.config.format;
        match shown.told {
            Told::Installable => {}
            Told::Set(places) => {
                let places = places.as_slice();
                push_list(format, out, Lead::Within, "installation-set", self, places)?;
            }
            Told::Broken(cores) => self.push_cores(out, shown.place, cores.as_slice())?,
        }
        Ok(())
    }
}

impl<'i, 'v> Print<Shown<'v>> for Writer<'i> {
    ghost fits = { λ writer shown. FitsBlock writer.index.now writer.config.now writer.similar.now shown };

    ghost text = { λ writer shown. block_in writer.index.now (settings_of writer.config.now) (shown_view shown) };

    #[tactic(auto, unfolding(crate::specs::Document::block_in))]
    fn print(&self, out: &mut Vec<u8>, shown: &Shown<'v>) -> Result<(), AllocError> {
        let deb = self.index.package(shown.place);
        let architecture = deb.architecture.as_slice();
        self.push_string(out, Lead::Block, "package", deb.name.as_slice())?;
        self.push_string(out, Lead::Within, "version", deb.version.text())?;
        self.push_string(out, Lead::Within, "architecture", architecture)?;
        self.push_string(out, Lead::Within, "status", status_text(shown.told))?;
        self.push_explanation(out, shown)?;
        push_one_of(self.config.format, out, "", "}")?;
        Ok(())
    }
}

impl<'i> Writer<'i> {
    /// Adds what a document begins with.
    #[tactic(auto, unfolding(crate::specs::Document::head_in))]
    fn push_head(&self, out: &mut Vec<u8>, options: &[&'static str]) -> Result<(), AllocError>
        ensures { OnOk result (out.new.items ≡ out.old.items ++ head_in self.now.config.now.format (map (λ one. one.now) options.now)) }
    {
        match self.config.format {
            Format::Text => (),
            Format::Json => {
                out.extend_from_slice(b"{\"format\":2")?;
                push_list(Format::Json, out, Lead::Other, "options", self, options)?;
            }
        }
        Ok(())
    }

    /// Adds the causes, where they are told, and what ends the report.
    fn push_end(&self, out: &mut Vec<u8>, content: &Content<'_>) -> Result<(), AllocError>
        requires { IsContentOf self.now.index.now content.now }
        ensures { OnOk result (out.new.items ≡ out.old.items
            ++ causes_in self.now.config.now.format self.now.index.now (content_view content.now).causes ++ report_end self.now.config.now.format) }
    {
        if let Some(causes) = &content.causes {
            self.push_causes(out, causes.as_slice())?;
        }
        push_one_of(self.config.format, out, "", "}\n")?;
        Ok(())
    }

    /// The whole report, under the words that it is made under.
    pub(crate) fn text(
        &self,
        options: &[&'static str],
        content: &Content<'_>,
    ) -> Result<Vec<u8>, AllocError>
        requires content { IsContentOf self.now.index.now content.now }
        requires walked { All (IsWalked self.now.index.now self.now.config.now self.now.similar.now) content.now.blocks.items }
        ensures { IfOk result (λ text. text.items ≡
            text_under (map (λ one. one.now) options.now) self.now.index.now (settings_of self.now.config.now) (content_view content.now)) }
    {
        let form = self.config.format;
        let arch = self.index.arch();
        let blocks = content.blocks.as_slice();
        let background = self.config.bg.is_some();
        let numbers = numbers_of(self.alloc, self.index, content.counts, background)?;
        let mut out = Vec::new(self.alloc);
        self.push_head(&mut out, options)?;
        self.push_string(&mut out, Lead::Other, "architecture", arch)?;
        push_list(form, &mut out, Lead::Tall, "report", self, blocks)?;
        push_all(&mut out, self, numbers.as_slice())?;
        push_all(&mut out, self, content.lists.as_slice())?;
        self.push_end(&mut out, content)?;
        Ok(out)
    }
}
