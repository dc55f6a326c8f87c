//! What a report tells besides blocks: numbers, packages of an earlier index, and the words that it is made under.

ghost use Rattle.std.specs.Prelude.{◌≡◌, ◌++◌, OnOk};
ghost use Rattle.deb_report.specs.Forms.{quoted};
ghost use Rattle.deb_report.specs.Since.{amends_view, broken_view};
ghost use Rattle.deb_report.specs.Outcome.{number_view};
ghost use Rattle.deb_report.specs.Document.{amended_in, broken_in, counted_in};

use crate::amends::Amends;
use crate::broken::BrokenPackage;
use crate::form::{Lead, Writer, push_list};
use crate::json_text::push_quoted;
use crate::parts::Part;
use deb_relation::Print;
use std::alloc::AllocError;

impl<'i> Print<(&'static str, usize)> for Writer<'i> {
    ghost fits = { λ _ _. Unit {0} };

    ghost text = { λ writer number. counted_in writer.config.now.format (number_view number) };

    fn print(&self, out: &mut Vec<u8>, number: &(&'static str, usize)) -> Result<(), AllocError> {
        self.push_number(out, Lead::Other, number.0, number.1)
    }
}

impl<'i, 'b> Print<&'b BrokenPackage> for Writer<'i> {
    ghost fits = { λ _ _. Unit {0} };

    ghost text = { λ writer deb. broken_in writer.config.now.format (broken_view deb.now) };

    fn print(&self, out: &mut Vec<u8>, deb: &&'b BrokenPackage) -> Result<(), AllocError> {
        let part = Part::Package(deb.name.as_slice(), deb.version.as_slice());
        self.push_item(out, Lead::Other, &[part])
    }
}

impl<'i, 'b> Print<Amends<'b>> for Writer<'i> {
    ghost fits = { λ _ _. Unit {0} };

    ghost text = { λ writer amends. amended_in writer.config.now.format (amends_view amends) };

    #[tactic(auto, using(crate::proofs::FormLemmas::list_map))]
    fn print(&self, out: &mut Vec<u8>, amends: &Amends<'b>) -> Result<(), AllocError> {
        let form = self.config.format;
        let packages = amends.packages.as_slice();
        push_list(form, out, Lead::Other, amends.title, self, packages)?;
        Ok(())
    }
}

impl<'i> Print<&'static str> for Writer<'i> {
    ghost fits = { λ _ _. Unit {0} };

    ghost text = { λ _ word. quoted word.now };

    fn print(&self, out: &mut Vec<u8>, word: &&'static str) -> Result<(), AllocError> {
        push_quoted(out, word.as_bytes())
    }
}
