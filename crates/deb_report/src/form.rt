//! How members, lists and items of a report are written in each form.

ghost use Rattle.std.specs.Prelude.{◌≡◌, ◌++◌, All, OnOk, map};
ghost use Rattle.run_settings.specs.declared.config.Format.TheVariants.{Text};
ghost use Rattle.deb_report.specs.declared.form.Lead.TheVariants.{Within};
ghost use Rattle.deb_report.specs.Forms.{each_in, elements_in, end_of, lead_of, list_in, number_in, some_in};
ghost use Rattle.deb_report.specs.Forms.{string_in, title_in, item_front, item_in, name_in, one_of, part_view};

use crate::json_text::push_quoted;
use crate::parts::{InJson, InLine, Part};
use deb_causes::Similar;
use deb_index::Index;
use deb_relation::{Print, push_all, push_joined, push_texts};
use run_settings::{Config, Format};
use std::alloc::{AllocError, Global};

/// Where a member stands.
#[derive(Clone, Copy)]
pub enum Lead {
    /// In the report, behind what it begins with.
    Other,
    /// Likewise, and blocks are its elements.
    Tall,
    /// First in a block.
    Block,
    /// Behind others of a block.
    Within,
}

/// What stands before a member.
#[tactic(auto, unfolding(crate::specs::Forms::lead_of))]
fn lead_of(format: Format, lead: Lead) -> &'static str
    ensures { result.now ≡ lead_of format lead }
{
    match format {
        Format::Text => match lead {
            Lead::Other | Lead::Tall => "",
            Lead::Block => " -\n  ",
            Lead::Within => "  ",
        },
        Format::Json => match lead {
            Lead::Other | Lead::Tall | Lead::Within => ",",
            Lead::Block => "\n{",
        },
    }
}

/// What ends an array.
#[tactic(auto, unfolding(crate::specs::Forms::end_of))]
fn end_of(lead: Lead) -> &'static str
    ensures { result.now ≡ end_of lead }
{
    match lead {
        Lead::Tall => "\n]",
        Lead::Other | Lead::Block | Lead::Within => "]",
    }
}

/// Adds the text of the form: in lines, or in JSON.
pub fn push_one_of(
    format: Format,
    out: &mut Vec<u8>,
    line: &str,
    json: &str,
) -> Result<(), AllocError>
    ensures { OnOk result (out.new.items ≡ out.old.items ++ one_of format line.now json.now) }
{
    match format {
        Format::Text => out.extend_from_slice(line.as_bytes())?,
        Format::Json => out.extend_from_slice(json.as_bytes())?,
    }
    Ok(())
}

/// Adds the title of a member.
#[tactic(auto, unfolding(crate::specs::Forms::title_in))]
pub fn push_title(
    format: Format,
    out: &mut Vec<u8>,
    lead: Lead,
    title: &str,
) -> Result<(), AllocError>
    ensures { OnOk result (out.new.items ≡ out.old.items ++ title_in format lead title.now) }
{
    out.extend_from_slice(lead_of(format, lead).as_bytes())?;
    match format {
        Format::Text => {
            out.extend_from_slice(title.as_bytes())?;
            out.push(b':')?;
        }
        Format::Json => push_texts(out, &[b"\"", title.as_bytes(), b"\":"])?,
    }
    Ok(())
}

/// Adds the texts of elements, as they stand under a title.
#[tactic(auto, unfolding(crate::specs::Forms::elements_in))]
pub fn push_elements<T, P: Print<T>>(
    format: Format,
    out: &mut Vec<u8>,
    lead: Lead,
    printer: &P,
    elements: &[T],
) -> Result<(), AllocError>
    requires { All (P.fits printer.now) elements.now }
    ensures { OnOk result (out.new.items ≡ out.old.items ++ elements_in format lead (P.text printer.now) elements.now) }
{
    match format {
        Format::Text => {
            out.push(b'\n')?;
            push_all(out, printer, elements)?;
        }
        Format::Json => {
            out.extend_from_slice(b"[")?;
            push_joined(out, ",", printer, elements)?;
            out.extend_from_slice(end_of(lead).as_bytes())?;
        }
    }
    Ok(())
}

/// Adds elements under a title.
#[tactic(auto, unfolding(crate::specs::Forms::list_in))]
pub fn push_list<T, P: Print<T>>(
    format: Format,
    out: &mut Vec<u8>,
    lead: Lead,
    title: &str,
    printer: &P,
    elements: &[T],
) -> Result<(), AllocError>
    requires { All (P.fits printer.now) elements.now }
    ensures { OnOk result (out.new.items ≡ out.old.items ++ list_in format lead title.now (P.text printer.now) elements.now) }
{
    push_title(format, out, lead, title)?;
    push_elements(format, out, lead, printer, elements)
}

/// Adds elements under a title in a block; lines leave it out where there are none.
#[tactic(auto, unfolding(crate::specs::Forms::some_in))]
pub fn push_some<T, P: Print<T>>(
    format: Format,
    out: &mut Vec<u8>,
    title: &str,
    printer: &P,
    elements: &[T],
) -> Result<(), AllocError>
    requires { All (P.fits printer.now) elements.now }
    ensures { OnOk result (out.new.items ≡ out.old.items ++ some_in format title.now (P.text printer.now) elements.now) }
{
    if format == Format::Json || !elements.is_empty() {
        push_list(format, out, Lead::Within, title, printer, elements)?;
    }
    Ok(())
}

/// Elements that are several lines, each under the title.
#[derive(Drop)]
struct Titled<'t, P> {
    title: &'t str,
    printer: &'t P,
}

impl<'t, T, P: Print<T>> Print<T> for Titled<'t, P> {
    ghost fits = { λ titled element. P.fits titled.printer.now element };

    ghost text = { λ titled element. title_in Text Within titled.title.now ++ P.text titled.printer.now element };

    fn print(&self, out: &mut Vec<u8>, element: &T) -> Result<(), AllocError> {
        push_title(Format::Text, out, Lead::Within, self.title)?;
        self.printer.print(out, element)
    }
}

/// Adds elements that are several lines: the title stands before each of them, and in JSON before the array.
#[tactic(auto, unfolding(crate::specs::Forms::each_in))]
pub fn push_each<T, P: Print<T>>(
    format: Format,
    out: &mut Vec<u8>,
    title: &str,
    printer: &P,
    elements: &[T],
) -> Result<(), AllocError>
    requires { All (P.fits printer.now) elements.now }
    ensures { OnOk result (out.new.items ≡ out.old.items ++ each_in format title.now (P.text printer.now) elements.now) }
{
    match format {
        Format::Text => push_all(out, &Titled { title, printer }, elements)?,
        Format::Json => push_list(format, out, Lead::Within, title, printer, elements)?,
    }
    Ok(())
}

/// What a report is written by: its index, what is asked of it, and the names that are told as similar.
#[derive(Drop)]
pub struct Writer<'i> {
    pub alloc: Global,
    pub index: &'i Index,
    pub config: &'i Config,
    pub similar: &'i Similar,
}

impl<'i> Writer<'i> {
    /// Adds a number under its title.
    #[tactic(auto, unfolding(crate::specs::Forms::number_in))]
    pub fn push_number(
        &self,
        out: &mut Vec<u8>,
        lead: Lead,
        title: &str,
        number: usize,
    ) -> Result<(), AllocError>
        ensures { OnOk result (out.new.items ≡ out.old.items ++ number_in self.now.config.now.format lead title.now number) }
    {
        let digits = number.to_string(self.alloc)?;
        let digits = digits.as_str().as_bytes();
        push_title(self.config.format, out, lead, title)?;
        match self.config.format {
            Format::Text => push_texts(out, &[b" ", digits, b"\n"])?,
            Format::Json => out.extend_from_slice(digits)?,
        }
        Ok(())
    }

    /// Adds a text under its title.
    #[tactic(auto, unfolding(crate::specs::Forms::string_in))]
    pub fn push_string(
        &self,
        out: &mut Vec<u8>,
        lead: Lead,
        title: &str,
        text: &[u8],
    ) -> Result<(), AllocError>
        ensures { OnOk result (out.new.items ≡ out.old.items ++ string_in self.now.config.now.format lead title.now text.now) }
    {
        push_title(self.config.format, out, lead, title)?;
        match self.config.format {
            Format::Text => {
                out.push(b' ')?;
                out.extend_from_slice(text)?;
                out.push(b'\n')?;
            }
            Format::Json => push_quoted(out, text)?,
        }
        Ok(())
    }

    /// Adds an item up to its end.
    pub fn push_front(
        &self,
        out: &mut Vec<u8>,
        lead: Lead,
        parts: &[Part<'_>],
    ) -> Result<(), AllocError>
        ensures { OnOk result (out.new.items ≡ out.old.items ++ item_front self.now.config.now.format lead (map part_view parts.now)) }
    {
        match self.config.format {
            Format::Text => {
                push_texts(out, &[lead_of(Format::Text, lead).as_bytes(), b" - "])?;
                push_all(out, &InLine, parts)?;
            }
            Format::Json => {
                out.extend_from_slice(b"{")?;
                push_joined(out, ",", &InJson { alloc: self.alloc }, parts)?;
            }
        }
        Ok(())
    }

    /// Adds an item.
    pub fn push_item(
        &self,
        out: &mut Vec<u8>,
        lead: Lead,
        parts: &[Part<'_>],
    ) -> Result<(), AllocError>
        ensures { OnOk result (out.new.items ≡ out.old.items ++ item_in self.now.config.now.format lead (map part_view parts.now)) }
    {
        self.push_front(out, lead, parts)?;
        push_one_of(self.config.format, out, "\n", "}")
    }

    /// Adds a name alone.
    #[tactic(auto, unfolding(crate::specs::Forms::name_in))]
    pub fn push_name(&self, out: &mut Vec<u8>, name: &[u8]) -> Result<(), AllocError>
        ensures { OnOk result (out.new.items ≡ out.old.items ++ name_in self.now.config.now.format name.now) }
    {
        match self.config.format {
            Format::Text => push_texts(out, &[b"   - ", name, b"\n"])?,
            Format::Json => push_quoted(out, name)?,
        }
        Ok(())
    }
}
