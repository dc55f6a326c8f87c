//! What is asked of the index of a text, and what is expected of the answer.

ghost use Rattle.std.specs.Prelude.{◌≡◌, ◌^◌, ◌<◌, All, length, map};
ghost use Rattle.deb_health.specs.Verdicts.{SpeaksOf, told_view};

use crate::reporting::{index_of, named, news_since, report_since_earlier, told_of, verdicts_of};
use deb_index::Index;
use deb_report::{AskedFault, asked_places, report, report_told};
use deb_verdict::Told;
use run_settings::{Config, Format, Show};
use std::alloc::{AllocError, AllocGlobal, Global};
use std::process::Abort;
use std::test::Fail;
use test_texts::report_of;

/// The words that are said; all else is as usual.
#[derive(Clone, Copy)]
pub struct Asked<'a> {
    pub explain: bool,
    pub show: Show,
    pub only: Option<&'a [&'a [u8]]>,
    pub essential: bool,
    pub background: bool,
    pub causes: bool,
    pub all_reasons: bool,
    pub why: bool,
    pub format: Format,
}

/// What is asked where nothing is said.
pub const USUAL: Asked<'static> = Asked {
    explain: true,
    show: Show::All,
    only: None,
    essential: true,
    background: false,
    causes: false,
    all_reasons: false,
    why: false,
    format: Format::Text,
};

/// The call that answers.
#[derive(Clone, Copy)]
pub enum Call<'a> {
    /// The places that are asked.
    Asked,
    Report,
    /// With all cores of the places below a number.
    Told(u32),
    /// The report since the index of an earlier text.
    Since(&'a str),
    /// The places of what is newly broken since then.
    News(&'a str),
}

/// What is expected of an answer.
#[derive(Clone, Copy)]
pub enum Wanted<'a> {
    /// The report that `report_of` makes of lines.
    Report(&'a str),
    /// The report ends as the one that `report_of` makes of lines, or, where these begin with a quotation mark, with the text itself.
    End(&'a str),
    Start(&'a str),
    Places(&'a [u32]),
    /// No places are asked, since this name is unknown.
    Unknown(&'a [u8]),
}

/// What is asked of the index of a text and a background, and what is expected.
#[derive(Clone, Copy)]
pub struct Case<'t, 'a, 'w> {
    pub name: &'t str,
    pub text: &'t str,
    pub background: &'t str,
    pub call: Call<'t>,
    pub asked: Asked<'a>,
    pub wanted: Wanted<'w>,
}

/// The report on no text.
pub const REPORT: Case = Case {
    name: "",
    text: "",
    background: "",
    call: Call::Report,
    asked: USUAL,
    wanted: Wanted::Start(""),
};

fn ask(alloc: Global, config: &mut Config, asked: &Asked<'_>) -> Result<(), AllocError> {
    config.explain = asked.explain;
    config.show = asked.show;
    config.essential = asked.essential;
    config.causes = asked.causes;
    config.all_reasons = asked.all_reasons;
    config.why = asked.why;
    config.format = asked.format;
    if asked.background {
        config.bg = Some(String::from_str(alloc, "background")?);
    }
    if let Some(names) = asked.only {
        config.only = Some(named(alloc, names)?);
    }
    Ok(())
}

/// The configuration that asks so.
fn config_for(alloc: Global, asked: &Asked<'_>) -> Result<Config, AllocError> {
    let mut config = Config::usual(alloc)?;
    ask(alloc, &mut config, asked)?;
    Ok(config)
}

fn is_report(alloc: Global, text: &[u8], lines: &str) -> Result<bool, AllocError> {
    let report = report_of(alloc, lines)?;
    Ok(text == report.as_bytes())
}

fn has_end(alloc: Global, text: &[u8], lines: &str) -> Result<bool, AllocError> {
    if lines.starts_with('"') {
        return Ok(text.ends_with(lines.as_bytes()));
    }
    let report = report_of(alloc, lines)?;
    let head = report_of(alloc, "")?;
    let end = report.strip_prefix(head.as_str()).unwrap_or(&report);
    Ok(text.ends_with(end.as_bytes()))
}

fn expect_text(rt: &(impl Abort + AllocGlobal), case: &Case, text: &[u8]) -> Result<(), Fail> {
    let same = match case.wanted {
        Wanted::Report(lines) => is_report(rt.alloc(), text, lines)?,
        Wanted::End(lines) => has_end(rt.alloc(), text, lines)?,
        Wanted::Start(start) => text.starts_with(start.as_bytes()),
        Wanted::Unknown(name) => text == name,
        Wanted::Places(_) => false,
    };
    let name = case.name;
    assert!(rt; same, "another text: {name}");
    Ok(())
}

fn expect_places(rt: &(impl Abort + AllocGlobal), case: &Case, places: &[u32]) {
    let same = match case.wanted {
        Wanted::Places(wanted) => places == wanted,
        _ => false,
    };
    let name = case.name;
    assert!(rt; same, "other places: {name}");
}

/// Has the call answer on asked places, and compares the answer with what is expected.
fn expect_of(
    rt: &(impl Abort + AllocGlobal),
    index: &Index,
    places: &[u32],
    told: &[Told],
    case: &Case,
    config: &Config,
) -> Result<(), Fail>
    requires few { length places.now < 2 ^ 32 }
    requires same { length places.now ≡ length told.now }
    requires within { All (λ place. place < length index.now.packages) places.now }
    requires speaks { All (SpeaksOf index.now) (map told_view told.now) }
{
    let alloc = rt.alloc();
    match case.call {
        Call::Asked => expect_places(rt, case, places),
        Call::Report => {
            let verdicts = verdicts_of(alloc, index, places)?;
            let text = report(alloc, index, places, verdicts.as_slice(), config)?;
            expect_text(rt, case, &text)?;
        }
        Call::Told(_) => {
            let (text, _) = report_told(alloc, index, places, told, None, config)?;
            expect_text(rt, case, &text)?;
        }
        Call::Since(earlier) => {
            let text = report_since_earlier(alloc, index, places, told, earlier, config)?;
            expect_text(rt, case, &text)?;
        }
        Call::News(earlier) => {
            let news = news_since(alloc, index, places, told, earlier, config)?;
            expect_places(rt, case, &news);
        }
    }
    Ok(())
}

fn expect_at(
    rt: &(impl Abort + AllocGlobal),
    index: &Index,
    places: &[u32],
    case: &Case,
    config: &Config,
) -> Result<(), Fail>
    requires few { length places.now < 2 ^ 32 }
    requires within { All (λ place. place < length index.now.packages) places.now }
{
    let count = match case.call {
        Call::Told(count) => count,
        _ => 0,
    };
    let told = told_of(rt.alloc(), index, places, count)?;
    expect_of(rt, index, places, told.as_slice(), case, config)
}

fn expect_under(
    rt: &(impl Abort + AllocGlobal),
    index: &Index,
    case: &Case,
    config: &Config,
) -> Result<(), Fail> {
    match asked_places(rt.alloc(), index, config) {
        Ok(places) => expect_at(rt, index, places.as_slice(), case, config),
        Err(AskedFault::Memory) => Err(Fail::new("out of memory")),
        Err(AskedFault::Unknown { name }) => expect_text(rt, case, name.as_slice()),
    }
}

fn expect_on(rt: &(impl Abort + AllocGlobal), index: &Index, case: &Case) -> Result<(), Fail> {
    let config = config_for(rt.alloc(), &case.asked)?;
    let outcome = expect_under(rt, index, case, &config);
    drop(config);
    outcome
}

/// Compares the answer of a case with what it expects.
pub fn expect(rt: &(impl Abort + AllocGlobal), case: &Case) -> Result<(), Fail> {
    let index = index_of(rt.alloc(), case.text, case.background)?;
    let outcome = expect_on(rt, &index, case);
    drop(index);
    outcome
}
