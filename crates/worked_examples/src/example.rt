//! What an example is, and how it is run.
ghost use Rattle.std.specs.Prelude.{◌≡◌, ◌<◌, ◌≤◌, IfSome, false};

use command_line::read_line;
use deb_input::{RunFault, fault_line};
use deb_report::Summary;
use debcheck::{run, status};
use devices::{Source, Std};
use run_settings::Config;
use std::alloc::{AllocError, Global};
use std::thread::Threads;
use test_texts::{index_of, report_of};
use work_draw::OpenGate;

/// What stands between two examples of a document.
pub const NEXT: &str = "\n====\n";

/// The report on no stanza.
pub const EMPTY_REPORT: &str = "stanzas 0, skipped 0, duplicates 0, asked 0, broken 0";

/// A run on a text alone under these words, for amd64.
pub fn example_of<'a>(words: &'a str, status: u8, text: &'a str, answer: &'a str) -> Example<'a> {
    Example {
        name: "",
        status,
        words,
        text,
        background: "",
        answer,
    }
}

/// The words of a command line, one text or two, and the answer of a run. Texts and reports may be written shortly.
#[derive(Clone, Copy)]
pub struct Example<'a> {
    pub name: &'a str,
    pub status: u8,
    /// With white space between them.
    pub words: &'a str,
    pub text: &'a str,
    /// The second text, where there is one: what stands under the name that the words give.
    pub background: &'a str,
    /// The report, or the line of the fault under a status above 1.
    pub answer: &'a str,
}

impl<'a> Example<'a> {
    /// Reads lines: `NAME under WORDS`, the text, perhaps `with` and a second text, `gives STATUS`, and the answer.
    ///
    /// A text that isn't written shortly stands byte by byte: one that ends with a line feed has an empty line behind it.
    pub fn read(told: &'a str) -> Option<Example<'a>> {
        let (head, texts) = told.split_once('\n')?;
        let (name, words) = head.split_once(" under ")?;
        let (texts, answer) = texts.split_once("\ngives ")?;
        let (status, answer) = answer.split_once('\n')?;
        let (text, background) = texts.split_once("\nwith\n").unwrap_or((texts, ""));
        Some(Example {
            name,
            status: status.parse::<u8>().ok()?,
            words,
            text,
            background,
            answer,
        })
    }
}

/// The words of two lines.
fn words_of(alloc: Global, words: &str, more: &str) -> Result<Vec<String>, AllocError> {
    let mut list = Vec::new(alloc);
    for line in [words, more] {
        for word in line.split_whitespace() {
            list.push(String::from_str(alloc, word)?)?;
        }
    }
    Ok(list)
}

/// The configuration that the words ask for.
fn config_of(alloc: Global, words: &str, more: &str) -> Option<Config>
    ensures workers { IfSome result (λ config. (0 < config.workers) × (config.workers ≤ 64)) }
    ensures chunk { IfSome result (λ config. 0 < config.chunk) }
{
    let list = words_of(alloc, words, more).ok()?;
    read_line(alloc, list).ok()
}

/// Whether a run that came to this and wrote this gives the answer of the example: the whole report, or the line of a fault under which nothing was written.
fn is_answer(
    alloc: Global,
    example: &Example<'_>,
    outcome: &Result<Summary, RunFault>,
    written: &[u8],
) -> Result<bool, AllocError> {
    let answer = report_of(alloc, example.answer)?;
    let told = match outcome {
        Ok(_) => written == answer.as_bytes(),
        Err(fault) => {
            written.is_empty() && fault_line(alloc, fault)?.as_slice() == answer.as_bytes()
        }
    };
    Ok(told && status(outcome) == example.status)
}

/// Whether a run under a configuration on what a reader gives has the answer of the example.
pub fn gives_under<S: Source, R: Threads + Sync>(
    rt: &R,
    alloc: Global,
    config: &Config,
    reader: &mut S,
    example: &Example<'_>,
) -> bool
    requires reader { S.failed reader.old ≡ false }
    requires workers { (0 < config.now.workers) × (config.now.workers ≤ 64) }
    requires chunk { 0 < config.now.chunk }
{
    let Ok(background) = index_of(alloc, example.background) else {
        return false;
    };
    let mut written = Vec::new(alloc);
    let outcome = run(
        rt,
        alloc,
        config,
        reader,
        &mut Std::new(background.as_bytes()),
        &mut Std::new(&mut written),
        &OpenGate,
    );
    is_answer(alloc, example, &outcome, &written).unwrap_or(false)
}

/// The same under the words of the example and more.
pub fn gives_on<S: Source, R: Threads + Sync>(
    rt: &R,
    alloc: Global,
    more: &str,
    reader: &mut S,
    example: &Example<'_>,
) -> bool
    requires { S.failed reader.old ≡ false }
{
    match config_of(alloc, example.words, more) {
        Some(config) => gives_under(rt, alloc, &config, reader, example),
        None => false,
    }
}

/// The same on the text of the example.
pub fn gives<R: Threads + Sync>(rt: &R, alloc: Global, more: &str, example: &Example<'_>) -> bool {
    match index_of(alloc, example.text) {
        Ok(text) => gives_on(rt, alloc, more, &mut Std::new(text.as_bytes()), example),
        Err(_) => false,
    }
}
