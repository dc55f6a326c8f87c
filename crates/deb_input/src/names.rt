//! The names that stand in a file, one a line.

ghost use Rattle.std.specs.Prelude.{◌≡◌, ◌≤◌, IfErr, IfOk, false, length, map, true};
ghost use Rattle.deb_index.specs.Reading.{byte_limit};
ghost use Rattle.deb_input.specs.Names.{FailsToName, ReadsNames, RefusesNames, are_names, lines_in, without_feed};
ghost use Rattle.deb_input.specs.Inputs.{input};

use crate::fault::RunFault;
use crate::input::read_all;
use deb_index::TEXT_LIMIT;
use deb_relation::is_name;
use devices::Source;
use std::alloc::{AllocError, Global};

/// The text without a line feed at its end.
fn without_feed(text: &[u8]) -> &[u8]
    ensures { result.now ≡ without_feed text.now }
{
    if text.ends_with(b"\n") {
        return &text[..text.len() - 1];
    }
    text
}

/// The parts of a text between line feeds.
#[tactic(auto, unfolding(crate::specs::Names::lines_in))]
fn lines_of(alloc: Global, text: &[u8]) -> Result<Vec<&[u8]>, AllocError>
    ensures { IfOk result (λ lines. map (λ line. line.now) lines.items ≡ lines_in text.now) }
{
    let lines = without_feed(text);
    lines.split(|b| *b == b'\n').collect(alloc)
}

/// The names that a text has, one a line.
fn names_of(alloc: Global, text: &[u8]) -> Result<Vec<Vec<u8>>, RunFault>
    requires { length text.now ≤ byte_limit }
    ensures good { IfOk result (λ names. are_names text.now ≡ true) }
    ensures names { IfOk result (λ names. map (λ name. name.items) names.items ≡ lines_in text.now) }
    ensures refused { IfErr result (RefusesNames text.now) }
{
    let lines = lines_of(alloc, text)?;
    let mut names = Vec::new(alloc);
    for line in lines.as_slice() {
        if !is_name(line) {
            let number = names.len() as u64 + 1;
            return Err(RunFault::BadNameLine { line: number });
        }
        names.push(Vec::from_slice(alloc, line)?)?;
    }
    Ok(names)
}

/// Reads names to the end of a file, one a line; a last line feed opens no further line.
///
/// `NamesRead` where a read failed, `NamesTooLong` over `deb_index::TEXT_LIMIT` bytes, `BadNameLine` for the first line that is no package name, also
/// an empty one, counted from 1; or `Memory`.
pub fn read_names<S: Source>(alloc: Global, source: &mut S) -> Result<Vec<Vec<u8>>, RunFault>
    requires { S.failed source.old ≡ false }
    ensures names { IfOk result (λ names.
        ReadsNames (input (S.remaining source.old) (S.failed source.new)) (map (λ name. name.items) names.items)) }
    ensures refused { IfErr result (FailsToName (input (S.remaining source.old) (S.failed source.new))) }
    ensures may_fail { IfErr result (λ fault. fault ≡ RunFault.NamesRead → S.may_fail source.old ≡ true) }
{
    match read_all(alloc, source, TEXT_LIMIT) {
        Ok(bytes) => names_of(alloc, bytes.as_slice()),
        Err(RunFault::Read) => Err(RunFault::NamesRead),
        Err(RunFault::TooLong) => Err(RunFault::NamesTooLong),
        Err(fault) => Err(fault),
    }
}
