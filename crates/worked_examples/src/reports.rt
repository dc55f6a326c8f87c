//! Each example gives its bytes.

use crate::example::{Example, NEXT, gives};
use crate::{crews, json_reports, refusals, rows, walks};
use std::process::Abort;
use std::thread::Threads;

/// Each example of the document gives its answer under its own words and, in turn, each of some more.
fn check(rt: &(impl Abort + Threads + Sync + AllocGlobal), document: &str, more: &[&str]) {
    for told in document.split(NEXT) {
        let example = Example::read(told).expect(rt, "an example lacks a part");
        for words in more {
            assert!(rt;
                gives(rt, rt.alloc(), words, &example),
                "the report, the fault or the status of {}",
                example.name
            );
        }
    }
}

#[test]
fn examples_give_their_reports(rt: HostRuntime) {
    for document in [
        rows::RELATIONS,
        rows::MEANINGS,
        rows::QUALIFIERS,
        rows::SETTINGS,
        refusals::EXAMPLES,
        json_reports::EXAMPLES,
        walks::EXAMPLES,
    ] {
        check(&rt, document, &[""]);
    }
    for document in [
        crews::BACKGROUNDS,
        crews::REFUSED_BACKGROUNDS,
        crews::WITHOUT_SETS,
    ] {
        check(&rt, document, &crews::CREWS);
    }
    check(&rt, crews::SAMPLE, &crews::SAMPLE_CREWS);
}
