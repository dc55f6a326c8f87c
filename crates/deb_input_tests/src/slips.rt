//! What a strict run takes for a fault.

use crate::pieces::TEXT;
use deb_index::Index;
use deb_input::{Slip, slip_of};
use run_settings::Config;
use std::alloc::{AllocError, Global};
use std::process::Abort;

/// A stanza of another architecture.
const ELSEWHERE: &[u8] = b"Package: a\nVersion: 1\nArchitecture: i386\n";

/// The settings of a run that is strict or not, by itself or since an earlier index.
fn settings(alloc: Global, strict: bool, since: bool) -> Result<Config, AllocError> {
    let mut config = Config::usual(alloc)?;
    config.strict = strict;
    if since {
        config.since = Some(format!(in alloc; "old")?);
    }
    Ok(config)
}

/// The slip of a run that asks these places of a text.
fn slip_in(alloc: Global, config: &Config, text: &[u8], asked: &[u32]) -> Option<Option<Slip>> {
    if text.len() > 1_000 || asked.len() > 1_000 {
        return None;
    }
    match Index::read(alloc, text, "amd64", true) {
        Ok(index) => {
            let slip = slip_of(config, &index, asked);
            drop(index);
            Some(slip)
        }
        Err(_) => None,
    }
}

/// A text, which places are asked, and the slip of a strict run.
static SLIPS: [(&[u8], &[u32], Option<Slip>); 4] = [
    (b"", &[], Some(Slip::NoStanza)),
    (ELSEWHERE, &[], Some(Slip::OtherArchitectures)),
    (TEXT, &[], Some(Slip::NothingAsked)),
    (TEXT, &[0, 2], None),
];

/// These are the slips of a run, or it has none, as it isn't strict.
fn expect_slips(rt: &(impl Abort + AllocGlobal), config: &Config, is_strict: bool) {
    for (text, asked, slip) in &SLIPS {
        let wanted = if is_strict { *slip } else { None };
        assert!(rt; slip_in(rt.alloc(), config, text, asked) == Some(wanted));
    }
}

#[test]
fn a_strict_run_slips_where_nothing_is_asked(rt: HostRuntime) {
    for (strict, since) in [(false, false), (true, false), (false, true), (true, true)] {
        match settings(rt.alloc(), strict, since) {
            Ok(config) => expect_slips(&rt, &config, strict || since),
            Err(_) => panic!(rt; "no memory"),
        }
    }
}
