//! The exit status of a run.

ghost use Rattle.std.specs.Prelude.{◌≡◌};
ghost use Rattle.debcheck.specs.Statuses.{status_of};

use deb_input::RunFault;
use deb_report::Summary;

/// The exit status of a run: 0 where all asked packages can be installed, 1 where some cannot, or with an earlier index 0 where none is newly
/// broken, 1 where some are; 65 for a fault of a text or of a strict run, 66 for an unknown name, 67 where reading failed or a text is too long,
/// 68 where writing failed, 69 for want of memory.
pub fn status(outcome: &Result<Summary, RunFault>) -> u8
    ensures { result ≡ status_of outcome.now }
{
    match outcome {
        Ok(summary) => u8::from(summary.newly_broken.unwrap_or(summary.broken) != 0),
        Err(RunFault::Index(_) | RunFault::Background(_) | RunFault::Earlier(_)) => 65,
        Err(RunFault::Slipped(_) | RunFault::BadNameLine { .. }) => 65,
        Err(RunFault::UnknownAsked { .. }) => 66,
        Err(RunFault::Read | RunFault::TooLong) => 67,
        Err(RunFault::BackgroundRead | RunFault::BackgroundTooLong) => 67,
        Err(RunFault::EarlierRead | RunFault::EarlierTooLong) => 67,
        Err(RunFault::NamesRead | RunFault::NamesTooLong) => 67,
        Err(RunFault::Write) => 68,
        Err(RunFault::Memory) => 69,
    }
}
