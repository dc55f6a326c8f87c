//! What is asked of a run.

ghost use Rattle.std.specs.Prelude.{◌≡◌, IfOk, false};
ghost use Rattle.run_settings.specs.Settings.{settings_of, shows_sets, tells_all_causes, usual_settings};

use std::alloc::{AllocError, Global};

/// The most packages that a worker takes at once.
pub const CHUNK_LIMIT: u32 = 1_000_000;

/// Which packages have a block in the report.
#[derive(Clone, Copy, Debug, PartialEq, Eq)]
pub enum Show {
    /// All that are asked.
    All,
    /// Those that cannot be installed.
    Failures,
    /// Those that can be installed.
    Successes,
}

/// The form of the report.
#[derive(Clone, Copy, Debug, PartialEq, Eq)]
pub enum Format {
    /// Lines of plain text.
    Text,
    /// One JSON document.
    Json,
}

/// The settings of a run.
#[derive(Drop)]
pub struct Config {
    /// The checked architecture.
    pub arch: String,
    /// How many workers check, 1 to `work_draw::WORKER_LIMIT`, 64. The report does not depend on it.
    pub workers: u32,
    /// How many packages a worker takes at once, 1 to `CHUNK_LIMIT`. The report does not depend on it.
    pub chunk: u32,
    /// Whether a block tells the set that was found, or the reasons why there is none.
    pub explain: bool,
    pub show: Show,
    /// Whether each set has to hold the packages that are marked essential (Debian Policy 3.8).
    pub essential: bool,
    /// The names that are asked; all packages without it.
    pub only: Option<Vec<Vec<u8>>>,
    /// The file that has the names that are asked, one a line. A report knows nothing of it: who reads it puts its names into `only`.
    pub only_file: Option<String>,
    /// The file of a second index, whose packages may be used and are not asked; no second index without it.
    pub bg: Option<String>,
    /// The file of an earlier index, whose broken packages a report since then compares with; no such report without it.
    pub since: Option<String>,
    /// Whether an index that asks for nothing is a fault of the run. With `since` it is one, whatever stands here.
    pub strict: bool,
    /// Whether the report ends with the causes of what is broken.
    pub causes: bool,
    /// Whether a broken block that explains tells the cores of all causes, and not the first alone.
    pub all_reasons: bool,
    /// Whether a broken block that explains tells its cores as they are walked from the package, and not as lists.
    pub why: bool,
    pub format: Format,
    /// Whether nothing tells how far a run has come. The report does not depend on it.
    pub quiet: bool,
}

impl Config {
    /// The settings where nothing is said: architecture `amd64`, with explanations, 4 workers and chunks of 64, no second index and no earlier
    /// one, nothing strict, and a report in plain text.
    pub fn usual(alloc: Global) -> Result<Config, AllocError>
        ensures settings { IfOk result (λ config. settings_of config ≡ usual_settings) }
        ensures workers { IfOk result (λ config. config.workers ≡ 4) }
        ensures chunk { IfOk result (λ config. config.chunk ≡ 64) }
        ensures background { IfOk result (λ config. config.bg ≡ None) }
        ensures names { IfOk result (λ config. config.only_file ≡ None) }
        ensures since { IfOk result (λ config. config.since ≡ None) }
        ensures quiet { IfOk result (λ config. config.quiet ≡ false) }
    {
        Ok(Config {
            arch: String::from_str(alloc, "amd64")?,
            workers: 4,
            chunk: 64,
            explain: true,
            show: Show::All,
            essential: true,
            only: None,
            only_file: None,
            bg: None,
            since: None,
            strict: false,
            causes: false,
            all_reasons: false,
            why: false,
            format: Format::Text,
            quiet: false,
        })
    }

    /// Whether the report tells all causes of a package, of which the first core says the first alone.
    pub fn tells_all_causes(&self) -> bool
        ensures { result ≡ tells_all_causes (settings_of self.now) }
    {
        self.causes || self.all_reasons
    }

    /// Whether the report may tell a set that was found: blocks explain, and packages that can be installed have one.
    pub fn shows_sets(&self) -> bool
        ensures { result ≡ shows_sets (settings_of self.now) }
    {
        self.explain && self.show != Show::Failures
    }
}
