//! What is told of a package: as much as is wanted of it.

use deb_index::Constraint;

/// What is told of a package (dose-debcheck(1)).
#[derive(Drop)]
pub enum Told {
    /// Some healthy set contains it; none is told.
    Installable,
    /// The first healthy set that contains it: its places, rising from 0.
    Set(Vec<u32>),
    /// No healthy set contains it: as many of its cores as are wanted, in the order in which they are found, each in the order of the index's list.
    Broken(Vec<Vec<Constraint>>),
}

impl Told {
    ghost use Rattle.std.specs.Prelude.{◌≡◌, map};
    ghost use Rattle.deb_health.specs.Verdicts.{cores_in, told_view};

    /// The cores that are told.
    pub fn cores(&self) -> &[Vec<Constraint>]
        ensures { map (λ core. core.items) result.now ≡ cores_in (told_view self.now) }
    {
        match self {
            Told::Installable | Told::Set(_) => &[],
            Told::Broken(cores) => cores.as_slice(),
        }
    }
}

/// Which cores are wanted of a package that no healthy set contains.
#[derive(Clone, Copy)]
pub enum Cores {
    None,
    /// The first.
    First,
    /// Those whose causes are all its causes.
    All,
}

/// What is wanted of a package, beside whether it can be installed.
#[derive(Clone, Copy)]
pub struct Wanted {
    /// Whether the first healthy set is, of one that can be installed.
    pub sets: bool,
    pub cores: Cores,
}

impl Wanted {
    ghost use Rattle.std.specs.Prelude.{◌≡◌};
    ghost use Rattle.deb_health.specs.Verdicts.{whole_verdict};

    /// All of a verdict: the first set, or the first core.
    pub fn verdict() -> Wanted
        ensures { result ≡ whole_verdict }
    {
        Wanted {
            sets: true,
            cores: Cores::First,
        }
    }
}
