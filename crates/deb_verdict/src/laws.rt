//! Laws of the definitions: functions without work, whose contracts say what holds.

ghost use Rattle.std.specs.Prelude.{◌≡◌, ◌↔◌, ℕ, true, List};
ghost use Rattle.deb_index.specs.declared.constraint.Constraint.{Constraint};
ghost use Rattle.deb_index.specs.Packages.{IndexView};
ghost use Rattle.number_sets.specs.Sets.{NumberSet, IsFirst, IsWithin};
ghost use Rattle.deb_health.specs.Health.{IsInstallation, MeetsAt, Admits, AdmitsNone};
ghost use Rattle.deb_verdict.specs.Closure.{cut, IsClosure, kept};
ghost use Rattle.deb_health.specs.Verdicts.{IsFirstInstallation, IsFirstCore, IsTold, ToldView};
ghost use Rattle.deb_health.specs.declared.told.Wanted.{Wanted};

/// What lies outside of the closure of a package plays no part in its verdict.
pub fn closure()
    ensures cut { (index : IndexView) (p : ℕ) (members set positions : NumberSet) → IsClosure index p members → MeetsAt index set positions
        → MeetsAt index (cut set members) positions }
    ensures contained { (index : IndexView) (p : ℕ) (members set : NumberSet) → IsClosure index p members → set p ≡ true → cut set members p ≡ true }
    ensures kept { (index : IndexView) (p : ℕ) (members positions : NumberSet) → IsClosure index p members
        → (Admits index p (cut positions (kept index members)) ↔ Admits index p positions) }
    ensures set { (index : IndexView) (p : ℕ) (members set : NumberSet) → IsClosure index p members → IsFirst (IsInstallation index p) set
        → IsWithin set members }
    ensures core { (index : IndexView) (p : ℕ) (members positions : NumberSet) → IsClosure index p members → IsFirst (AdmitsNone index p) positions
        → IsWithin positions (kept index members) }
{}

/// A package has at most one closure, one first healthy set and one first core; and whatever is wanted of it, one thing is told.
pub fn one_verdict()
    ensures closure { (index : IndexView) (p : ℕ) (a b : NumberSet) → IsClosure index p a → IsClosure index p b → IsWithin a b }
    ensures set { (index : IndexView) (p : ℕ) (a b : List ℕ) → IsFirstInstallation index p a → IsFirstInstallation index p b → a ≡ b }
    ensures core { (index : IndexView) (p : ℕ) (a b : List Constraint) → IsFirstCore index p a → IsFirstCore index p b → a ≡ b }
    ensures told { (wanted : Wanted) (index : IndexView) (p : ℕ) (a b : ToldView) → IsTold wanted index p a → IsTold wanted index p b → a ≡ b }
{}
