//! Laws of the definitions: functions without work, whose contracts say what holds.

ghost use Rattle.std.specs.Prelude.{◌≡◌, ◌≢◌, ℕ, ◌<◌, true, false, All, List, [], ◌∷◌, ◌++◌, length, slice_index_or};
ghost use Rattle.deb_index.specs.declared.constraint.Constraint.{Constraint};
ghost use Rattle.deb_index.specs.Packages.{IndexView};
ghost use Rattle.number_sets.specs.Sets.{NumberSet, IsWithin, all_of};
ghost use Rattle.deb_health.specs.Causes.{AreCores, AreCoresWithout, cause_at, cause_in, causes_at, is_final_at, nothing, without};
ghost use Rattle.deb_health.specs.Health.{Admits, AdmitsNone, IsInstallable};
ghost use Rattle.deb_health.specs.Verdicts.{IsFirstCore};

/// No cause is empty, since the set of all packages meets each need that some package meets.
pub fn causes_have_reasons()
    ensures part { (index : IndexView) (p : ℕ) (part : NumberSet) → AdmitsNone index p part → ((k : ℕ) → part k ≡ true → is_final_at index k ≡ false) → ⊥ }
    ensures cores { (index : IndexView) (p : ℕ) (cores : List (List Constraint)) → AreCores index p cores → All (λ core. cause_in index core ≢ []) cores }
{}

/// All causes of a package share no constraint. With the constraints of all of them taken out some set with the package meets the rest; with
/// those of all but the last one none does. Each has to be mended: as long as one cause is whole none does, whatever else is taken out that is no
/// need that some package of the index meets.
pub fn all_causes()
    ensures mended { (index : IndexView) (p : ℕ) (cores : List (List ℕ)) → AreCoresWithout index p nothing cores
        → Admits index p (without (causes_at index cores) all_of) }
    ensures unmended { (index : IndexView) (p : ℕ) (cores : List (List ℕ)) (last : List ℕ) → AreCoresWithout index p nothing (cores ++ last ∷ [])
        → AdmitsNone index p (without (causes_at index cores) all_of) }
    ensures each { (index : IndexView) (p : ℕ) (cores : List (List ℕ)) (i : ℕ) (out : NumberSet) → AreCoresWithout index p nothing cores → i < length cores
        → IsWithin out (is_final_at index) → ((k : ℕ) → cause_at index (slice_index_or cores i []) k ≡ true → out k ≡ false)
        → AdmitsNone index p (without out all_of) }
    ensures apart { (index : IndexView) (p : ℕ) (cores : List (List ℕ)) (i j k : ℕ) → AreCoresWithout index p nothing cores → i < j → j < length cores
        → cause_at index (slice_index_or cores i []) k ≡ true → cause_at index (slice_index_or cores j []) k ≡ true → ⊥ }
{}

/// A package has one list of cores, which begins with its first core, and is empty where some healthy set has the package.
pub fn one_list_of_cores()
    ensures one { (index : IndexView) (p : ℕ) (a b : List (List Constraint)) → AreCores index p a → AreCores index p b → a ≡ b }
    ensures first { (index : IndexView) (p : ℕ) (core : List Constraint) (later : List (List Constraint)) → AreCores index p (core ∷ later)
        → IsFirstCore index p core }
    ensures none { (index : IndexView) (p : ℕ) (cores : List (List Constraint)) → IsInstallable index p → AreCores index p cores → cores ≡ [] }
{}
