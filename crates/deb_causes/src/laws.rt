//! Laws of the definitions: functions without work, whose contracts say what holds.

ghost use Rattle.deb_causes.specs.Causes.{FreedAreAdmitted};

/// A package that a cause frees is no longer broken once that cause is mended alone: with what the cause says taken out of the list of constraints, some
/// set with the package meets the rest.
pub fn freed_are_admitted()
    ensures { FreedAreAdmitted }
{}
