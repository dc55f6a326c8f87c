//! Laws of the definitions: functions without work, whose contracts say what holds.

ghost use Rattle.std.specs.Prelude.{◌≡◌, ℕ, Bool, List, None, Ok, Option, Some, false, option_map};
ghost use Rattle.deb_index.specs.Packages.{IndexView};
ghost use Rattle.deb_index.specs.Reading.{index_of};
ghost use Rattle.deb_report.specs.declared.summary.Summary.{Summary};
ghost use Rattle.run_settings.specs.Settings.{Settings};
ghost use Rattle.deb_input.specs.declared.fault.RunFault.{RunFault};
ghost use Rattle.deb_input.specs.Inputs.{Input, input};
ghost use Rattle.debcheck.specs.Run.{Fails, IsReport, IsReportOn, is_of_background};

pub use deb_health::laws::causes_have_reasons;

/// Where a text and its background have a report under these settings, and since an earlier text, where there is one, and no device failed, a run on
/// them is refused for want of memory alone.
pub fn refused_for_memory()
    ensures { (settings : Settings) (earlier : Option (List ℕ)) (text background output : List ℕ) (summary : Summary) (fault : RunFault)
        → IsReport settings earlier text background output summary
        → Fails settings (option_map (λ was. input (Some was) false) earlier) (input (Some text) false) (input (Some background) false) false fault
        → fault ≡ RunFault.Memory }
{}

/// A text and its background, and an earlier text, where there is one, have at most one report under the same settings, and one set of numbers.
pub fn one_report()
    ensures { (settings : Settings) (earlier : Option (List ℕ)) (text background a b : List ℕ) (m n : Summary)
        → IsReport settings earlier text background a m → IsReport settings earlier text background b n → (a ≡ b) × (m ≡ n) }
{
    deb_verdict::laws::one_verdict();
}

/// Without a background the report is that on the index of the text alone, and no fault is told of a background.
pub fn without_background()
    ensures report { (settings : Settings) (text background output : List ℕ) (summary : Summary) (index : IndexView) → settings.background ≡ false
        → index_of text settings.arch settings.essential ≡ Ok index → IsReport settings None text background output summary
        → IsReportOn None settings index output summary }
    ensures faults { (settings : Settings) (text background : Input) (write_failed : Bool) (fault : RunFault) → settings.background ≡ false
        → Fails settings None text background write_failed fault → is_of_background fault ≡ false }
{}
