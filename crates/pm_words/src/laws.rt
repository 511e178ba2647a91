ghost use Rattle.std.specs.Prelude.{◌≡◌, [], ◌∷◌, None, Some, codes, true};
ghost use Rattle.pm_words.specs.Words.{settings_of};
ghost use Rattle.pm_words.specs.Usual.{usual, usual_run};
ghost use Rattle.pm_words.specs.declared.settings.Mode.TheVariants as mode;

/// What some words mean in which a mode stands.
pub fn worked_words()
    ensures alone { settings_of (codes "seq" ∷ []) ≡ Some usual }
    ensures check { settings_of (codes "check" ∷ []) ≡ Some (record usual { mode = mode.Check }) }
    ensures run { settings_of (codes "run" ∷ codes "--epoch=5" ∷ codes "--journal" ∷ []) ≡ Some (record usual {
      mode = mode.Run;
      run = record usual_run { epoch = 5 };
      journal = true;
    }) }
    ensures demo { settings_of (codes "demo" ∷ codes "--seed" ∷ codes "7" ∷ []) ≡
        Some (record usual { mode = mode.Demo; seed = 7 }) }
    ensures upgrade { settings_of (codes "upgrade" ∷ []) ≡ Some (record usual { mode = mode.Upgrade }) }
    ensures place { settings_of (codes "place" ∷ []) ≡ Some (record usual { mode = mode.Place }) }
    ensures cut { settings_of (codes "cut" ∷ codes "--from=2" ∷ []) ≡ Some (record usual { mode = mode.Cut; from = 2 }) }
    ensures replay { settings_of (codes "replay" ∷ []) ≡ Some (record usual { mode = mode.Replay }) }
    ensures lowest { settings_of (codes "lowest" ∷ codes "--budget=9" ∷ []) ≡
        Some (record usual { mode = mode.Lowest; run = record usual_run { budget = 9 } }) }
    ensures option_before { settings_of (codes "--workers=2" ∷ codes "seq" ∷ []) ≡
        Some (record usual { run = record usual_run { workers = 2 } }) }
    ensures option_behind { settings_of (codes "seq" ∷ codes "--budget" ∷ codes "2" ∷ []) ≡
        Some (record usual { run = record usual_run { budget = 2 } }) }
    ensures behind_hyphens { settings_of (codes "--" ∷ codes "seq" ∷ []) ≡ Some usual }
    ensures flag { settings_of (codes "--journal" ∷ codes "seq" ∷ []) ≡ Some (record usual { journal = true }) }
    ensures no_words { settings_of [] ≡ None }
    ensures no_mode { settings_of (codes "fly" ∷ []) ≡ None }
    ensures two_modes { settings_of (codes "seq" ∷ codes "seq" ∷ []) ≡ None }
    ensures empty_word { settings_of ([] ∷ []) ≡ None }
    ensures hyphen { settings_of (codes "-" ∷ []) ≡ None }
    ensures help { settings_of (codes "--help" ∷ []) ≡ None }
    ensures help_for_short { settings_of (codes "-h" ∷ []) ≡ None }
    ensures help_word { settings_of (codes "help" ∷ []) ≡ None }
    ensures version { settings_of (codes "--version" ∷ []) ≡ None }
{}

/// What options mean whose values are the first and the last of their range, or have 20 digits.
pub fn worked_options()
    ensures digits { settings_of (codes "seq" ∷ codes "--budget" ∷ codes "00000000000000000007" ∷ []) ≡
        Some (record usual { run = record usual_run { budget = 7 } }) }
    ensures workers { settings_of (codes "seq" ∷ codes "--workers=64" ∷ []) ≡
        Some (record usual { run = record usual_run { workers = 64 } }) }
    ensures epoch { settings_of (codes "seq" ∷ codes "--epoch=1" ∷ []) ≡
        Some (record usual { run = record usual_run { epoch = 1 } }) }
    ensures window { settings_of (codes "seq" ∷ codes "--window=1000000000000" ∷ []) ≡
        Some (record usual { run = record usual_run { window = Some 1000000000000 } }) }
    ensures seed { settings_of (codes "seq" ∷ codes "--seed=18446744073709551615" ∷ []) ≡
        Some (record usual { seed = 18446744073709551615 }) }
    ensures from { settings_of (codes "seq" ∷ codes "--from=1000000000000" ∷ []) ≡
        Some (record usual { from = 1000000000000 }) }
{}

/// Options that are refused.
pub fn worked_refusals()
    ensures past_most { settings_of (codes "seq" ∷ codes "--workers" ∷ codes "65" ∷ []) ≡ None }
    ensures below_least { settings_of (codes "seq" ∷ codes "--epoch" ∷ codes "0" ∷ []) ≡ None }
    ensures no_digits { settings_of (codes "seq" ∷ codes "--budget" ∷ codes "x" ∷ []) ≡ None }
    ensures signed { settings_of (codes "seq" ∷ codes "--budget" ∷ codes "-1" ∷ []) ≡ None }
    ensures too_long { settings_of (codes "seq" ∷ codes "--budget" ∷ codes "000000000000000000007" ∷ []) ≡ None }
    ensures too_great { settings_of (codes "seq" ∷ codes "--seed=18446744073709551616" ∷ []) ≡ None }
    ensures twice { settings_of (codes "seq" ∷ codes "--seed" ∷ codes "1" ∷ codes "--seed" ∷ codes "2" ∷ []) ≡ None }
    ensures no_value { settings_of (codes "seq" ∷ codes "--budget" ∷ []) ≡ None }
    ensures hyphens_as_value { settings_of (codes "seq" ∷ codes "--budget" ∷ codes "--" ∷ []) ≡ None }
    ensures flag_value { settings_of (codes "seq" ∷ codes "--journal=x" ∷ []) ≡ None }
    ensures second_hyphens { settings_of (codes "--" ∷ codes "seq" ∷ codes "--" ∷ []) ≡ None }
{}
