ghost use Rattle.std.specs.Prelude.{◌≡◌, ◌∷◌, [], codes};
ghost use Rattle.pm_place.specs.Examples.{one_reader, two_readers};
ghost use Rattle.pm_place.specs.Placings.{cost};
ghost use Rattle.pm_place.specs.Texts.{placing_text};

/// What placements of one variable cost, computed from the definitions: it is written twice from `west`, and read four
/// times, or twice, from `east`. So with two readers it is best at `east`, and with one all processes cost the same.
pub fn worked_costs()
    ensures root { cost two_readers (0 ∷ []) ≡ 6 }
    ensures west { cost two_readers (1 ∷ []) ≡ 8 }
    ensures east { cost two_readers (2 ∷ []) ≡ 4 }
    ensures text { placing_text two_readers (record { at = 2 ∷ []; costs = 4 ∷ []; total = 4 }) ≡
        codes "place c0 east 4\ntotal 4\n" }
    ensures tie_at_root { cost one_reader (0 ∷ []) ≡ 4 }
    ensures tie_at_west { cost one_reader (1 ∷ []) ≡ 4 }
    ensures tie_at_east { cost one_reader (2 ∷ []) ≡ 4 }
{}
