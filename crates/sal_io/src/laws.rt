//! Worked examples of the definitions in `specs/`, and their meaning for a source whose bytes are known.
ghost use Rattle.std.specs.Prelude.{◌≡◌, ◌<◌, ◌≤◌, ◌^◌, ◌-◌, [], ◌∷◌, List, ℕ, length, true, false, Some, Ok, Err, Vec};
ghost use Rattle.std.specs.declared.option.Option.{Option};
ghost use Rattle.std.specs.declared.alloc.Global.{Global};
ghost use Rattle.sal_io.specs.Causes.{Rose, next_count};
ghost use Rattle.sal_io.specs.Memory.{called, is_named, refuses, uncalled};
ghost use Rattle.sal_io.specs.Transfer.{TakenBy, TakesFront};
ghost use Rattle.sal_io.specs.declared.fault.ReadFail.TheVariants.{TooLong};

/// Examples of counts and calls. It does nothing.
pub fn counting_examples()
    ensures goes_on { next_count 4 ≡ 5 }
    ensures stays { next_count (2 ^ 64 - 1) ≡ 2 ^ 64 - 1 }
    ensures rose { Rose 4 5 }
    ensures not_rose { ¬ Rose 4 4 }
    ensures rose_at_last { Rose (2 ^ 64 - 1) (2 ^ 64 - 1) }
    ensures first_call { is_named (uncalled (2 ∷ 0 ∷ [])) ≡ true }
    ensures second_call { is_named (called (uncalled (2 ∷ 0 ∷ [])) true) ≡ false }
    ensures third_call { is_named (called (called (uncalled (2 ∷ 0 ∷ [])) true) false) ≡ true }
    ensures failed { (called (called (uncalled (2 ∷ 0 ∷ [])) true) false).failed ≡ 1 }
    ensures full { refuses (record { taken = 7 ∷ []; room = 0; calls = uncalled [] }) (8 ∷ []) ≡ true }
    ensures full_for_none { refuses (record { taken = 7 ∷ []; room = 0; calls = uncalled [] }) [] ≡ false }
{}

/// The meaning of the answers of `read_all` for a source whose bytes are known: `Ok` has them all, within the limit;
/// `TooLong` says that there are more than the limit. It does nothing.
pub fn reading_laws()
    ensures ok { (left : List ℕ) (after : Option (List ℕ)) (limit : ℕ) (bytes : Vec ℕ Global)
        → TakenBy (Some left) after limit (Ok bytes) → (bytes.items ≡ left) × (length left ≤ limit) }
    ensures too_long { (left : List ℕ) (after : Option (List ℕ)) (limit : ℕ)
        → TakenBy (Some left) after limit (Err TooLong) → limit < length left }
{}
