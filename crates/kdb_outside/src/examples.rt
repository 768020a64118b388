//! What a crash behind a call may leave of a file, worked: the definitions at concrete bytes.
ghost use Rattle.std.specs.Prelude.{◌≡◌, ℕ, ◌≤◌, Bool, true, List, [], ◌∷◌, length, take, codes};
ghost use Rattle.kdb_outside.specs.Files.{written};
ghost use Rattle.kdb_outside.specs.Images.{Only, IsTornWrite, IsTornCut};
ghost use Rattle.kdb_outside.specs.Crashes.{EachOf, HasByte};

/// A crash leaves a write whole, leaves it out, or leaves other bytes in its range.
pub fn a_crash_tears_a_write()
    ensures whole { (before : List ℕ) (at : ℕ) (bytes : List ℕ) → at ≤ length before
        → IsTornWrite at bytes before (written before at bytes) }
    ensures none { (before : List ℕ) (at : ℕ) (bytes : List ℕ) → IsTornWrite at bytes before before }
    ensures mixed { IsTornWrite 1 (codes "xy") (codes "abcd") (codes "axcd") }
    ensures other { (byte : ℕ) → IsTornWrite 1 (codes "xy") (codes "abcd") (97 ∷ byte ∷ 121 ∷ 100 ∷ []) }
    ensures longer { IsTornWrite 3 (codes "xyz") (codes "abcd") (codes "abcdy") }
{}

/// It keeps the bytes outside the range, and those that were written over with themselves. The file gets no shorter,
/// and no longer than by the whole write.
pub fn a_crash_tears_no_more_than_a_write()
    ensures before { IsTornWrite 1 (codes "xy") (codes "abcd") (codes "zxyd") → ⊥ }
    ensures behind { IsTornWrite 1 (codes "xy") (codes "abcd") (codes "axyz") → ⊥ }
    ensures same { IsTornWrite 1 (codes "xy") (codes "axcd") (codes "azyd") → ⊥ }
    ensures no_shorter { IsTornWrite 1 (codes "xy") (codes "abcd") (codes "axy") → ⊥ }
    ensures no_longer { IsTornWrite 3 (codes "xy") (codes "abcd") (codes "abcxyz") → ⊥ }
{}

/// A crash leaves a cut whole, leaves it out, or leaves a length between, and other bytes past the cut.
pub fn a_crash_tears_a_cut()
    ensures whole { (before : List ℕ) (new_length : ℕ) → IsTornCut new_length before (take new_length before) }
    ensures none { (before : List ℕ) (new_length : ℕ) → IsTornCut new_length before before }
    ensures between { IsTornCut 1 (codes "abcd") (codes "abc") }
    ensures other { (byte : ℕ) → IsTornCut 1 (codes "abcd") (97 ∷ byte ∷ []) }
{}

/// It keeps the bytes before the cut. The file gets no shorter than the cut, and no longer.
pub fn a_crash_tears_no_more_than_a_cut()
    ensures front { IsTornCut 1 (codes "abcd") (codes "zb") → ⊥ }
    ensures no_shorter { IsTornCut 2 (codes "abcd") (codes "a") → ⊥ }
    ensures no_longer { IsTornCut 2 (codes "abcd") (codes "abcde") → ⊥ }
{}

/// Of bytes that a crash leaves and no others, each has its value; of bytes that a crash may tear it need not have it.
pub fn only_synced_bytes_are_sure()
    ensures synced { (leaves : List ℕ → Bool) → Only (codes "axyd") (λ c. leaves c ≡ true)
        → EachOf (λ c. leaves c ≡ true) (HasByte 1 120) }
    ensures written { EachOf (IsTornWrite 1 (codes "xy") (codes "abcd")) (HasByte 1 120) → ⊥ }
    ensures cut { EachOf (IsTornCut 1 (codes "abcd")) (λ c. c ≡ codes "a") → ⊥ }
{}
