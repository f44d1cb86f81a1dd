// What arguments without options ask for.
ghost use Rattle.std.specs.Prelude.{◌≡◌, ◌≤◌, ℕ, [], ◌∷◌, Some, codes, decimal, false};
ghost use Rattle.clap.specs.Words.{Text};
ghost use Rattle.blic_words.specs.Options.{number_in as number_of, usual as usual_options};
ghost use Rattle.blic_words.specs.Requests.{Solve, Certify, Verify, Exercise, begins_with_hyphen, request_of};

/// Arguments without options ask for the defaults.
pub fn words_law()
    ensures solve { (file : Text) → begins_with_hyphen file ≡ false → request_of (codes "solve" ∷ file ∷ []) ≡ Some (Solve file usual_options) }
    ensures certify { (file : Text) → begins_with_hyphen file ≡ false → request_of (codes "certify" ∷ file ∷ []) ≡ Some (Certify file usual_options) }
    ensures verify { (file address : Text) → begins_with_hyphen file ≡ false → begins_with_hyphen address ≡ false → request_of (codes "verify" ∷ file ∷ address ∷ []) ≡ Some (Verify file address usual_options) }
    ensures exercise { (number : Text) (n : ℕ) → number_of 1 500 number ≡ Some n → request_of (codes "exercise" ∷ number ∷ []) ≡ Some (Exercise n usual_options) }
    ensures decimal { (n : ℕ) → 1 ≤ n → n ≤ 500 → request_of (codes "exercise" ∷ decimal n ∷ []) ≡ Some (Exercise n usual_options) }
{}
