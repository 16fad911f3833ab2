//! Examples, written out, that tell the definitions from others that look alike: laws that are proved by computing.

ghost use Rattle.std.specs.Prelude.{◌≡◌, [], ◌∷◌, Some, None, true, false};
ghost use Rattle.helper_link.specs.HelperLink.{ask_of, is_full, no_link, oldest, sign_request, submitted};
ghost use Rattle.helper_link.specs.Settling.{remove_ask};
ghost use Rattle.helper_link.specs.declared.ask.AskKind.TheVariants.{Signing, Verifying};

/// The oldest ask is the one that was put first of those that are unanswered.
pub fn the_oldest_unanswered_ask_counts()
    ensures none { oldest [] ≡ None }
    ensures first { oldest (ask_of 1 70 Signing [] 5 25 ∷ ask_of 2 80 Verifying [] 9 21 ∷ []) ≡ Some 5 }
    ensures answered { oldest (remove_ask 1 (ask_of 1 70 Signing [] 5 25 ∷ ask_of 2 80 Verifying [] 9 21 ∷ []))
        ≡ Some 9 }
    ensures younger_answered { oldest (remove_ask 2 (ask_of 1 70 Signing [] 5 25 ∷ ask_of 2 80 Verifying [] 9 21 ∷ []))
        ≡ Some 5 }
    ensures all_answered { oldest (remove_ask 2 (ask_of 2 80 Verifying [] 9 21 ∷ [])) ≡ None }
    ensures any_order { oldest (ask_of 1 70 Signing [] 9 25 ∷ ask_of 2 80 Verifying [] 5 21 ∷ []) ≡ Some 5 }
{}

/// With 8 MiB in the bodies of the unanswered asks together the places are full, and with a byte less they aren't, however
/// many asks that are. A request of an empty key, blob and message has a body of 25 bytes, whatever its number is.
pub fn bodies_fill_the_places()
    ensures none { is_full [] ≡ false }
    ensures below { is_full (ask_of 1 70 Signing [] 5 8388583 ∷ ask_of 2 80 Verifying [] 9 24 ∷ []) ≡ false }
    ensures at { is_full (ask_of 1 70 Signing [] 5 8388583 ∷ ask_of 2 80 Verifying [] 9 25 ∷ []) ≡ true }
    ensures answered { is_full (remove_ask 1 (ask_of 1 70 Signing [] 5 8388583 ∷ ask_of 2 80 Verifying [] 9 25 ∷ []))
        ≡ false }
    ensures size { (submitted Signing 70 [] (sign_request [] [] [] 0) 5 no_link).asks ≡ ask_of 1 70 Signing [] 5 25 ∷ [] }
{}
