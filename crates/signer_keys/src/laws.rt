//! Laws of requests: which are handed on, and by whose key what is signed verifies.

ghost use Rattle.std.specs.Prelude.{◌≡◌, ℕ, List, Ok, Some, true};
ghost use Rattle.child_msg.specs.Messages.{Signing};
ghost use Rattle.child_msg.specs.Reading.{to_child_of};
ghost use Rattle.helper_core.specs.declared.asked.Asked.{Asked};
ghost use Rattle.helper_core.specs.Routes.{HandedOn};
ghost use Rattle.signer_keys.specs.Answers.{route_of};
ghost use Rattle.signer_keys.specs.declared.types.Kind.{Kind};
ghost use Rattle.signer_keys.specs.declared.types.KeyType.TheVariants.{Plain};
ghost use Rattle.signer_keys.specs.declared.verifying.Verdict.TheVariants.{Right};
ghost use Rattle.signer_keys.specs.Laws.{IsForBehind, accepted_by};
ghost use Rattle.signer_keys.specs.Signing.{signature_for};
ghost use Rattle.signer_keys.specs.Types.{type_of};
ghost use Rattle.signer_keys.specs.Verifying.{verdict_of};

/// No request to sign with a private string or a blob of a known type is handed on, and none to verify by a host key of
/// such a type but in a certificate whose authority has another.
pub fn a_known_key_stays()
    ensures { (body : List ℕ) (asked : Asked) → route_of body ≡ HandedOn asked
        → IsForBehind (to_child_of body) }
{}

/// What is signed verifies: the public key of the request's blob, plain or in a certificate, accepts the signature as one
/// of the request's message, read as the keys of hosts are. So a request to verify it by a plain key is answered TRUE.
pub fn what_is_signed_verifies()
    ensures accepted { (request : Signing) (text : List ℕ) → signature_for request ≡ Ok text
        → accepted_by request.blob request.message text ≡ Ok true }
    ensures right { (kind : Kind) (request : Signing) (text : List ℕ) → type_of request.blob ≡ Some (Plain kind)
        → signature_for request ≡ Ok text → verdict_of request.blob request.message text ≡ Right }
{}
