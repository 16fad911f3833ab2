//! Laws of specs/Answers.antt and specs/Transcript.antt.

ghost use Rattle.std.specs.Prelude.{◌≡◌, ◌↔◌, ℕ, List, length, map, take, Some};
ghost use Rattle.child_msg.specs.Messages.{Signed, Refused, True};
ghost use Rattle.standin_core.specs.Answers.{answer_of};
ghost use Rattle.standin_core.specs.Hosts.{Host};
ghost use Rattle.standin_core.specs.Keys.{IsBlob, IsPrivate, secret_of, tag_of};
ghost use Rattle.standin_core.specs.Laws.{IsRefusedFor, IsSignedFor, IsTrueFor};
ghost use Rattle.standin_core.specs.Transcript.{answers_to};

/// A body is answered by a signature exactly where its own private string has the secret that makes it,
/// and refused exactly where it asks for one and has none; TRUE is for a host of the data file alone.
pub fn a_signature_is_by_the_secret_of_its_own_frame()
    ensures signed { (hosts : List Host) (body : List ℕ) (ask : ℕ) (signature : List ℕ)
        → (answer_of hosts body ≡ Some (Signed ask signature)) ↔ IsSignedFor body ask signature }
    ensures refused { (hosts : List Host) (body : List ℕ) (ask : ℕ)
        → (answer_of hosts body ≡ Some (Refused ask)) ↔ IsRefusedFor body ask }
    ensures verified { (hosts : List Host) (body : List ℕ) (ask : ℕ)
        → (answer_of hosts body ≡ Some (True ask)) ↔ IsTrueFor hosts body ask }
{}

/// The answers are to the first bodies, one to each, in their order.
pub fn answers_are_in_order()
    ensures { (hosts : List Host) (bodies : List (List ℕ))
        → map (answer_of hosts) (take (length (answers_to hosts bodies)) bodies)
        ≡ map (λ answer. Some answer) (answers_to hosts bodies) }
{}

/// The tests for blobs and private strings find what the relations say.
pub fn keys_are_read_exactly()
    ensures tag { (blob tag : List ℕ) → (tag_of blob ≡ Some tag) ↔ IsBlob blob tag }
    ensures secret { (private blob secret : List ℕ)
        → (secret_of private blob ≡ Some secret) ↔ IsPrivate private blob secret }
{}
