//! Laws of requests, and what the pieces of a list are together.

ghost use Rattle.std.specs.Prelude.{◌≡◌, ◌↔◌, ℕ, List, ◌++◌, length, IsTrue, Ok};
ghost use Rattle.wire_text.specs.Wire.{IsBytes};
ghost use Rattle.agent_msg.specs.Reading.{request_of};
ghost use Rattle.agent_msg.specs.Requests.{BindRequest, Bind, ClientRequest, IsRequest, OtherExtension, names_bind};
ghost use Rattle.agent_msg.specs.Replies.{entries, identities_length, identities_answer, list_head};

/// A body is one request at most, and what is read is what it is.
pub fn a_body_is_one_request()
    ensures unique { (body : List ℕ) (a b : ClientRequest) → IsRequest body a → IsRequest body b
        → a ≡ b }
    ensures read { (body : List ℕ) (request : ClientRequest) → IsBytes body
        → (request_of body ≡ Ok request) ↔ IsRequest body request }
{}

/// A body that is a request to bind begins as one, and that of another extension doesn't.
pub fn a_request_to_bind_is_named()
    ensures bind { (body : List ℕ) (bind : BindRequest) → IsRequest body (Bind bind)
        → IsTrue (names_bind body) }
    ensures other { (body name : List ℕ) → IsRequest body (OtherExtension name)
        → ¬ (IsTrue (names_bind body)) }
{}

/// A head and then the entries of its `count` identities are the frame of a list, where `body` is
/// 5 and for each identity 8 and the lengths of its two texts.
pub fn a_head_and_its_entries_are_the_list()
    ensures { (identities : List (List ℕ × List ℕ)) (body count : ℕ)
        → body ≡ identities_length identities → count ≡ length identities
        → list_head body count ++ entries identities ≡ identities_answer identities }
{}
