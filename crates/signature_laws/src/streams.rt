//! The signer's answers as bytes.

ghost use Rattle.std.specs.Prelude.{◌≡◌, ◌++◌, ℕ, List, Ok};
ghost use Rattle.wire_text.specs.Bounds.{longest_body};
ghost use Rattle.wire_text.specs.Frames.{split};
ghost use Rattle.child_msg.specs.Messages.{FromChildMessage, Refused, Signed, ToChildMessage};
ghost use Rattle.child_msg.specs.Reading.{from_child_of};
ghost use Rattle.helper_core.specs.Transcript.{Replies, served};
ghost use Rattle.signer_keys.specs.Answers.{route_of};
ghost use Rattle.agent_model.specs.Events.{Timed};
ghost use Rattle.agent_model.specs.Runs.{history, run};
ghost use Rattle.agent_model.specs.State.{Settings, first_state};
ghost use Rattle.agent_laws.specs.Puts.{messages_of};
ghost use Rattle.signature_laws.specs.Signatures.{AreBySigner, IsIn, IsOfItsAsk};
ghost use Rattle.signature_laws.specs.Streams.{AreHeard, AreRead, SendsSigned};

/// What the signer sends behind its HELLO, once it read the first bytes of the frames of these messages, wherever they are
/// cut and whatever the helper behind it replies, is the frames of its answers to the first of them.
pub fn what_the_signer_sends_is_its_answers()
    ensures { (messages : List ToChildMessage) (stream : List ℕ) (replies : Replies) → AreRead messages stream
        → SendsSigned messages (served route_of replies stream).sent }
{}

/// Whatever signature or refusal is read in a frame of what is heard, where this is the first bytes of the frames of the
/// signer's answers, wherever they are cut, is that of an ask which was told before, as
/// `a_signature_is_of_its_message_and_key` says.
pub fn a_signature_that_is_heard_is_of_its_ask()
    ensures signed { (settings : Settings) (before life : List Timed) (answers : List FromChildMessage)
        (heard body : List ℕ) (ask : ℕ) (text : List ℕ)
        → AreBySigner (messages_of (run (first_state settings) before) life) answers → AreHeard answers heard
        → IsIn body (split longest_body heard).bodies → from_child_of body ≡ Ok (Signed ask text)
        → IsOfItsAsk (history (first_state settings) (before ++ life)) ask (Signed ask text) }
    ensures refused { (settings : Settings) (before life : List Timed) (answers : List FromChildMessage)
        (heard body : List ℕ) (ask : ℕ)
        → AreBySigner (messages_of (run (first_state settings) before) life) answers → AreHeard answers heard
        → IsIn body (split longest_body heard).bodies → from_child_of body ≡ Ok (Refused ask)
        → IsOfItsAsk (history (first_state settings) (before ++ life)) ask (Refused ask) }
{}
