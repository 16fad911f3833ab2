//! Whose signature it is that a helper gives.

ghost use Rattle.std.specs.Prelude.{◌++◌, ℕ, List};
ghost use Rattle.child_msg.specs.Messages.{FromChildMessage, Refused, Signed};
ghost use Rattle.agent_model.specs.Events.{Timed};
ghost use Rattle.agent_model.specs.Runs.{history, run};
ghost use Rattle.agent_model.specs.State.{Settings, first_state};
ghost use Rattle.agent_laws.specs.Puts.{messages_of};
ghost use Rattle.signature_laws.specs.Signatures.{AreBySigner, IsIn, IsOfItsAsk};

/// Over any settings and any events, cut at any place, as where the helper before was lost: if a list of answers is the
/// signer's to the first of the messages that were put behind that place, then each signature among them, and each
/// refusal, has the number of an ask that was told before, for a signature. It is the signature of that ask's message, by its
/// flags, with the private string of the last addition of its key, as RFC 8032, RFC 6979 and RFC 8017 give it, or a refusal
/// where they give none; of keys whose types the signer does not know, it is what the helper behind it says.
///
/// The premise says what the helper process does, which no proof of the agent can: another program in its place, or an
/// operating system that alters what is sent, breaks it.
pub fn a_signature_is_of_its_message_and_key()
    ensures signed { (settings : Settings) (before life : List Timed) (answers : List FromChildMessage) (ask : ℕ)
        (text : List ℕ)
        → AreBySigner (messages_of (run (first_state settings) before) life) answers
        → IsIn (Signed ask text) answers
        → IsOfItsAsk (history (first_state settings) (before ++ life)) ask (Signed ask text) }
    ensures refused { (settings : Settings) (before life : List Timed) (answers : List FromChildMessage) (ask : ℕ)
        → AreBySigner (messages_of (run (first_state settings) before) life) answers
        → IsIn (Refused ask) answers
        → IsOfItsAsk (history (first_state settings) (before ++ life)) ask (Refused ask) }
{}
