//! What a client gets of the signer.

ghost use Rattle.std.specs.Prelude.{◌≡◌, ◌++◌, ℕ, List};
ghost use Rattle.child_msg.specs.Messages.{FromChildMessage, Refused, Signed};
ghost use Rattle.helper_link.specs.HelperLink.{HelperLink};
ghost use Rattle.helper_link.specs.declared.answer.Answer.TheVariants as answer;
ghost use Rattle.agent_model.specs.Events.{Timed};
ghost use Rattle.agent_model.specs.Fates.{Gets};
ghost use Rattle.agent_model.specs.Runs.{history, run};
ghost use Rattle.agent_model.specs.State.{Settings, first_state};
ghost use Rattle.agent_laws.specs.Answered.{said_fate};
ghost use Rattle.agent_laws.specs.Puts.{messages_of};
ghost use Rattle.signature_laws.specs.Signatures.{AreBySigner, IsOfItsAsk};
ghost use Rattle.signature_laws.specs.Streams.{AreHeard};

/// Where the signer's earlier answers were heard in whole, and what the link has of its last frame goes on with these bytes
/// as the frames of its later answers do: what these bytes make of an ask, by `said_fate` of agent_laws, is its signature as
/// `a_signature_is_of_its_message_and_key` says, or a refusal where there is none. That a client which waits for the ask is
/// told just this says `a_client_gets_that_helpers_answer` there.
pub fn a_client_gets_the_signature_of_its_message()
    ensures signed { (settings : Settings) (before life : List Timed) (earlier later : List FromChildMessage)
        (link : HelperLink) (bytes : List ℕ) (ask : ℕ) (text : List ℕ)
        → AreBySigner (messages_of (run (first_state settings) before) life) (earlier ++ later)
        → AreHeard later (link.heard ++ bytes) → said_fate ask bytes link ≡ Gets (answer.Signed text)
        → IsOfItsAsk (history (first_state settings) (before ++ life)) ask (Signed ask text) }
    ensures refused { (settings : Settings) (before life : List Timed) (earlier later : List FromChildMessage)
        (link : HelperLink) (bytes : List ℕ) (ask : ℕ)
        → AreBySigner (messages_of (run (first_state settings) before) life) (earlier ++ later)
        → AreHeard later (link.heard ++ bytes) → said_fate ask bytes link ≡ Gets answer.Refused
        → IsOfItsAsk (history (first_state settings) (before ++ life)) ask (Refused ask) }
{}
