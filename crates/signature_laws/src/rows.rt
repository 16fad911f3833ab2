//! Literal rows.

ghost use Rattle.std.specs.Prelude.{[], ◌∷◌, map};
ghost use Rattle.child_msg.specs.Messages.{Refused};
ghost use Rattle.agent_model.specs.State.{first_state, no_settings};
ghost use Rattle.agent_laws.specs.Deciding.{at};
ghost use Rattle.signature_laws.specs.Lives.{AreSigners, IsBySigner, Lead, new_life};
ghost use Rattle.signature_laws.specs.Rows.{begins_to_refuse, one_life, refused_later, to_sign};
ghost use Rattle.signature_laws.specs.Signatures.{AreBySigner};
ghost use Rattle.signature_laws.specs.Streams.{AreHeard, AreRead};

/// A request with a key of no type is refused where no helper stands behind the signer; five bytes of it are read, and five
/// of the refusal are heard.
pub fn a_request_is_read_and_its_refusal_heard()
    ensures by { AreBySigner (to_sign ∷ []) (Refused 1 ∷ []) }
    ensures read { AreRead (to_sign ∷ []) (0 ∷ 0 ∷ 0 ∷ 25 ∷ 1 ∷ []) }
    ensures heard { AreHeard (Refused 1 ∷ []) (0 ∷ 0 ∷ 0 ∷ 9 ∷ 102 ∷ []) }
{}

/// Where a client asks, and the helper names itself and begins to refuse, what was put to this helper is the request, though
/// it was put before, and what it said is the five bytes behind its HELLO. It is the signer in this run, and with the rest of
/// its refusal too.
pub fn a_helper_begins_to_refuse()
    ensures led { Lead (first_state no_settings) new_life (map (at 0) begins_to_refuse) one_life }
    ensures by { IsBySigner one_life refused_later }
    ensures signers { AreSigners (first_state no_settings) (map (at 0) begins_to_refuse) }
{}
