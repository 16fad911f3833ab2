//! What a state has of private keys.

ghost use Rattle.std.specs.Prelude.{◌≡◌, ℕ, List, [], Some};
ghost use Rattle.identity_table.specs.Identities.{HeldKey, find_identity};
ghost use Rattle.agent_model.specs.Events.{Timed};
ghost use Rattle.agent_model.specs.Runs.{AllFit};
ghost use Rattle.agent_model.specs.State.{Settings, first_state};
ghost use Rattle.agent_secrecy.specs.Alike.{AreAlike};
ghost use Rattle.removal_laws.specs.Removals.{HoldTheSame, IsDrained, end_of, last_private, past_of};

/// Of lists of events that are alike but in the contents of private fields of added keys: where the
/// keys that are held in the end were last added with the same private strings, so that those which
/// differ were removed, ran out, were used up or were replaced, and where the helper is owed nothing
/// and no client's bytes wait, both lists lead to the same state. So no other part of a state has
/// anything of a private key.
///
/// `all`: where none is held. `held`: the private string that is held for a blob is that of its last
/// addition.
pub fn a_removed_key_is_gone()
    ensures all { (settings : Settings) (one other : List Timed) → AreAlike one other
        → AllFit (first_state settings) one
        → (end_of settings one).held.table.identities ≡ [] → IsDrained (end_of settings one)
        → end_of settings one ≡ end_of settings other }
    ensures others { (settings : Settings) (one other : List Timed) → AreAlike one other
        → AllFit (first_state settings) one → HoldTheSame settings one other
        → IsDrained (end_of settings one) → end_of settings one ≡ end_of settings other }
    ensures held { (settings : Settings) (events : List Timed) (blob : List ℕ) (key : HeldKey)
        → find_identity blob (end_of settings events).held.table.identities ≡ Some key
        → last_private blob (past_of settings events) ≡ Some key.private }
{}
