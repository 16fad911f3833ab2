//! A key that was added for some purposes signs for these alone.

ghost use Rattle.std.specs.Prelude.{◌≡◌, ◌≢◌, ◌^◌, ◌<◌, ℕ, List, All, false, length};
ghost use Rattle.wire_text.specs.Wire.{IsBytes};
ghost use Rattle.key_purposes.specs.declared.purpose.Purpose.{Purpose};
ghost use Rattle.key_purposes.specs.declared.purpose.Purpose.TheVariants.{AnyNamespace, Login, Namespace};
ghost use Rattle.key_purposes.specs.Messages.{IsForLogin, IsForNamespace, IsForOne, is_by_sha1};
ghost use Rattle.agent_msg.specs.Requests.{Signing};
ghost use Rattle.agent_model.specs.Events.{Timed};
ghost use Rattle.agent_model.specs.Runs.{run};
ghost use Rattle.agent_model.specs.State.{Settings, first_state};
ghost use Rattle.agent_laws.specs.History.{HasNumbers};
ghost use Rattle.agent_laws.specs.Purposes.{IsPutFor};

/// Whatever happens, behind an addition with purposes, and until the key is added again: each message
/// that is put to the helper with it is for one of them, by the grammars of RFC 4252, of
/// PROTOCOL.sshsig and of PROTOCOL.certkeys, and isn't signed by SHA-1. A key that isn't for logins
/// never logs in by any blob of its own, and one that isn't for files of a namespace never signs one.
pub fn a_key_for_git_never_logs_in()
    ensures each { (purposes : List Purpose) (signing : Signing) (settings : Settings)
        (events : List Timed) → HasNumbers (run (first_state settings) events)
        → IsPutFor purposes signing settings events
        → IsBytes signing.message → IsBytes signing.blob → length signing.message < 2 ^ 30
        → IsForOne purposes signing.message signing.blob }
    ensures login { (purposes : List Purpose) (signing : Signing) (settings : Settings)
        (events : List Timed) → HasNumbers (run (first_state settings) events)
        → IsPutFor purposes signing settings events
        → IsBytes signing.message → IsBytes signing.blob → length signing.message < 2 ^ 30
        → All (λ purpose. purpose ≢ Login) purposes
        → IsForLogin signing.message signing.blob → ⊥ }
    ensures namespace { (purposes : List Purpose) (signing : Signing) (settings : Settings)
        (events : List Timed) (namespace : List ℕ) → HasNumbers (run (first_state settings) events)
        → IsPutFor purposes signing settings events
        → IsBytes signing.message → IsBytes signing.blob → length signing.message < 2 ^ 30
        → All (λ purpose. (purpose ≢ Namespace namespace) × (purpose ≢ AnyNamespace)) purposes
        → IsForNamespace namespace signing.message → ⊥ }
    ensures hash { (purposes : List Purpose) (signing : Signing) (settings : Settings)
        (events : List Timed) → HasNumbers (run (first_state settings) events)
        → IsPutFor purposes signing settings events → is_by_sha1 signing.blob signing.flags ≡ false }
{}
