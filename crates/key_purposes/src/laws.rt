//! Laws of purposes and of what messages are for.

ghost use Rattle.std.specs.Prelude.{◌≡◌, ◌≢◌, ◌↔◌, ◌⊎◌, ◌^◌, ◌<◌, ◌∷◌, ◌++◌, List, ℕ, Ok, codes, length, true};
ghost use Rattle.wire_text.specs.Wire.{IsBytes, string};
ghost use Rattle.key_purposes.specs.Messages.{IsForNone, IsForOne, IsForOnly, OtherData, are_for, use_of};
ghost use Rattle.key_purposes.specs.Purposes.{ArePurposes, purposes_in};
ghost use Rattle.key_purposes.specs.Suspicions.{Begins};
ghost use Rattle.key_purposes.specs.declared.purpose.Purpose.{Purpose};

/// Words name purposes where they are these purposes' words: 1 to 64, each of at most 255 bytes, and none twice.
pub fn words_name_purposes()
    ensures { (words : List (List ℕ)) (purposes : List Purpose)
        → purposes_in words ≡ Ok purposes → ArePurposes words purposes }
{}

/// Bytes are for one of the purposes where the grammars of RFC 4252, of PROTOCOL.sshsig and of PROTOCOL.certkeys say so.
pub fn purposes_are_those_of_the_grammars()
    ensures { (purposes : List Purpose) (message blob : List ℕ) → IsBytes message → IsBytes blob → length message < 2 ^ 30
        → (are_for purposes message blob ≡ true) ↔ IsForOne purposes message blob }
{}

/// A message is for a login, or for a file in one namespace, or for a certificate, or for other data, and never for two
/// of these; or a server may take it as a login that isn't read as one, and it is for no purpose.
pub fn a_message_is_for_one_thing()
    ensures { (message blob : List ℕ) → IsBytes message → IsBytes blob → length message < 2 ^ 30
        → ((purpose : Purpose) × IsForOnly message blob purpose) ⊎ IsForNone message blob }
{}

/// What counts as other data isn't what is signed for a login (RFC 4252, section 7): whatever stands for the session,
/// with or without its length, whoever logs in, whichever byte says that a signature follows, whatever the algorithm and
/// the key's blob are, and whatever follows. So it is for each method where the service is a connection, for each
/// service where the method is one of a key's, and for the service of logins with whatever follows it: old servers have a
/// flag and the blob alone signed behind that.
pub fn other_is_no_login()
    ensures service { (message blob session user method rest : List ℕ) → use_of message blob ≡ OtherData
        → message ≢ session ++ 50 ∷ (string user ++ (string (codes "ssh-connection") ++ (string method ++ rest))) }
    ensures old_service { (message blob session user rest : List ℕ) → use_of message blob ≡ OtherData
        → message ≢ session ++ 50 ∷ (string user ++ (string (codes "ssh-userauth") ++ rest)) }
    ensures publickey { (message blob session user service method : List ℕ) (flag : ℕ)
        (algorithm named rest : List ℕ) → use_of message blob ≡ OtherData
        → Begins (codes "publickey") method → length method < 2 ^ 32
        → message ≢ session ++ 50 ∷ (string user ++ (string service ++ (string method
        ++ flag ∷ (string algorithm ++ (string named ++ rest))))) }
    ensures hostbased { (message blob session user service method rest : List ℕ) → use_of message blob ≡ OtherData
        → Begins (codes "hostbased") method → length method < 2 ^ 32
        → message ≢ session ++ 50 ∷ (string user ++ (string service ++ (string method ++ rest))) }
{}
