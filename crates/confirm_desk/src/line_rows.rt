//! Literal rows of the question's third line: laws that are proved by computing.
#![tactic(auto, unfolding(wire_text::specs::Wire::uint32, wire_text::specs::Wire::string, wire_text::specs::Wire::announced_len, wire_core::specs::Fields::uint32_at, wire_core::specs::Fields::string_len, wire_core::specs::Fields::string_at, key_blob::specs::KeyTypes::form_named, key_blob::specs::PublicKeys::public_key_of, key_blob::specs::Reading::field_at, key_blob::specs::Reading::fields_at, key_blob::specs::Reading::after_fields, key_blob::specs::Reading::form_at, userauth_blob::specs::Reading::after_byte, userauth_blob::specs::Reading::after_text, userauth_blob::specs::Reading::session_at, userauth_blob::specs::Reading::method_named, userauth_blob::specs::Reading::method_at, userauth_blob::specs::Logins::after_same_key, userauth_blob::specs::Logins::host_at, userauth_blob::specs::Logins::login_of, sshsig_blob::specs::Reading::after_preamble, sshsig_blob::specs::Reading::namespace_at, sshsig_blob::specs::Reading::digest_len, sshsig_blob::specs::Reading::hash_at, sshsig_blob::specs::Reading::digest_at, sshsig_blob::specs::Reading::signing_of, key_purposes::specs::Suspicions::is_name_of_login, key_purposes::specs::Suspicions::names_login, key_purposes::specs::Suspicions::may_log_in, key_purposes::specs::Suspicions::is_certificate_type, key_purposes::specs::Suspicions::begins_certificate, key_purposes::specs::Messages::use_of, crate::specs::Prompt::prompt_of))]

ghost use Rattle.std.specs.Prelude.{◌≡◌, [], ◌∷◌, ◌++◌, None, Some, codes, decimal, replicate};
ghost use Rattle.key_purposes.specs.Rows.{blob, commit, connection, keyed, login, login_by, publickey, session, unsigned};
ghost use Rattle.key_purposes.specs.declared.purpose.Purpose.TheVariants.{Login, Other};
ghost use Rattle.confirm_desk.specs.Lines.{line_of, login_as};
ghost use Rattle.confirm_desk.specs.Prompt.{prompt_for};

/// A message is for a login of the key that it names, for a file, a certificate, what may be a login, or other data.
pub fn each_message_has_its_line()
    ensures login { line_of None login (blob 17) ≡ codes "For a login as u." }
    ensures of_another_key { line_of None login (blob 18) ≡ codes "For what may be a login, of " ++ (decimal 139 ++ codes " bytes.") }
    ensures other_flag { line_of (Some (codes "gate")) (login_by session connection publickey 2 keyed) (blob 17)
        ≡ codes "For what may be a login, of " ++ (decimal 139 ++ codes " bytes.") }
    ensures certificate { line_of None unsigned (blob 17) ≡ codes "For a certificate of " ++ (decimal 128 ++ codes " bytes.") }
    ensures commit { line_of None commit (blob 17) ≡ codes "For a signature in namespace git." }
    ensures other { line_of None (replicate 10 7) (blob 17) ≡ codes "For other data of " ++ (decimal 10 ++ codes " bytes.") }
    ensures empty { line_of None [] (blob 17) ≡ codes "For other data of " ++ (decimal 0 ++ codes " bytes.") }
{}

/// A user is shown in printable ASCII, and no more than 64 bytes of it.
pub fn names_are_printable()
    ensures escape { login_as None (27 ∷ 91 ∷ 50 ∷ 74 ∷ 10 ∷ []) ≡ codes "For a login as ?[2J?." }
    ensures whole { login_as None (replicate 64 97) ≡ codes "For a login as " ++ (replicate 64 97 ++ codes ".") }
    ensures cut { login_as None (replicate 64 97 ++ codes "b") ≡ login_as None (replicate 64 97) }
{}

/// A login to a host that is known is shown with it, in printable ASCII and no more than 64 bytes of it; nothing else is.
pub fn a_login_is_shown_with_its_host()
    ensures login { line_of (Some (codes "gate.example.org")) login (blob 17)
        ≡ codes "For a login as u to gate.example.org." }
    ensures root { login_as (Some (codes "gate.example.org")) (codes "root")
        ≡ codes "For a login as root to gate.example.org." }
    ensures escape { login_as (Some (27 ∷ 91 ∷ 50 ∷ 74 ∷ 10 ∷ [])) (codes "root")
        ≡ codes "For a login as root to ?[2J?." }
    ensures cut { login_as (Some (replicate 64 97 ++ codes "b")) (codes "root")
        ≡ login_as (Some (replicate 64 97)) (codes "root") }
    ensures commit { line_of (Some (codes "gate")) commit (blob 17) ≡ codes "For a signature in namespace git." }
    // A user may be named as another and a host.
    ensures either { login_as (Some (codes "gate")) (codes "root") ≡ login_as None (codes "root to gate") }
{}

/// A key without purposes has two lines, and one with purposes a third.
pub fn a_key_with_purposes_has_a_third_line()
    ensures without { prompt_for (codes "one") (codes "x") [] None (codes "abc")
        ≡ codes "Allow use of key one?" ++ (10 ∷ codes "Key fingerprint .") }
    ensures with_one { prompt_for (codes "one") (codes "x") (Other ∷ []) None (codes "abc")
        ≡ codes "Allow use of key one?" ++ (10 ∷ (codes "Key fingerprint ." ++ (10 ∷ (codes "For other data of "
        ++ (decimal 3 ++ codes " bytes."))))) }
    ensures any_of_them { prompt_for (codes "one") (codes "x") (Login ∷ Other ∷ []) (Some (codes "gate")) []
        ≡ codes "Allow use of key one?" ++ (10 ∷ (codes "Key fingerprint ." ++ (10 ∷ (codes "For other data of "
        ++ (decimal 0 ++ codes " bytes."))))) }
{}
