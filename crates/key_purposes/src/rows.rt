//! Literal rows, each a law that is proved by computing.
#![tactic(auto, unfolding(wire_text::specs::Wire::uint32, wire_text::specs::Wire::uint64, wire_text::specs::Wire::string, wire_text::specs::Wire::announced_len, wire_core::specs::Fields::uint32_at, wire_core::specs::Fields::uint64_at, wire_core::specs::Fields::string_len, wire_core::specs::Fields::string_at, key_blob::specs::KeyTypes::form_named, key_blob::specs::PublicKeys::public_key_of, key_blob::specs::Reading::field_at, key_blob::specs::Reading::fields_at, key_blob::specs::Reading::after_fields, key_blob::specs::Reading::form_at, key_blob::specs::Principals::are_strings_up_to, key_blob::specs::Principals::are_strings, key_blob::specs::Certificates::names_at, key_blob::specs::Certificates::holder_at, key_blob::specs::Certificates::times_at, key_blob::specs::Certificates::signer_at, key_blob::specs::Certificates::certificate_at, userauth_blob::specs::Reading::after_byte, userauth_blob::specs::Reading::after_text, userauth_blob::specs::Reading::session_at, userauth_blob::specs::Reading::method_named, userauth_blob::specs::Reading::method_at, userauth_blob::specs::Logins::after_same_key, userauth_blob::specs::Logins::host_at, userauth_blob::specs::Logins::login_of, sshsig_blob::specs::Reading::after_preamble, sshsig_blob::specs::Reading::namespace_at, sshsig_blob::specs::Reading::digest_len, sshsig_blob::specs::Reading::hash_at, sshsig_blob::specs::Reading::digest_at, sshsig_blob::specs::Reading::signing_of, crate::specs::Suspicions::is_name_of_login, crate::specs::Suspicions::names_login, crate::specs::Suspicions::may_log_in, crate::specs::Suspicions::is_certificate_type, crate::specs::Suspicions::begins_certificate, crate::specs::Messages::is_by_sha1, crate::specs::Messages::use_of, crate::specs::Purposes::purpose_named, crate::specs::Purposes::with_word))]

ghost use Rattle.std.specs.Prelude.{◌≡◌, [], ◌∷◌, ◌++◌, None, Ok, Err, Some, codes, false, replicate, true};
ghost use Rattle.key_purposes.specs.Messages.{Authentication, Certificate, FileIn, MayLogIn, OtherData, are_for, suit, use_of};
ghost use Rattle.key_purposes.specs.Purposes.{purposes_in};
ghost use Rattle.key_purposes.specs.Rows.{as_u, blob, certificate, certified, commit, connection, ed25519, hostbased, hostbound, keyed, login, login_by, publickey, rsa, session, unsigned};
ghost use Rattle.key_purposes.specs.declared.fault.PurposeFault.TheVariants.{Missing, Long, Unknown, Twice};
ghost use Rattle.key_purposes.specs.declared.purpose.Purpose.TheVariants as purpose;

/// A login is one for the key that it names alone, and a file is in one namespace for each key.
pub fn each_message_has_its_use()
    ensures login { use_of login (blob 17) ≡ Authentication (as_u None) }
    ensures of_another_key { use_of login (blob 18) ≡ MayLogIn }
    ensures longer_login { use_of (login ++ 0 ∷ []) (blob 17) ≡ MayLogIn }
    ensures commit { use_of commit (blob 18) ≡ FileIn (codes "git") }
    ensures longer_commit { use_of (commit ++ 0 ∷ []) (blob 17) ≡ OtherData }
    ensures other { use_of (codes "abc") (blob 17) ≡ OtherData }
    ensures git { are_for (purpose.Namespace (codes "git") ∷ []) commit (blob 17) ≡ true }
    ensures any_namespace { are_for (purpose.AnyNamespace ∷ []) commit (blob 17) ≡ true }
    ensures front_of_it { are_for (purpose.Namespace (codes "gi") ∷ []) commit (blob 17) ≡ false }
    ensures longer_name { are_for (purpose.Namespace (codes "gitx") ∷ []) commit (blob 17) ≡ false }
    ensures no_login { are_for (purpose.Login ∷ purpose.Other ∷ []) commit (blob 17) ≡ false }
    ensures for_login { are_for (purpose.Other ∷ purpose.Login ∷ []) login (blob 17) ≡ true }
    ensures no_commit { are_for (purpose.AnyNamespace ∷ purpose.Other ∷ []) login (blob 17) ≡ false }
{}

/// A login may name the key's certificate, or be by the certificate and name the key, and the host key may be any text.
pub fn a_login_is_by_any_blob_of_its_key()
    ensures certificate { use_of (login_by session connection publickey 1 (certified ++ 0 ∷ 0 ∷ 0 ∷ 132 ∷ certificate)) ed25519
        ≡ Authentication (as_u None) }
    ensures by_certificate { use_of (login_by session connection publickey 1
        (0 ∷ 0 ∷ 0 ∷ 11 ∷ (codes "ssh-ed25519" ++ 0 ∷ 0 ∷ 0 ∷ 51 ∷ ed25519))) certificate ≡ Authentication (as_u None) }
    ensures host { use_of (login_by session connection hostbound 1 (keyed ++ 0 ∷ 0 ∷ 0 ∷ 3 ∷ codes "dsa")) (blob 17)
        ≡ Authentication (as_u (Some (codes "dsa"))) }
{}

/// What a server may take as a login, and isn't read as one, is told as that and is for no purpose: another flag, a
/// session without its length, the blob of a key with a zero in front of a number, a host's login, a service that isn't
/// looked at, and the service of logins with neither method nor algorithm behind it. A name that isn't a string tells nothing.
pub fn what_may_log_in_is_no_other_data()
    ensures flag { use_of (login_by session connection publickey 2 keyed) (blob 17) ≡ MayLogIn }
    ensures last_flag { use_of (login_by session connection hostbound 255 keyed) (blob 17) ≡ MayLogIn }
    ensures no_length { use_of (login_by (replicate 32 1) connection publickey 1 keyed) (blob 17) ≡ MayLogIn }
    ensures longer_number { use_of (login_by session connection publickey 1 (0 ∷ 0 ∷ 0 ∷ 7 ∷ (codes "ssh-rsa" ++ 0 ∷ 0 ∷ 0 ∷ 22
        ∷ 0 ∷ 0 ∷ 0 ∷ 7 ∷ (codes "ssh-rsa" ++ 0 ∷ 0 ∷ 0 ∷ 2 ∷ 0 ∷ 3 ∷ 0 ∷ 0 ∷ 0 ∷ 1 ∷ 5 ∷ [])))) rsa ≡ MayLogIn }
    ensures hostbased { use_of (login_by session connection hostbased 1 keyed) (blob 17) ≡ MayLogIn }
    ensures other_service { use_of (login_by session (0 ∷ 0 ∷ 0 ∷ 3 ∷ codes "any") publickey 1 keyed) (blob 17) ≡ MayLogIn }
    ensures old_service { use_of (replicate 20 1 ++ 50 ∷ 0 ∷ 0 ∷ 0 ∷ 1 ∷ 117 ∷ 0 ∷ 0 ∷ 0 ∷ 12 ∷ (codes "ssh-userauth" ++ 1 ∷ 0 ∷ 0 ∷ 0 ∷ 64
        ∷ blob 17)) (blob 17) ≡ MayLogIn }
    ensures other_method { use_of (login_by session connection (0 ∷ 0 ∷ 0 ∷ 4 ∷ codes "none") 1 keyed) (blob 17) ≡ MayLogIn }
    ensures longer_method { use_of (login_by session (0 ∷ 0 ∷ 0 ∷ 0 ∷ []) (0 ∷ 0 ∷ 0 ∷ 10 ∷ codes "publickeyx") 0 []) (blob 17) ≡ MayLogIn }
    ensures all { are_for (purpose.Login ∷ purpose.AnyNamespace ∷ purpose.Certificate ∷ purpose.Other ∷ [])
        (login_by session connection publickey 2 keyed) (blob 17) ≡ false }
    ensures no_string { use_of (codes "ssh-connection ssh-userauth publickey hostbased") (blob 17) ≡ OtherData }
    ensures shorter { use_of (0 ∷ 0 ∷ 0 ∷ 8 ∷ codes "publicke") (blob 17) ≡ OtherData }
{}

/// What begins with the name of a certificate's type is for certificates alone, whole or not.
pub fn a_certificate_is_for_its_purpose()
    ensures unsigned { use_of unsigned (blob 17) ≡ Certificate }
    ensures front { use_of (certified ++ codes "x") (blob 17) ≡ Certificate }
    ensures unknown_type { use_of (0 ∷ 0 ∷ 0 ∷ 27 ∷ codes "no-key-cert-v01@openssh.com") (blob 17) ≡ Certificate }
    ensures old_ending { use_of (0 ∷ 0 ∷ 0 ∷ 28 ∷ codes "ssh-rsa-cert-v00@openssh.com") (blob 17) ≡ Certificate }
    ensures later { use_of (0 ∷ certified) (blob 17) ≡ OtherData }
    ensures other_ending { use_of (0 ∷ 0 ∷ 0 ∷ 32 ∷ codes "ssh-ed25519-cert-v02@openssh.com") (blob 17) ≡ OtherData }
    ensures allowed { are_for (purpose.Certificate ∷ []) unsigned (blob 17) ≡ true }
    ensures no_other { are_for (purpose.Login ∷ purpose.AnyNamespace ∷ purpose.Other ∷ []) unsigned (blob 17) ≡ false }
{}

/// A key with purposes doesn't sign by SHA-1: an RSA key signs with one of the flags 2 and 4, and no other key is asked.
pub fn a_signature_for_a_purpose_is_not_by_sha1()
    ensures without { suit (purpose.Other ∷ []) (codes "abc") rsa 0 ≡ false }
    ensures other_flag { suit (purpose.Other ∷ []) (codes "abc") rsa 9 ≡ false }
    ensures sha256 { suit (purpose.Other ∷ []) (codes "abc") rsa 2 ≡ true }
    ensures sha512 { suit (purpose.Other ∷ []) (codes "abc") rsa 4 ≡ true }
    ensures both { suit (purpose.Other ∷ []) (codes "abc") rsa 4294967295 ≡ true }
    ensures other_purpose { suit (purpose.Login ∷ []) (codes "abc") rsa 4 ≡ false }
    ensures other_key { suit (purpose.Other ∷ []) (codes "abc") ed25519 0 ≡ true }
{}

/// Words, with the first fault of those that name no purposes.
pub fn words_are_read()
    ensures each { purposes_in (codes "login" ∷ codes "sshsig:git" ∷ codes "sshsig" ∷ codes "certificate" ∷ codes "other" ∷ [])
        ≡ Ok (purpose.Login ∷ purpose.Namespace (codes "git") ∷ purpose.AnyNamespace ∷ purpose.Certificate ∷ purpose.Other ∷ []) }
    ensures certificate_twice { purposes_in (codes "certificate" ∷ codes "certificate" ∷ []) ≡ Err Twice }
    ensures missing { purposes_in [] ≡ Err Missing }
    ensures twice { purposes_in (codes "login" ∷ codes "other" ∷ codes "login" ∷ codes "x" ∷ []) ≡ Err Twice }
    ensures namespace_twice { purposes_in (codes "sshsig:a" ∷ codes "sshsig:a" ∷ []) ≡ Err Twice }
    ensures other_namespace { purposes_in (codes "sshsig:a" ∷ codes "sshsig:ab" ∷ [])
        ≡ Ok (purpose.Namespace (codes "a") ∷ purpose.Namespace (codes "ab") ∷ []) }
    ensures unknown { purposes_in (codes "git" ∷ []) ≡ Err Unknown }
    ensures no_word { purposes_in ([] ∷ []) ≡ Err Unknown }
    ensures no_namespace { purposes_in (codes "sshsig:" ∷ []) ≡ Err Unknown }
    ensures longest { purposes_in ((codes "sshsig:" ++ replicate 248 97) ∷ [])
        ≡ Ok (purpose.Namespace (replicate 248 97) ∷ []) }
    ensures long { purposes_in ((codes "sshsig:" ++ replicate 249 97) ∷ []) ≡ Err Long }
{}
