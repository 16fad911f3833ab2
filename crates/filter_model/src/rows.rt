//! Literal rows, each a law that is proved by computing.
#![tactic(auto, unfolding(wire_text::specs::Frames::front, wire_text::specs::Wire::uint32, wire_text::specs::Wire::string, wire_text::specs::Wire::announced_len, wire_core::specs::Fields::uint32_at, wire_core::specs::Fields::uint64_at, wire_core::specs::Fields::string_len, wire_core::specs::Fields::string_at, agent_msg::specs::Reading::request_of_number, agent_msg::specs::Reading::request_of, agent_msg::specs::Requests::session_bind, agent_msg::specs::ReplyReading::reply_of, agent_msg::specs::ReplyReading::entries_at, key_blob::specs::KeyTypes::form_named, key_blob::specs::PublicKeys::public_key_of, key_blob::specs::Reading::field_at, key_blob::specs::Reading::fields_at, key_blob::specs::Reading::after_fields, key_blob::specs::Reading::form_at, userauth_blob::specs::Reading::after_byte, userauth_blob::specs::Reading::after_text, userauth_blob::specs::Reading::session_at, userauth_blob::specs::Reading::method_named, userauth_blob::specs::Reading::method_at, userauth_blob::specs::Reading::after_key, userauth_blob::specs::Reading::host_key_at, userauth_blob::specs::Reading::auth_of, sshsig_blob::specs::Reading::after_preamble, sshsig_blob::specs::Reading::namespace_at, sshsig_blob::specs::Reading::digest_len, sshsig_blob::specs::Reading::hash_at, sshsig_blob::specs::Reading::digest_at, sshsig_blob::specs::Reading::signing_of, userauth_blob::specs::Logins::after_same_key, userauth_blob::specs::Logins::host_at, userauth_blob::specs::Logins::login_of, key_purposes::specs::Suspicions::is_name_of_login, key_purposes::specs::Suspicions::names_login, key_purposes::specs::Suspicions::may_log_in, key_purposes::specs::Suspicions::is_certificate_type, key_purposes::specs::Suspicions::begins_certificate, key_purposes::specs::Messages::is_by_sha1, key_purposes::specs::Messages::use_of))]

ghost use Rattle.std.specs.Prelude.{◌≡◌, [], ◌∷◌, ◌++◌, codes, length, false, true};
ghost use Rattle.key_purposes.specs.declared.purpose.Purpose.TheVariants as purpose;
ghost use Rattle.pair_ports.specs.declared.side.Side.TheVariants.{Client, Upstream};
ghost use Rattle.filter_model.specs.Filters.{Heard, Lost, Took, can_send, has_place, is_reached, trimmed, wants};
ghost use Rattle.filter_model.specs.Rows.{after, answered, asks, bind, failed, linked, list, one_listed, owed, owed_for, remove_all, sign, sign_commit, sign_like_login, sign_login, spare_beside, three, took_reply, two_listed};
ghost use Rattle.filter_model.specs.PairRows.{accept_none, asks_list, close_of, connect_failed, connect_made, connect_none, disconnect_of, gets_reply, is_legal, joins, poll_door, poll_nothing, poll_reply, read_end, read_none, read_of, write_of};

/// A list is forwarded, and its reply is cut to the keys that are listed.
pub fn a_list_is_cut()
    ensures forwarded { owed Upstream (Heard 1 Client list ∷ []) ≡ list }
    ensures cut { owed Client (asks list ++ Heard 1 Upstream two_listed ∷ []) ≡ one_listed }
{}

/// Requests are served one at a time, and only those on listed keys are forwarded.
pub fn only_listed_keys_are_used()
    ensures refused { owed Client (three ∷ []) ≡ failed }
    ensures kept { owed Upstream (three ∷ []) ≡ [] }
    ensures refused_again { owed Client (three ∷ took_reply ∷ []) ≡ failed }
    ensures kept_again { owed Upstream (three ∷ took_reply ∷ []) ≡ [] }
    ensures allowed { owed Upstream (three ∷ took_reply ∷ took_reply ∷ []) ≡ sign 17 }
    ensures waits { owed Client (three ∷ took_reply ∷ took_reply ∷ []) ≡ [] }
{}

/// Behind purposes a signing request by a listed key is forwarded where its message is for one of these, and a list as
/// ever.
pub fn only_purposes_are_signed_for()
    ensures commit { owed_for (purpose.Namespace (codes "git") ∷ []) Upstream (sign_commit 17) ≡ sign_commit 17 }
    ensures no_login { owed_for (purpose.Namespace (codes "git") ∷ []) Client (sign_login 17) ≡ failed }
    ensures kept { owed_for (purpose.Namespace (codes "git") ∷ []) Upstream (sign_login 17) ≡ [] }
    ensures other_namespace { owed_for (purpose.Namespace (codes "gi") ∷ []) Client (sign_commit 17) ≡ failed }
    ensures login { owed_for (purpose.Login ∷ []) Upstream (sign_login 17) ≡ sign_login 17 }
    ensures no_commit { owed_for (purpose.Other ∷ purpose.Login ∷ []) Client (sign_commit 17) ≡ failed }
    ensures other { owed_for (purpose.Other ∷ []) Upstream (sign 17) ≡ sign 17 }
    ensures no_other { owed_for (purpose.Login ∷ purpose.AnyNamespace ∷ []) Client (sign 17) ≡ failed }
    ensures may_log_in { owed_for (purpose.Login ∷ purpose.AnyNamespace ∷ purpose.Certificate ∷ purpose.Other ∷ []) Client
        (sign_like_login 17) ≡ failed }
    ensures unlisted { owed_for (purpose.AnyNamespace ∷ []) Client (sign_commit 18) ≡ failed }
    ensures listing { owed_for (purpose.Login ∷ []) Upstream list ≡ list }
{}

/// Binds are forwarded, and nothing is taken while a reply isn't sent whole.
pub fn others_are_kept_in_order()
    ensures bound { owed Upstream (Heard 1 Client bind ∷ []) ≡ bind }
    ensures part { owed Client (Heard 1 Client (remove_all ++ remove_all) ∷ Took 1 Client 2 ∷ []) ≡ 0 ∷ 1 ∷ 5 ∷ [] }
    ensures unasked { (after (Heard 1 Upstream (0 ∷ []) ∷ [])).closes ≡ 1 ∷ [] }
    ensures behind { (after (Heard 1 Client list ∷ Heard 1 Upstream (failed ++ 0 ∷ []) ∷ [])).closes ≡ 1 ∷ [] }
    ensures other_reply { (after (Heard 1 Client list ∷ Heard 1 Upstream (0 ∷ 0 ∷ 0 ∷ 1 ∷ 6 ∷ []) ∷ [])).closes ≡ 1 ∷ [] }
    ensures wanted { wants 1 Client (after []) ≡ true }
    ensures whole { wants 1 Client (after (Heard 1 Client (list ++ list) ∷ [])) ≡ false }
{}

/// A pair keeps its connection to the agent behind, and asks again over it, unless more than 16 that owe nothing keep
/// one, or no place is left for another. Who lost one gets another, unless a bind was sent on it, or a request that
/// isn't answered. There are 64 at most.
pub fn connections_are_few()
    ensures waiting { can_send 1 Upstream (after (Heard 1 Client list ∷ [])) ≡ true }
    ensures refused { can_send 1 Upstream (after (Heard 1 Client remove_all ∷ [])) ≡ false }
    ensures linked { is_reached 1 Upstream (after (asks list)) ≡ true }
    ensures under_way { (after (asks list)).parts ≡ [] }
    ensures kept { (after (answered list [])).parts ≡ [] }
    ensures stays { is_reached 1 Upstream (after (answered list [])) ≡ true }
    ensures spare { (after (answered list [])).spares ≡ 1 ∷ [] }
    ensures bound { (after (answered bind [])).spares ≡ [] }
    ensures bound_stays { is_reached 1 Upstream (after (answered bind [])) ≡ true }
    ensures sixteen { (trimmed (spare_beside 15)).parts ≡ [] }
    ensures seventeen { (trimmed (spare_beside 16)).parts ≡ 1 ∷ [] }
    ensures gone { is_reached 1 Upstream (trimmed (spare_beside 16)) ≡ false }
    ensures last_place { has_place (linked 63) ≡ true }
    ensures full { has_place (linked 64) ≡ false }
    ensures makes_room { (trimmed (record (linked 64) { spares = 2 ∷ [] })).parts ≡ 2 ∷ [] }
    ensures has_room { (trimmed (record (linked 63) { spares = 2 ∷ [] })).parts ≡ [] }
    ensures lost_idle { (after (answered list (Lost 1 ∷ []))).parts ≡ 1 ∷ [] }
    ensures lost_unsent { owed Upstream (answered list (took_reply ∷ Heard 1 Client list ∷ Lost 1 ∷ [])) ≡ list }
    ensures asks_anew { can_send 1 Upstream (after (answered list (took_reply ∷ Heard 1 Client list ∷ Lost 1 ∷ []))) ≡ true }
    ensures lost_sent { (after (asks list ++ Lost 1 ∷ [])).closes ≡ 1 ∷ [] }
    ensures lost_bound { (after (answered bind (Lost 1 ∷ []))).closes ≡ 1 ∷ [] }
{}

/// Journals: what is ready is served in its turn and before a poll, pairs are closed at once, and so are connections
/// that ended.
pub fn journals_are_legal()
    ensures unbound { is_legal (poll_door ∷ []) ≡ false }
    ensures joined { is_legal (joins (read_none Client ∷ accept_none ∷ poll_nothing ∷ [])) ≡ true }
    ensures unread { is_legal (joins (poll_nothing ∷ [])) ≡ false }
    ensures out_of_turn { is_legal (joins (accept_none ∷ [])) ≡ false }
    ensures asked { is_legal (joins (asks_list (poll_nothing ∷ []))) ≡ true }
    ensures unconnected { is_legal (joins (read_of Client 5 list ∷ write_of Upstream 5 list ∷ [])) ≡ false }
    ensures needless { is_legal (joins (connect_made ∷ [])) ≡ false }
    ensures other { is_legal (joins (read_of Client 5 list ∷ connect_made ∷ accept_none ∷ read_none Client
        ∷ write_of Upstream 4 (0 ∷ 0 ∷ 0 ∷ 1 ∷ []) ∷ [])) ≡ false }
    ensures no_place { is_legal (joins (read_of Client 5 list ∷ connect_none ∷ accept_none ∷ read_none Client
        ∷ poll_nothing ∷ [])) ≡ true }
    ensures answered { is_legal (joins (asks_list (gets_reply (read_none Upstream ∷ poll_nothing ∷ [])))) ≡ true }
    ensures needed { is_legal (joins (asks_list (poll_reply ∷ read_of Upstream 5 failed ∷ disconnect_of 1 ∷ []))) ≡ false }
    ensures ended_idle { is_legal (joins (asks_list (gets_reply (read_end Upstream ∷ disconnect_of 1 ∷ poll_nothing ∷ []))))
        ≡ true }
    ensures held { is_legal (joins (asks_list (gets_reply (read_end Upstream ∷ poll_nothing ∷ [])))) ≡ false }
    ensures ended { is_legal (joins (read_of Client 5 list ∷ connect_failed ∷ close_of 1 ∷ accept_none
        ∷ poll_nothing ∷ [])) ≡ true }
    ensures left_open { is_legal (joins (read_of Client 5 list ∷ connect_failed ∷ accept_none ∷ [])) ≡ false }
{}
