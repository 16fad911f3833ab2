//! Examples, written out, that tell the definitions from others that look alike.

ghost use Rattle.std.specs.Prelude.{◌≡◌, true, false, [], ◌∷◌, codes, replicate, Some, None};
ghost use Rattle.dest_rule.specs.Chains.{New, Same, Refuse, AuthBound, OtherKey, ChainFull, SessionLength, judge};
ghost use Rattle.dest_rule.specs.Rules.{bad_place, visible, OtherSession, NoHostKey, OtherHostKey, BadHop, LongUser, denial};
ghost use Rattle.dest_rule.specs.Hosts.{login_host};
ghost use Rattle.dest_rule.specs.Samples.{key, certificate_for, origin, known, known_for, named, certified, to_go, passing, ending, for_root, login_as, login_of};

/// The hops on the way count, and not only the newest; so do users, and the end that is left.
pub fn each_hop_counts()
    // The newest hop is permitted, and the one before it isn't.
    ensures on_the_way { bad_place (for_root (to_go (known 2) (known 3) ∷ []) 0)
        (passing (key 2) (5 ∷ [])) (ending (key 3) (6 ∷ []) ∷ []) ≡ Some 0 }
    ensures both { bad_place (for_root (to_go origin (known 2) ∷ to_go (known 2) (known 3) ∷ []) 0)
        (passing (key 2) (5 ∷ [])) (ending (key 3) (6 ∷ []) ∷ []) ≡ None }
    ensures not_beyond { bad_place (for_root (to_go origin (known 2) ∷ []) 0)
        (passing (key 2) (5 ∷ [])) (ending (key 3) (6 ∷ []) ∷ []) ≡ Some 1 }
    ensures other_user { bad_place (for_root (to_go origin (known_for (codes "per*") 2) ∷ []) 0)
        (ending (key 2) (5 ∷ [])) [] ≡ Some 0 }
    ensures user { bad_place (for_root (to_go origin (known_for (codes "r?ot") 2) ∷ []) 0)
        (ending (key 2) (5 ∷ [])) [] ≡ None }
    ensures other_start { bad_place (for_root (to_go (known 2) (known 3) ∷ []) 0)
        (ending (key 3) (5 ∷ [])) [] ≡ Some 0 }
    ensures forwarded { bad_place (for_root (to_go origin (known 2) ∷ []) 0)
        (passing (key 2) (5 ∷ [])) [] ≡ Some 0 }
    ensures other_key { bad_place (for_root (to_go origin (known 2) ∷ []) 0)
        (ending (key 3) (5 ∷ [])) [] ≡ Some 0 }
{}

/// A certificate counts where it is of the authority, for the host, and in time; nothing else does.
pub fn a_certificate_counts_for_its_host_in_time()
    ensures in_time { bad_place (for_root (to_go origin certified ∷ []) 199)
        (ending (certificate_for (codes "scylla.example.org")) (5 ∷ [])) [] ≡ None }
    ensures over { bad_place (for_root (to_go origin certified ∷ []) 200)
        (ending (certificate_for (codes "scylla.example.org")) (5 ∷ [])) [] ≡ Some 0 }
    ensures early { bad_place (for_root (to_go origin certified ∷ []) 99)
        (ending (certificate_for (codes "scylla.example.org")) (5 ∷ [])) [] ≡ Some 0 }
    ensures pattern { bad_place (for_root (to_go origin certified ∷ []) 150)
        (ending (certificate_for (codes "*.example.org")) (5 ∷ [])) [] ≡ None }
    ensures other_host { bad_place (for_root (to_go origin certified ∷ []) 150)
        (ending (certificate_for (codes "charybdis.example.org")) (5 ∷ [])) [] ≡ Some 0 }
    ensures the_authority { bad_place (for_root (to_go origin certified ∷ []) 150)
        (ending (key 9) (5 ∷ [])) [] ≡ Some 0 }
    ensures its_key { bad_place (for_root (to_go origin (known 3) ∷ []) 150)
        (ending (certificate_for (codes "scylla.example.org")) (5 ∷ [])) [] ≡ Some 0 }
{}

/// A login is to the newest session, and bound to its host key; its user has 4096 bytes at most.
pub fn a_login_is_to_the_newest_host()
    ensures permitted { denial (to_go origin (known 2) ∷ to_go (known 2) (known 3) ∷ []) (key 1)
        (passing (key 2) (5 ∷ []) ∷ ending (key 3) (6 ∷ []) ∷ [])
        (login_of (6 ∷ []) (Some (key 3))) 0 ≡ None }
    ensures older { denial (to_go origin (known 2) ∷ to_go (known 2) (known 3) ∷ []) (key 1)
        (passing (key 2) (5 ∷ []) ∷ ending (key 3) (6 ∷ []) ∷ [])
        (login_of (5 ∷ []) (Some (key 3))) 0 ≡ Some OtherSession }
    ensures unbound { denial (to_go origin (known 2) ∷ to_go (known 2) (known 3) ∷ []) (key 1)
        (passing (key 2) (5 ∷ []) ∷ ending (key 3) (6 ∷ []) ∷ [])
        (login_of (6 ∷ []) None) 0 ≡ Some NoHostKey }
    ensures other { denial (to_go origin (known 2) ∷ to_go (known 2) (known 3) ∷ []) (key 1)
        (passing (key 2) (5 ∷ []) ∷ ending (key 3) (6 ∷ []) ∷ [])
        (login_of (6 ∷ []) (Some (key 2))) 0 ≡ Some OtherHostKey }
    ensures only { denial (to_go origin (known 2) ∷ []) (key 1) (ending (key 2) (5 ∷ []) ∷ [])
        (login_of (5 ∷ []) None) 0 ≡ None }
    ensures hop { denial (to_go origin (known 2) ∷ []) (key 1)
        (passing (key 2) (5 ∷ []) ∷ ending (key 3) (6 ∷ []) ∷ [])
        (login_of (5 ∷ []) (Some (key 3))) 0 ≡ Some (BadHop 1) }
    ensures long { denial (to_go origin (known 2) ∷ []) (key 1) (ending (key 3) (5 ∷ []) ∷ [])
        (login_as (replicate 4097 7) (6 ∷ []) None) 0 ≡ Some LongUser }
    ensures longest { denial (to_go origin (known 2) ∷ []) (key 1) (ending (key 2) (5 ∷ []) ∷ [])
        (login_as (replicate 4096 7) (5 ∷ []) None) 0 ≡ None }
{}

/// Sessions have 1 to 128 bytes, a chain has 16 bindings at most, 65536 bytes of host keys and 1024 of
/// principals, and nothing follows a login.
pub fn bindings_are_judged_in_order()
    ensures new { judge (key 2) (replicate 128 7) [] ≡ New }
    ensures long { judge (key 2) (replicate 129 7) [] ≡ Refuse SessionLength }
    ensures empty { judge (key 2) [] (ending (key 2) (5 ∷ []) ∷ []) ≡ Refuse SessionLength }
    ensures after_login { judge (key 2) (5 ∷ []) (ending (key 2) (5 ∷ []) ∷ []) ≡ Refuse AuthBound }
    ensures known { judge (key 2) (5 ∷ []) (replicate 16 (passing (key 2) (5 ∷ []))) ≡ Same }
    ensures other { judge (key 3) (5 ∷ []) (replicate 16 (passing (key 2) (5 ∷ [])))
        ≡ Refuse OtherKey }
    ensures full { judge (key 2) (6 ∷ []) (replicate 16 (passing (key 2) (5 ∷ [])))
        ≡ Refuse ChainFull }
    ensures last { judge (key 2) (6 ∷ []) (replicate 15 (passing (key 2) (5 ∷ []))) ≡ New }
    ensures heavy { judge (replicate 17 7) (6 ∷ [])
        (replicate 15 (passing (replicate 4368 7) (5 ∷ []))) ≡ Refuse ChainFull }
    ensures fits { judge (replicate 16 7) (6 ∷ [])
        (replicate 15 (passing (replicate 4368 7) (5 ∷ []))) ≡ New }
    ensures named { judge (certificate_for (replicate 509 7)) (6 ∷ [])
        (passing (certificate_for (replicate 508 7)) (5 ∷ []) ∷ []) ≡ Refuse ChainFull }
    ensures names_fit { judge (certificate_for (replicate 508 7)) (6 ∷ [])
        (passing (certificate_for (replicate 508 7)) (5 ∷ []) ∷ []) ≡ New }
{}

/// A key is visible where it can be used, or could be behind the newest host.
pub fn a_key_is_visible_where_it_leads_on()
    ensures free { visible [] [] true 0 ≡ true }
    ensures local { visible (to_go origin (known 2) ∷ []) [] false 0 ≡ true }
    ensures failed { visible (to_go origin (known 2) ∷ []) [] true 0 ≡ false }
    ensures login { visible (to_go origin (known_for (codes "per*") 2) ∷ [])
        (ending (key 2) (5 ∷ []) ∷ []) true 0 ≡ true }
    ensures dead_end { visible (to_go origin (known 2) ∷ []) (passing (key 2) (5 ∷ []) ∷ []) true 0
        ≡ false }
    ensures leads_on { visible (to_go origin (known 2) ∷ to_go (known 2) (known 3) ∷ [])
        (passing (key 2) (5 ∷ []) ∷ []) true 0 ≡ true }
{}

/// A login's host has the name that the first constraint gives it that permits the login: not one of another key, of
/// another user or behind another host.
pub fn a_login_s_host_is_told_by_the_first_constraint()
    ensures first { login_host (to_go origin (named (codes "gate") 2) ∷ to_go origin (named (codes "door") 2) ∷ [])
        (key 1) (ending (key 2) (5 ∷ []) ∷ []) (login_of (5 ∷ []) None) 0 ≡ Some (codes "gate") }
    ensures other_key { login_host (to_go origin (named (codes "gate") 3) ∷ to_go origin (named (codes "door") 2) ∷ [])
        (key 1) (ending (key 2) (5 ∷ []) ∷ []) (login_of (5 ∷ []) None) 0 ≡ Some (codes "door") }
    ensures other_user { login_host (to_go origin (known_for (codes "per*") 2) ∷ to_go origin (named (codes "door") 2) ∷ [])
        (key 1) (ending (key 2) (5 ∷ []) ∷ []) (login_of (5 ∷ []) None) 0 ≡ Some (codes "door") }
    ensures behind { login_host (to_go origin (named (codes "gate") 3) ∷ to_go (known 2) (named (codes "door") 3) ∷ [])
        (key 1) (passing (key 2) (5 ∷ []) ∷ ending (key 3) (6 ∷ []) ∷ [])
        (login_of (6 ∷ []) (Some (key 3))) 0 ≡ Some (codes "door") }
    ensures free { login_host [] (key 1) (ending (key 2) (5 ∷ []) ∷ []) (login_of (5 ∷ []) None) 0 ≡ None }
    ensures unbound { login_host (to_go origin (known 2) ∷ []) (key 1) [] (login_of (5 ∷ []) None) 0 ≡ None }
    ensures other_data { login_host (to_go origin (known 2) ∷ []) (key 1) (ending (key 2) (5 ∷ []) ∷ []) (codes "abc") 0
        ≡ None }
{}
