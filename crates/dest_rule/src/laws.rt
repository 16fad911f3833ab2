//! Laws of chains and constraints, beside the calls.

ghost use Rattle.std.specs.Prelude.{◌≡◌, ◌≢◌, ◌↔◌, ◌<◌, ◌≤◌, ℕ, Bool, true, List, [], ◌∷◌, length, Contains, Option, Some, None, Ok, Err, IsOk, IsSomeAnd};
ghost use Rattle.std.specs.List.{slice_get};
ghost use Rattle.key_blob.specs.PublicKeys.{public_key_of};
ghost use Rattle.userauth_blob.specs.UserAuths.{Login};
ghost use Rattle.userauth_blob.specs.Reading.{auth_of};
ghost use Rattle.constraint_rec.specs.declared.constraint.Constraint.{Constraint};
ghost use Rattle.dest_rule.specs.Chains.{Binding, Judgement, New, Same, newest, newest_after, is_open, is_session, find_session, judge, bound, IsChain};
ghost use Rattle.userauth_blob.specs.declared.fault.AuthFault.{AuthFault};
ghost use Rattle.dest_rule.specs.Hosts.{IsPermittedTo, login_host};
ghost use Rattle.dest_rule.specs.Rules.{Grounds, is_pair, on_the_way, bad_place, permits_way, visible, denial};
ghost use Rattle.dest_rule.specs.Places.{key_before, IsPlaceIn};

/// The place that `bad_place` gives is the least that isn't good, and where it gives none all are.
pub fn a_bad_place_is_the_least()
    ensures { (grounds : Grounds) (binding : Binding) (later : List Binding)
        → IsPlaceIn grounds (binding ∷ later) (bad_place grounds binding later) }
{}

/// What some constraints permit is permitted by these and more, with a user who is to log in and
/// without.
pub fn more_constraints_permit_no_less()
    ensures permitted { (rules more : List Constraint) (user : Option (List ℕ)) (wall : ℕ)
        (binding : Binding) (later : List Binding)
        → ((rule : Constraint) → Contains rules rule → Contains more rule)
        → bad_place (record { rules = rules; user = user; wall = wall }) binding later ≡ None
        → bad_place (record { rules = more; user = user; wall = wall }) binding later ≡ None }
    ensures way { (rules more : List Constraint) (wall : ℕ) (binding : Binding)
        (later : List Binding) → ((rule : Constraint) → Contains rules rule → Contains more rule)
        → permits_way (record { rules = rules; user = None; wall = wall }) binding later ≡ true
        → permits_way (record { rules = more; user = None; wall = wall }) binding later ≡ true }
{}

/// Once a connection is bound, it makes no difference whether it tried to bind.
pub fn the_mark_counts_only_without_bindings()
    ensures { (rules : List Constraint) (binding : Binding) (later : List Binding)
        (attempted other : Bool) (wall : ℕ) → visible rules (binding ∷ later) attempted wall
        ≡ visible rules (binding ∷ later) other wall }
{}

/// A session that is known is never new, and is the same exactly where its host key is and more may
/// follow the newest binding.
pub fn a_known_session_is_never_new()
    ensures not_new { (host_key session : List ℕ) (chain : List Binding) (known : Binding)
        → find_session session chain ≡ Some known → judge host_key session chain ≢ New }
    ensures same { (host_key session : List ℕ) (chain : List Binding) (known : Binding)
        → find_session session chain ≡ Some known → is_session session ≡ true
        → (judge host_key session chain ≡ Same)
        ↔ ((known.host_key ≡ host_key) × (is_open (newest chain) ≡ true)) }
{}

/// With a new binding of a host key that is read a chain stays one: it has room for it.
pub fn a_chain_has_room_for_what_is_new()
    ensures { (chain : List Binding) (binding : Binding) → IsChain chain
        → judge binding.host_key binding.session chain ≡ New
        → IsOk (public_key_of binding.host_key) → IsChain (bound binding chain) }
{}

/// One constraint that begins at the agent's own host permits no second hop, whoever logs in.
pub fn from_the_origin_alone_there_is_no_second_hop()
    ensures { (rule : Constraint) (user : Option (List ℕ)) (wall : ℕ)
        (first next : Binding) (later : List Binding) → rule.from.keys ≡ []
        → bad_place (record { rules = rule ∷ []; user = user; wall = wall }) first (next ∷ later)
        ≢ None }
{}

/// A chain is permitted only where some constraint permits each hop of it: also those on the way.
pub fn every_hop_is_permitted_by_a_constraint()
    ensures { (grounds : Grounds) (first : Binding) (later : List Binding) (place : ℕ)
        (binding : Binding) → bad_place grounds first later ≡ None
        → slice_get (first ∷ later) place ≡ Some binding
        → is_pair (on_the_way grounds) (key_before None (first ∷ later) place) binding.host_key
        ≡ true }
{}

/// A login is signed only for the newest session.
pub fn only_the_newest_session_is_signed_for()
    ensures { (rules : List Constraint) (blob : List ℕ) (first : Binding) (later : List Binding)
        (message : List ℕ) (wall : ℕ) (auth : Login)
        → denial rules blob (first ∷ later) message wall ≡ None → auth_of message blob ≡ Ok auth
        → auth.session ≡ (newest_after first later).session }
{}

/// No login of a user of more than 4096 bytes is signed.
pub fn a_long_user_is_not_signed_for()
    ensures { (rules : List Constraint) (blob : List ℕ) (chain : List Binding) (message : List ℕ)
        (wall : ℕ) (auth : Login) → denial rules blob chain message wall ≡ None
        → auth_of message blob ≡ Ok auth → length auth.user ≤ 4096 }
{}

/// Nothing is signed for a connection that is bound to no host.
pub fn nothing_is_signed_for_an_unbound_connection()
    ensures { (rules : List Constraint) (blob message : List ℕ) (wall : ℕ)
        → denial rules blob [] message wall ≢ None }
{}

/// A key that may sign is visible.
pub fn what_may_be_signed_is_visible()
    ensures { (rules : List Constraint) (blob : List ℕ) (chain : List Binding) (message : List ℕ)
        (wall : ℕ) (attempted : Bool) → denial rules blob chain message wall ≡ None
        → visible rules chain attempted wall ≡ true }
{}

/// A login that may be signed has a host, the name in a constraint that permits the way to the newest host; without
/// constraints, and for what is no login, there is none.
pub fn the_host_of_a_login_is_that_of_a_constraint_that_permits_it()
    ensures there { (rules : List Constraint) (blob : List ℕ) (first : Binding) (later : List Binding)
        (message : List ℕ) (wall : ℕ) (auth : Login)
        → denial rules blob (first ∷ later) message wall ≡ None → auth_of message blob ≡ Ok auth
        → IsSomeAnd (login_host rules blob (first ∷ later) message wall)
        (IsPermittedTo (record { rules = rules; user = Some auth.user; wall = wall }) first later) }
    ensures free { (blob : List ℕ) (chain : List Binding) (message : List ℕ) (wall : ℕ)
        → login_host [] blob chain message wall ≡ None }
    ensures no_login { (rules : List Constraint) (blob : List ℕ) (chain : List Binding) (message : List ℕ) (wall : ℕ)
        (fault : AuthFault) → auth_of message blob ≡ Err fault → login_host rules blob chain message wall ≡ None }
{}
