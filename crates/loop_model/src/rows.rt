//! Literal lines and journals, each a law that is proved by computing.
#![tactic(auto, unfolding(wire_text::specs::Frames::front, wire_text::specs::Frames::split_up_to, wire_text::specs::Frames::split, wire_text::specs::Wire::uint32, wire_text::specs::Wire::string, wire_text::specs::Wire::announced_len, agent_msg::specs::Reading::request_of_number, agent_msg::specs::Reading::request_of, agent_msg::specs::Reading::is_addition, agent_msg::specs::Requests::session_bind, agent_msg::specs::Requests::bind_front, agent_msg::specs::Requests::names_bind, identity_table::specs::Identities::alive_at, identity_table::specs::Identities::next_death, identity_table::specs::Identities::find_identity, identity_table::specs::Identities::remove_identity,))]

ghost use Rattle.std.specs.Prelude.{◌≡◌, [], ◌∷◌, ℕ, List, None, Some, false, true};
ghost use Rattle.world_ports.specs.declared.events.Door.TheVariants.{Clients};
ghost use Rattle.world_ports.specs.declared.events.JobKind.TheVariants.{Confirm, Helper};
ghost use Rattle.agent_model.specs.Events.{Ended, Heard, Joined, Tick, Took};
ghost use Rattle.loop_model.specs.Elsewhere.{may_end};
ghost use Rattle.loop_model.specs.Lines.{after_event, queued, recalled, returned, settled};
ghost use Rattle.loop_model.specs.Rows.{accept_as, accept_none, close_of, comes_as_it_waits, comes_in_turn, is_legal, joins, line_of, no_ports, now_at, one_client, poll_client, poll_for, poll_nothing, queue_of, read_none, read_of, start_of, two_clients, with_jobs, write_of};
ghost use Rattle.loop_model.specs.declared.thing.Thing.TheVariants.{Accept, Read, Write};

/// A wait comes behind a look alone, and a look where nothing can be served.
pub fn a_wait_follows_a_look()
    ensures looked { is_legal (now_at 1 ∷ poll_nothing ∷ []) ≡ true }
    ensures unlooked { is_legal (poll_nothing ∷ []) ≡ false }
    ensures twice { is_legal (now_at 1 ∷ poll_nothing ∷ poll_nothing ∷ []) ≡ false }
    ensures client_waits { is_legal (now_at 1 ∷ poll_client ∷ now_at 1 ∷ []) ≡ false }
    ensures served { is_legal (now_at 1 ∷ poll_client ∷ accept_none ∷ now_at 2 ∷ poll_nothing ∷ []) ≡ true }
{}

/// Where the helper hasn't answered in time its client is told before a poll, which waits until then and no longer.
pub fn what_is_due_is_told_before_a_wait()
    ensures before { comes_as_it_waits (now_at 59 ∷ poll_for 1 ∷ []) ≡ true }
    ensures longer { comes_as_it_waits (now_at 59 ∷ poll_for 2 ∷ []) ≡ false }
    ensures untold { comes_as_it_waits (now_at 60 ∷ poll_nothing ∷ []) ≡ false }
    ensures told { comes_as_it_waits (now_at 60 ∷ write_of 1 (0 ∷ 0 ∷ 0 ∷ 1 ∷ 5 ∷ []) 5 ∷ now_at 60 ∷ now_at 60
        ∷ poll_nothing ∷ []) ≡ true }
{}

/// What isn't ready isn't tried, and an event's moment is read before anything else.
pub fn only_what_is_ready_is_tried()
    ensures cold { is_legal (accept_as 1 ∷ []) ≡ false }
    ensures joined { is_legal (joins []) ≡ true }
    ensures no_moment { is_legal (now_at 1 ∷ poll_client ∷ accept_as 1 ∷ accept_none ∷ []) ≡ false }
    ensures not_open { is_legal (joins (read_none 2 ∷ [])) ≡ false }
    ensures read { is_legal (joins (read_none 1 ∷ [])) ≡ true }
    ensures read_twice { is_legal (joins (read_none 1 ∷ read_none 1 ∷ [])) ≡ false }
    ensures unread { is_legal (joins (now_at 2 ∷ [])) ≡ false }
    ensures no_byte { is_legal (joins (read_of 1 0 [] ∷ [])) ≡ false }
    ensures fewer_bytes { is_legal (joins (read_of 1 2 (0 ∷ []) ∷ [])) ≡ false }
{}

/// A write offers what is owed, and nothing else.
pub fn what_is_owed_is_written()
    ensures whole { is_legal (joins (read_of 1 5 (0 ∷ 0 ∷ 0 ∷ 1 ∷ 19 ∷ []) ∷ now_at 2 ∷ accept_none
        ∷ write_of 1 (0 ∷ 0 ∷ 0 ∷ 1 ∷ 6 ∷ []) 5 ∷ now_at 2 ∷ read_none 1 ∷ now_at 3 ∷ poll_nothing
        ∷ [])) ≡ true }
    ensures other { is_legal (joins (read_of 1 5 (0 ∷ 0 ∷ 0 ∷ 1 ∷ 19 ∷ []) ∷ now_at 2 ∷ accept_none
        ∷ write_of 1 (0 ∷ 0 ∷ 0 ∷ 1 ∷ 5 ∷ []) 5 ∷ [])) ≡ false }
    ensures front { is_legal (joins (read_of 1 5 (0 ∷ 0 ∷ 0 ∷ 1 ∷ 19 ∷ []) ∷ now_at 2 ∷ accept_none
        ∷ write_of 1 (0 ∷ 0 ∷ 0 ∷ 1 ∷ []) 4 ∷ [])) ≡ false }
    ensures none { is_legal (joins (read_of 1 5 (0 ∷ 0 ∷ 0 ∷ 1 ∷ 19 ∷ []) ∷ now_at 2 ∷ accept_none
        ∷ write_of 1 (0 ∷ 0 ∷ 0 ∷ 1 ∷ 6 ∷ []) 0 ∷ [])) ≡ false }
    ensures more { is_legal (joins (read_of 1 5 (0 ∷ 0 ∷ 0 ∷ 1 ∷ 19 ∷ []) ∷ now_at 2 ∷ accept_none
        ∷ write_of 1 (0 ∷ 0 ∷ 0 ∷ 1 ∷ 6 ∷ []) 6 ∷ [])) ≡ false }
    ensures forgotten { is_legal (joins (read_of 1 5 (0 ∷ 0 ∷ 0 ∷ 1 ∷ 19 ∷ []) ∷ now_at 2 ∷ accept_none
        ∷ read_none 1 ∷ [])) ≡ false }
    ensures closed { is_legal (joins (read_of 1 4 (0 ∷ 0 ∷ 0 ∷ 0 ∷ []) ∷ now_at 2 ∷ close_of 1 ∷ [])) ≡ true }
    ensures left_open { is_legal (joins (read_of 1 4 (0 ∷ 0 ∷ 0 ∷ 0 ∷ []) ∷ now_at 2 ∷ now_at 3 ∷ [])) ≡ false }
{}

/// What can't be served any more is set aside, by rising numbers, but for what is at a port that was closed; the others
/// keep their order.
pub fn what_cant_be_served_is_set_aside()
    ensures front { settled one_client (2 ∷ []) (queue_of (Read 2 ∷ Write 1 ∷ Accept Clients ∷ Read 1 ∷ []))
        ≡ line_of (Accept Clients ∷ Read 1 ∷ []) [] [] (1 ∷ []) }
    ensures closed { settled no_ports (3 ∷ []) (line_of [] [] (3 ∷ 7 ∷ []) (3 ∷ []))
        ≡ line_of [] [] (7 ∷ []) [] }
    ensures none { settled one_client [] (queue_of (Read 1 ∷ [])) ≡ queue_of (Read 1 ∷ []) }
{}

/// What can be served comes back behind the queue, the event's own port first; what can't be stays aside.
pub fn what_can_be_served_again_comes_back()
    ensures door { recalled no_ports None (line_of (Read 9 ∷ []) (Clients ∷ []) (4 ∷ []) [])
        ≡ line_of (Read 9 ∷ Accept Clients ∷ []) [] (4 ∷ []) [] }
    ensures own { recalled one_client (Some 1) (line_of (Write 5 ∷ []) [] (1 ∷ []) [])
        ≡ queue_of (Write 5 ∷ Read 1 ∷ []) }
    ensures first { recalled two_clients (Some 2) (line_of [] (Clients ∷ []) (1 ∷ 2 ∷ []) (2 ∷ []))
        ≡ line_of (Read 2 ∷ Accept Clients ∷ Read 1 ∷ []) [] [] (2 ∷ []) }
{}

/// What was served stands last where it can be served, and is set aside where it can't be, but for what is at a port
/// that was closed.
pub fn what_was_served_stands_last()
    ensures last { returned one_client (Some (Read 1)) (queue_of (Accept Clients ∷ []))
        ≡ queue_of (Accept Clients ∷ Read 1 ∷ []) }
    ensures aside { returned one_client (Some (Write 1)) (queue_of []) ≡ line_of [] [] [] (1 ∷ []) }
    ensures closed { returned no_ports (Some (Read 1)) (queue_of []) ≡ queue_of [] }
    ensures behind { after_event two_clients [] (Some 1) (Some (Accept Clients))
        (line_of (Read 2 ∷ []) [] (1 ∷ []) []) ≡ queue_of (Read 2 ∷ Read 1 ∷ Accept Clients ∷ []) }
{}

/// A thing that is ready stands in one place: last in the list where it can be served, and otherwise aside.
pub fn what_is_ready_stands_once()
    ensures new { queued one_client (Read 1) (queue_of (Accept Clients ∷ []))
        ≡ queue_of (Accept Clients ∷ Read 1 ∷ []) }
    ensures unable { queued one_client (Write 1) (queue_of []) ≡ line_of [] [] [] (1 ∷ []) }
    ensures there { queued one_client (Read 1) (queue_of (Read 1 ∷ [])) ≡ queue_of (Read 1 ∷ []) }
    ensures aside { queued one_client (Write 1) (line_of [] [] [] (1 ∷ [])) ≡ line_of [] [] [] (1 ∷ []) }
{}

/// Of two clients that can be read the one that stands first is read first.
pub fn a_call_out_of_turn_is_refused()
    ensures out_of_turn { comes_in_turn two_clients (Read 1 ∷ Read 2 ∷ []) (read_none 2 ∷ []) ≡ false }
    ensures in_turn { comes_in_turn two_clients (Read 1 ∷ Read 2 ∷ []) (read_none 1 ∷ read_none 2 ∷ []) ≡ true }
    ensures passed_over { comes_in_turn two_clients (Write 1 ∷ Read 2 ∷ []) (read_none 2 ∷ []) ≡ true }
    ensures twice { comes_in_turn two_clients (Read 1 ∷ Read 2 ∷ [])
        (read_of 1 1 (0 ∷ []) ∷ now_at 1 ∷ read_of 1 1 (0 ∷ []) ∷ []) ≡ false }
    ensures by_turns { comes_in_turn two_clients (Read 1 ∷ Read 2 ∷ [])
        (read_of 1 1 (0 ∷ []) ∷ now_at 1 ∷ read_of 2 1 (0 ∷ []) ∷ now_at 1 ∷ read_none 1 ∷ []) ≡ true }
{}

/// Nothing is served and the clock isn't looked at while a job waits to be started, and the first of the jobs is started
/// first.
pub fn what_is_to_be_started_is_started_first()
    ensures served { comes_in_turn (with_jobs one_client) (Read 1 ∷ []) (read_none 1 ∷ []) ≡ false }
    ensures looked { comes_in_turn (with_jobs one_client) [] (now_at 1 ∷ []) ≡ false }
    ensures second { comes_in_turn (with_jobs one_client) (Read 1 ∷ []) (start_of 2 Confirm ∷ []) ≡ false }
    ensures between { comes_in_turn (with_jobs one_client) (Read 1 ∷ [])
        (start_of 1 Helper ∷ now_at 1 ∷ read_none 1 ∷ []) ≡ false }
    ensures both { comes_in_turn (with_jobs one_client) (Read 1 ∷ [])
        (start_of 1 Helper ∷ now_at 1 ∷ start_of 2 Confirm ∷ now_at 1 ∷ read_none 1 ∷ []) ≡ true }
{}

/// A client that joined is read before the listener is tried again.
pub fn a_client_that_joined_is_served_first()
    ensures listener_first { is_legal (joins (accept_none ∷ [])) ≡ false }
    ensures client_first { is_legal (joins (read_none 1 ∷ accept_none ∷ now_at 2 ∷ poll_nothing ∷ [])) ≡ true }
{}

/// An event ends at most what its own call served, and the listeners where a port joined.
pub fn an_event_ends_what_was_served()
    ensures read { (piece : List ℕ) → may_end (Heard 1 piece) (Read 1) ≡ true }
    ensures other_port { (piece : List ℕ) → may_end (Heard 1 piece) (Read 2) ≡ false }
    ensures other_way { (piece : List ℕ) → may_end (Heard 1 piece) (Write 1) ≡ false }
    ensures written { may_end (Took 1 5) (Write 1) ≡ true }
    ensures written_other { may_end (Took 1 5) (Write 2) ≡ false }
    ensures written_read { may_end (Took 1 5) (Read 1) ≡ false }
    ensures joined { may_end (Joined Clients) (Accept Clients) ≡ true }
    ensures joined_read { may_end (Joined Clients) (Read 1) ≡ false }
    ensures ended { may_end (Ended 1) (Write 2) ≡ false }
    ensures looked { may_end Tick (Accept Clients) ≡ false }
{}
