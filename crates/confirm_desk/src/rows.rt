//! Examples, written out, that tell the definitions from others that look alike: laws that are proved by computing.
#![tactic(auto, unfolding(wire_text::specs::Wire::uint32, wire_text::specs::Wire::uint64, wire_text::specs::Wire::string, wire_text::specs::Wire::announced_len, wire_text::specs::Frames::front, wire_core::specs::Fields::uint32_at, wire_core::specs::Fields::uint64_at, wire_core::specs::Fields::string_len, wire_core::specs::Fields::string_at, child_msg::specs::Reading::from_child_of, child_msg::specs::Reading::from_child_of_kind, crate::specs::Confirmations::consent, crate::specs::Prompt::prompt_of))]

ghost use Rattle.std.specs.Prelude.{◌≡◌, [], ◌∷◌, ◌++◌, codes, drop, length, replicate, Some, None};
ghost use Rattle.confirm_desk.specs.Calls.{next_owed, raise_fault, telling, took_at};
ghost use Rattle.confirm_desk.specs.Confirmations.{NotYet, Yes, No, consent, find_asker, find_job, find_linked, linked, lose, oldest, owed_to, raise, told};
ghost use Rattle.confirm_desk.specs.Prompt.{prompt_of, shown_text};
ghost use Rattle.confirm_desk.specs.Samples.{answer, first_back, first_frame, first_with, second_back, second_frame, second_with, third_held, two, two_linked};
ghost use Rattle.confirm_desk.specs.declared.fault.DeskFault.TheVariants as faults;
ghost use Rattle.confirm_desk.specs.declared.held.Verdict.TheVariants as verdicts;

/// A confirmation is owed its question from the beginning, waits for its child process, and is found by its job,
/// its client, and the port where that came.
pub fn confirmations_are_kept_in_order()
    ensures raised { two ≡ first_with None [] first_frame ∷ second_with None [] second_frame ∷ [] }
    ensures by_job { find_job 4 two ≡ Some (second_with None [] second_frame) }
    ensures by_asker { find_asker 70 two ≡ Some (first_with None [] first_frame) }
    ensures no_port { find_linked 5 two ≡ None }
    ensures linked { linked 4 6 two
        ≡ first_with None [] first_frame ∷ second_with (Some 6) [] second_frame ∷ [] }
    ensures by_port { find_linked 6 two_linked ≡ Some (second_with (Some 6) [] second_frame) }
    ensures owed { owed_to (find_linked 5 two_linked) ≡ first_frame }
    ensures not_owed { owed_to (find_linked 4 two_linked) ≡ [] }
    ensures took { took_at 6 20 two_linked
        ≡ first_with (Some 5) [] first_frame ∷ second_with (Some 6) [] [] ∷ [] }
    ensures took_some { took_at 5 4 two_linked
        ≡ first_with (Some 5) [] (drop 4 first_frame) ∷ second_with (Some 6) [] second_frame ∷ [] }
    ensures lost { lose 1 two_linked ≡ second_with (Some 6) [] second_frame ∷ [] }
    ensures neither { lose 2 two_linked ≡ two_linked }
{}

/// The oldest confirmation is the one that was raised first, and of one second the first of them.
pub fn the_oldest_confirmation_counts()
    ensures none { oldest [] ≡ None }
    ensures first { oldest two ≡ Some (1, 7) }
    ensures linked { oldest two_linked ≡ Some (1, 7) }
    ensures over { oldest (lose 1 two) ≡ Some (4, 9) }
    ensures younger_over { oldest (lose 4 two) ≡ Some (1, 7) }
    ensures same_second { oldest (raise 5 third_held [] 7 two) ≡ Some (1, 7) }
    ensures any_order { oldest (raise 5 third_held [] 3 two) ≡ Some (5, 3) }
{}

/// Bytes are owed at ports in order, and where any are left.
pub fn the_least_port_is_owed_first()
    ensures first { next_owed 0 two_linked ≡ Some 5 }
    ensures second { next_owed 5 two_linked ≡ Some 6 }
    ensures none { next_owed 6 two_linked ≡ None }
    ensures sent { next_owed 0 (took_at 5 20 two_linked) ≡ Some 6 }
    ensures unlinked { next_owed 0 two ≡ None }
    ensures later_first { next_owed 0 (linked 4 6 (linked 1 9 two)) ≡ Some 6 }
{}

/// Only GRANTED for the job itself is a yes, and what isn't a whole frame is nothing yet.
pub fn only_a_grant_of_the_job_is_a_yes()
    ensures granted { consent 1 (answer 105 1) ≡ Yes }
    ensures granted_twice { consent 1 (answer 105 1 ++ answer 106 1) ≡ Yes }
    ensures of_another { consent 1 (answer 105 2) ≡ No }
    ensures denied { consent 1 (answer 106 1) ≡ No }
    ensures denied_first { consent 1 (answer 106 1 ++ answer 105 1) ≡ No }
    ensures refused { consent 1 (answer 102 1) ≡ No }
    ensures unknown { consent 1 (answer 107 1) ≡ No }
    ensures long { consent 1 (0 ∷ 0 ∷ 0 ∷ 10 ∷ 105 ∷ 0 ∷ 0 ∷ 0 ∷ 0 ∷ 0 ∷ 0 ∷ 0 ∷ 1 ∷ 0 ∷ []) ≡ No }
    ensures short { consent 1 (0 ∷ 0 ∷ 0 ∷ 8 ∷ 105 ∷ 0 ∷ 0 ∷ 0 ∷ 0 ∷ 0 ∷ 0 ∷ 1 ∷ []) ≡ No }
    ensures hello { consent 1 (0 ∷ 0 ∷ 0 ∷ 29 ∷ 1 ∷ 0 ∷ 0 ∷ 0 ∷ 0 ∷ 0 ∷ 0 ∷ 0 ∷ 1 ∷ 0 ∷ 0 ∷ 0 ∷ 16 ∷ replicate 16 0)
        ≡ No }
    ensures empty { consent 1 (0 ∷ 0 ∷ 0 ∷ 0 ∷ []) ≡ No }
    ensures longest { consent 1 (0 ∷ 4 ∷ 0 ∷ 0 ∷ []) ≡ NotYet }
    ensures too_long { consent 1 (0 ∷ 4 ∷ 0 ∷ 1 ∷ []) ≡ No }
    ensures nothing { consent 1 [] ≡ NotYet }
    ensures part { consent 1 (0 ∷ 0 ∷ 0 ∷ 9 ∷ 105 ∷ 0 ∷ 0 ∷ 0 ∷ 0 ∷ 0 ∷ 0 ∷ 0 ∷ []) ≡ NotYet }
{}

/// A piece goes to the confirmation of its port, and a decision ends that one alone.
pub fn a_decision_ends_one_confirmation()
    ensures part { telling 6 (0 ∷ 0 ∷ []) two_linked ≡ record {
      desk = first_with (Some 5) [] first_frame ∷ second_with (Some 6) (0 ∷ 0 ∷ []) second_frame ∷ [];
      verdict = verdicts.NotYet;
    } }
    ensures granted { telling 6 (0 ∷ 9 ∷ 105 ∷ 0 ∷ 0 ∷ 0 ∷ 0 ∷ 0 ∷ 0 ∷ 0 ∷ 4 ∷ []) (told 4 (0 ∷ 0 ∷ []) two_linked)
        ≡ record {
          desk = first_with (Some 5) [] first_frame ∷ [];
          verdict = verdicts.Granted second_back;
        } }
    ensures denied { telling 5 (answer 106 1) two_linked ≡ record {
      desk = second_with (Some 6) [] second_frame ∷ [];
      verdict = verdicts.Denied first_back;
    } }
    ensures of_another { telling 5 (answer 105 4) two_linked ≡ record {
      desk = second_with (Some 6) [] second_frame ∷ [];
      verdict = verdicts.Denied first_back;
    } }
    ensures again { telling 5 (answer 105 1) (telling 5 (answer 105 1) two_linked).desk ≡ record {
      desk = second_with (Some 6) [] second_frame ∷ [];
      verdict = verdicts.NotYet;
    } }
    ensures full { raise_fault (replicate 16 (first_with None [] [])) ≡ Some faults.Full }
    ensures room { raise_fault (replicate 15 (first_with None [] [])) ≡ None }
{}

/// A comment is shown in printable ASCII, and no more than 256 bytes of it.
pub fn prompts_are_printable()
    ensures text { prompt_of (codes "one") (codes "SHA256:ab")
        ≡ codes "Allow use of key one?" ++ (10 ∷ codes "Key fingerprint SHA256:ab.") }
    ensures escape { shown_text 256 (27 ∷ 91 ∷ 50 ∷ 74 ∷ 10 ∷ 0 ∷ []) ≡ codes "?[2J??" }
    ensures above { shown_text 256 (126 ∷ 127 ∷ 195 ∷ 169 ∷ 255 ∷ []) ≡ codes "~????" }
    ensures space { shown_text 256 (31 ∷ 32 ∷ 33 ∷ []) ≡ codes "? !" }
    ensures none { shown_text 256 [] ≡ [] }
    ensures whole { length (shown_text 256 (replicate 256 97)) ≡ 256 }
    ensures cut { shown_text 256 (replicate 256 97 ++ codes "b") ≡ replicate 256 97 }
{}
