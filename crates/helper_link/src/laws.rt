//! What stands of a link over many calls.

ghost use Rattle.std.specs.Prelude.{◌≡◌, ◌≢◌, ◌+◌, ◌^◌, ◌<◌, ◌≤◌, ◌==◌, ℕ, All, IsSome, List, [], None, Some, length, if◌then◌else◌};
ghost use Rattle.lists.specs.Keyed.{find_by};
ghost use Rattle.wire_text.specs.Bounds.{longest_to_child};
ghost use Rattle.child_msg.specs.ChildFrames.{to_child_body};
ghost use Rattle.child_msg.specs.Messages.{ToChildMessage};
ghost use Rattle.helper_link.specs.Answered.{LeadTo, is_answered};
ghost use Rattle.helper_link.specs.Calls.{Call, RiseFrom, numbers_of};
ghost use Rattle.helper_link.specs.HelperLink.{ArePutBy, HelperLink, IsLinked, IsStarting, ask_fault, ask_of, begun, linked_to, lost, no_link, oldest, second_of, sendable, sent, submitted};
ghost use Rattle.helper_link.specs.Settling.{find_ask};
ghost use Rattle.helper_link.specs.Sound.{IsSound};
ghost use Rattle.helper_link.specs.Telling.{joined, told_in_turn, telling};
ghost use Rattle.helper_link.specs.declared.ask.Ask.{Ask as AnAsk};
ghost use Rattle.helper_link.specs.declared.ask.AskKind.{AskKind as AKind};
ghost use Rattle.helper_link.specs.declared.state.LinkState.TheVariants as states;

/// Pieces that are told one after another, up to the first fault, tell what they tell as one piece,
/// and leave the link as it would.
pub fn cuts_of_the_stream_do_not_matter()
    ensures { (piece : List ℕ) (pieces : List (List ℕ)) (link : HelperLink)
        → told_in_turn piece pieces link ≡ telling (joined piece pieces) link }
{}

/// What holds of the first link holds after each call that may be made: while no helper is there or
/// being started, nothing is unanswered, to be sent or heard; at most 256 asks are unanswered, in
/// the order of their numbers, in which the seconds at which they were put never fall; their bodies
/// have fewer than 8 MiB and 1 MiB together, as no body has more than 1 MiB; and what was heard is
/// less than a frame.
pub fn links_stay_sound()
    ensures first { IsSound no_link }
    ensures begun { (job : ℕ) (link : HelperLink) → IsSound link → IsSound (begun job link) }
    ensures linked { (port : ℕ) (link : HelperLink)
        → IsStarting link.state → IsSound link → IsSound (linked_to port link) }
    ensures submitted { (kind : AKind) (asker : ℕ) (blob : List ℕ) (request : ℕ → ToChildMessage) (now : ℕ)
        (link : HelperLink) → link.state ≢ states.None → ask_fault link ≡ None
        → length (to_child_body (request (link.last + 1))) ≤ longest_to_child
        → ArePutBy now link.asks → IsSound link → IsSound (submitted kind asker blob request now link) }
    ensures sent { (count : ℕ) (link : HelperLink) → IsSound link → IsSound (sent count link) }
    ensures told { (piece : List ℕ) (link : HelperLink)
        → IsLinked link.state → IsSound link → IsSound (telling piece link).link }
    ensures lost { (link : HelperLink) → IsSound link → IsSound (lost link) }
{}

/// No number of an ask is given twice, whatever is called in between, the loss of the helper among
/// it.
pub fn ask_numbers_never_begin_again()
    ensures { (calls : List Call) (link : HelperLink) → RiseFrom link.last (numbers_of calls link) }
{}

/// The ask that is put is found by its number, which no ask had before, and so are the others.
pub fn an_ask_has_a_number_of_its_own()
    ensures above { (number : ℕ) (link : HelperLink) → IsSound link → link.last < number
        → find_ask number link.asks ≡ None }
    ensures submitted { (number : ℕ) (kind : AKind) (asker : ℕ) (blob : List ℕ)
        (request : ℕ → ToChildMessage) (now : ℕ) (link : HelperLink) → IsSound link
        → find_ask number (submitted kind asker blob request now link).asks
        ≡ (if link.last + 1 == number then Some (ask_of (link.last + 1) asker kind blob now
        (length (to_child_body (request (link.last + 1)))))
        else find_ask number link.asks) }
{}

/// The oldest of the asks is one of them, and none was put before it.
pub fn the_oldest_ask_is_the_longest_unanswered()
    ensures none { (asks : List AnAsk) → oldest asks ≡ None → asks ≡ [] }
    ensures there { (second : ℕ) (asks : List AnAsk) → oldest asks ≡ Some second
        → IsSome (find_by second_of second asks) }
    ensures least { (second : ℕ) (asks : List AnAsk) → oldest asks ≡ Some second
        → All (λ ask. second ≤ ask.put_at) asks }
{}

/// Each answer goes to the asker of the unanswered ask of its number and is of its kind. That ask
/// is unanswered no more, and all others are left.
pub fn answers_go_to_who_asked()
    ensures askers { (piece : List ℕ) (link : HelperLink)
        → LeadTo (telling piece link).settled link.asks (telling piece link).link.asks }
    ensures others { (number : ℕ) (piece : List ℕ) (link : HelperLink) → IsSound link
        → find_ask number (telling piece link).link.asks
        ≡ (if is_answered number (telling piece link).settled then None
        else find_ask number link.asks) }
{}

/// What was put by a second was put by it whatever is called. So each second that is no earlier than
/// those handed in before may be handed in.
pub fn no_ask_was_put_after_the_last_second()
    ensures first { (now : ℕ) → ArePutBy now no_link.asks }
    ensures later { (now later : ℕ) (asks : List AnAsk) → now ≤ later
        → ArePutBy now asks → ArePutBy later asks }
    ensures submitted { (kind : AKind) (asker : ℕ) (blob : List ℕ) (request : ℕ → ToChildMessage) (now : ℕ)
        (link : HelperLink) → ArePutBy now link.asks
        → ArePutBy now (submitted kind asker blob request now link).asks }
    ensures told { (now : ℕ) (piece : List ℕ) (link : HelperLink)
        → ArePutBy now link.asks → ArePutBy now (telling piece link).link.asks }
    ensures lost { (now : ℕ) (link : HelperLink) → ArePutBy now (lost link).asks }
{}
