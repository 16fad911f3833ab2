//! What stands of a desk over many calls.

ghost use Rattle.std.specs.Prelude.{◌≡◌, ◌≢◌, ◌^◌, ◌<◌, ◌≤◌, ℕ, All, IsSomeAnd, List, [], Option, None, Some, length};
ghost use Rattle.wire_text.specs.Wire.{IsBytes};
ghost use Rattle.confirm_desk.specs.Calls.{telling, took_at};
ghost use Rattle.confirm_desk.specs.Confirmations.{AreRaisedBy, Confirmation, Held, Yes, consent, find_asker, find_job, find_linked, linked, lose, most_confirmations, oldest, raise, told, took};
ghost use Rattle.confirm_desk.specs.Cuts.{joined, told_in_turn};
ghost use Rattle.confirm_desk.specs.Grants.{StartsWithGrant};
ghost use Rattle.confirm_desk.specs.Lines.{AskAboutThem, HasNoSpace, ReadAlike, line_of, told_of};
ghost use Rattle.confirm_desk.specs.Prompt.{prompt_for};
ghost use Rattle.key_purposes.specs.declared.purpose.Purpose.{Purpose};
ghost use Rattle.confirm_desk.specs.Sound.{IsSound, RiseTo};
ghost use Rattle.confirm_desk.specs.declared.held.Verdict.TheVariants as verdicts;

/// Pieces that are told one after another, up to the decision, tell what they tell as one piece, and leave the desk as
/// it would.
pub fn cuts_of_the_bytes_do_not_matter()
    ensures { (port : ℕ) (piece : List ℕ) (pieces : List (List ℕ)) (desk : List Confirmation) → IsSound desk
        → told_in_turn port piece pieces desk ≡ telling port (joined piece pieces) desk }
{}

/// What holds of the first desk holds after each call that may be made: at most 16 confirmations are waited for, each
/// has a job, a client and a port of its own, no whole frame was heard of it, and none was raised before the one that
/// stands before it.
pub fn desks_stay_sound()
    ensures first { IsSound [] }
    ensures raised { (job : ℕ) (held : Held) (prompt : List ℕ) (now : ℕ) (desk : List Confirmation)
        → length desk < most_confirmations → find_job job desk ≡ None → find_asker held.asker desk ≡ None
        → AreRaisedBy now desk → IsSound desk → IsSound (raise job held prompt now desk) }
    ensures linked { (job port : ℕ) (desk : List Confirmation) → find_linked port desk ≡ None
        → IsSound desk → IsSound (linked job port desk) }
    ensures took { (port count : ℕ) (desk : List Confirmation) → IsSound desk → IsSound (took_at port count desk) }
    ensures told { (port : ℕ) (piece : List ℕ) (desk : List Confirmation)
        → IsSound desk → IsSound (telling port piece desk).desk }
    ensures lost { (job : ℕ) (desk : List Confirmation) → IsSound desk → IsSound (lose job desk) }
{}

/// Where each job that is raised is above the last, the confirmations stand in the order of their jobs.
pub fn confirmations_stay_in_order()
    ensures first { RiseTo 0 [] 0 }
    ensures raised { (job last : ℕ) (held : Held) (prompt : List ℕ) (now : ℕ) (desk : List Confirmation) → last < job
        → RiseTo 0 desk last → RiseTo 0 (raise job held prompt now desk) job }
    ensures linked { (job port last : ℕ) (desk : List Confirmation)
        → RiseTo 0 desk last → RiseTo 0 (linked job port desk) last }
    ensures took { (job count last : ℕ) (desk : List Confirmation)
        → RiseTo 0 desk last → RiseTo 0 (took job count desk) last }
    ensures told { (job last : ℕ) (piece : List ℕ) (desk : List Confirmation)
        → RiseTo 0 desk last → RiseTo 0 (told job piece desk) last }
    ensures lost { (job last : ℕ) (desk : List Confirmation) → RiseTo 0 desk last → RiseTo 0 (lose job desk) last }
{}

/// What was decided is over: its job names no confirmation any more, nothing is owed at its port, and all others are
/// left. So no second answer is taken.
pub fn a_decision_is_taken_once()
    ensures job { (port : ℕ) (piece : List ℕ) (desk : List Confirmation) (one : Confirmation) → IsSound desk
        → find_linked port desk ≡ Some one → (telling port piece desk).verdict ≢ verdicts.NotYet
        → find_job one.job (telling port piece desk).desk ≡ None }
    ensures port { (port : ℕ) (piece : List ℕ) (desk : List Confirmation) (one : Confirmation) → IsSound desk
        → find_linked port desk ≡ Some one → (telling port piece desk).verdict ≢ verdicts.NotYet
        → find_linked port (telling port piece desk).desk ≡ None }
    ensures others { (port other : ℕ) (piece : List ℕ) (desk : List Confirmation) (one : Confirmation)
        → find_linked port desk ≡ Some one → (telling port piece desk).verdict ≢ verdicts.NotYet → other ≢ one.job
        → find_job other (telling port piece desk).desk ≡ find_job other desk }
{}

/// The oldest confirmation is there, and none was raised before it.
pub fn the_oldest_confirmation_is_the_longest_open()
    ensures none { (desk : List Confirmation) → oldest desk ≡ None → desk ≡ [] }
    ensures there { (job second : ℕ) (desk : List Confirmation) → IsSound desk → oldest desk ≡ Some (job, second)
        → IsSomeAnd (find_job job desk) (λ one. one.raised_at ≡ second) }
    ensures least { (job second : ℕ) (desk : List Confirmation) → oldest desk ≡ Some (job, second)
        → All (λ one. second ≤ one.raised_at) desk }
{}

/// The user says yes exactly where the bytes begin with the frame of GRANTED for the job itself.
pub fn a_yes_is_the_grant_of_the_job()
    ensures yes { (job : ℕ) (heard : List ℕ) → IsBytes heard → consent job heard ≡ Yes → StartsWithGrant job heard }
    ensures grant { (job : ℕ) (heard : List ℕ) → job < 2 ^ 64 → StartsWithGrant job heard → consent job heard ≡ Yes }
{}

/// What was raised by a second was raised by it whatever is called. So each second that is no earlier than those handed in
/// before may be handed in.
pub fn none_was_raised_after_the_last_second()
    ensures first { (now : ℕ) → AreRaisedBy now [] }
    ensures later { (now later : ℕ) (desk : List Confirmation) → now ≤ later
        → AreRaisedBy now desk → AreRaisedBy later desk }
    ensures raised { (job : ℕ) (held : Held) (prompt : List ℕ) (now : ℕ) (desk : List Confirmation)
        → AreRaisedBy now desk → AreRaisedBy now (raise job held prompt now desk) }
    ensures linked { (now job port : ℕ) (desk : List Confirmation)
        → AreRaisedBy now desk → AreRaisedBy now (linked job port desk) }
    ensures took { (now port count : ℕ) (desk : List Confirmation)
        → AreRaisedBy now desk → AreRaisedBy now (took_at port count desk) }
    ensures told { (now port : ℕ) (piece : List ℕ) (desk : List Confirmation)
        → AreRaisedBy now desk → AreRaisedBy now (telling port piece desk).desk }
    ensures lost { (now job : ℕ) (desk : List Confirmation) → AreRaisedBy now desk → AreRaisedBy now (lose job desk) }
{}

/// Two messages with one third line are of one kind: logins of users, files in namespaces that are shown alike, or
/// certificates, what may be logins, or other data, of one length.
///
/// Of logins to one host, or to none that is known, the users are shown alike, and of logins to hosts whose names have
/// no space the hosts too. A user with ` to ` in its name may read as one and a host.
pub fn a_third_line_tells_what_is_signed()
    ensures same_host { (host : Option (List ℕ)) (message blob other other_blob : List ℕ)
        → length message < 2 ^ 64 → length other < 2 ^ 64
        → line_of host message blob ≡ line_of host other other_blob
        → told_of host message blob ≡ told_of host other other_blob }
    ensures hosts { (host other_host message blob other other_blob : List ℕ)
        → length message < 2 ^ 64 → length other < 2 ^ 64 → HasNoSpace host → HasNoSpace other_host
        → line_of (Some host) message blob ≡ line_of (Some other_host) other other_blob
        → told_of (Some host) message blob ≡ told_of (Some other_host) other other_blob }
    ensures alike { (host other_host : Option (List ℕ)) (message blob other other_blob : List ℕ)
        → length message < 2 ^ 64 → length other < 2 ^ 64
        → line_of host message blob ≡ line_of other_host other other_blob
        → ReadAlike (told_of host message blob) (told_of other_host other other_blob) }
{}

/// A question has 512 bytes at most.
pub fn questions_are_short()
    ensures { (comment blob : List ℕ) (purposes : List Purpose) (host : Option (List ℕ)) (message : List ℕ)
        → length message < 2 ^ 64 → length (prompt_for comment blob purposes host message) ≤ 512 }
{}

/// What a child process is asked is about the very message that is held for the consent: so it is of each question that
/// is raised for that message, whatever is called then.
pub fn questions_are_about_what_is_held()
    ensures first { AskAboutThem [] }
    ensures raised { (job : ℕ) (held : Held) (comment blob : List ℕ) (purposes : List Purpose)
        (host : Option (List ℕ)) (now : ℕ) (desk : List Confirmation) → AskAboutThem desk
        → AskAboutThem (raise job held (prompt_for comment blob purposes host held.message) now desk) }
    ensures linked { (job port : ℕ) (desk : List Confirmation) → AskAboutThem desk → AskAboutThem (linked job port desk) }
    ensures took { (port count : ℕ) (desk : List Confirmation) → AskAboutThem desk → AskAboutThem (took_at port count desk) }
    ensures told { (port : ℕ) (piece : List ℕ) (desk : List Confirmation) → AskAboutThem desk
        → AskAboutThem (telling port piece desk).desk }
    ensures lost { (job : ℕ) (desk : List Confirmation) → AskAboutThem desk → AskAboutThem (lose job desk) }
{}
