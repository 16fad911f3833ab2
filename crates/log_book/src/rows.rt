//! Literal rows: laws that are proved by computing.
#![tactic(auto, unfolding(wire_text::specs::Frames::front, wire_text::specs::Wire::uint32, wire_text::specs::Wire::string, wire_text::specs::Wire::announced_len, wire_core::specs::Fields::uint32_at, wire_core::specs::Fields::string_len, wire_core::specs::Fields::string_at, agent_msg::specs::Reading::request_of_number, agent_msg::specs::Reading::request_of, core::specs::Fmt::digits, crate::specs::Requests::next_in, crate::specs::Peers::looked, crate::specs::Peers::answered, crate::specs::Peers::ended_by, crate::specs::Books::comment_of, crate::specs::Books::see, crate::specs::Books::see_all, crate::specs::Books::open_in, crate::specs::Shown::quoted, crate::specs::Dates::second_text, crate::specs::Dates::date_of))]

ghost use Rattle.std.specs.Prelude.{◌≡◌, ◌∷◌, [], codes, false, true, None, Some};
ghost use Rattle.log_book.specs.Books.{told_of};
ghost use Rattle.log_book.specs.Dates.{second_text};
ghost use Rattle.log_book.specs.Rows.{asks, at, failure, one, puts, signature};
ghost use Rattle.log_book.specs.Shown.{quoted};
ghost use Rattle.log_book.specs.declared.sight.What.TheVariants as what;
ghost use Rattle.log_book.specs.declared.told.Fate.TheVariants as fate;

/// A request for a signature, by what is seen behind it.
pub fn requests_are_told()
    ensures signed { told_of (asks ∷ puts ∷ at 7 0 (what.Given 1 signature) ∷ [])
        ≡ one 7 false (Some 0) fate.Signed }
    ensures refused { told_of (asks ∷ at 7 0 (what.Given 1 failure) ∷ [])
        ≡ one 7 false None fate.Refused }
    ensures by_helper { told_of (asks ∷ puts ∷ at 7 0 (what.Given 1 failure) ∷ [])
        ≡ one 7 false (Some 0) fate.HelperRefused }
    ensures lost { told_of (asks ∷ puts ∷ at 7 1 (what.Given 1 failure) ∷ [])
        ≡ one 7 false (Some 0) fate.HelperLost }
    ensures left { told_of (asks ∷ at 5 0 (what.Raised 1) ∷ at 9 0 (what.Closed 1) ∷ [])
        ≡ one 9 true None fate.Left }
    ensures waiting { told_of (asks ∷ at 5 0 (what.Raised 1) ∷ puts ∷ [])
        ≡ one 5 true (Some 0) fate.Open }
{}

/// Seconds and their dates, as `date -u` of coreutils prints them.
pub fn seconds_are_dates()
    ensures first { second_text 0 ≡ codes "1970-01-01T00:00:00Z" }
    ensures leap { second_text 951868799 ≡ codes "2000-02-29T23:59:59Z" }
    ensures march { second_text 951868800 ≡ codes "2000-03-01T00:00:00Z" }
    ensures no_leap { second_text 4107542399 ≡ codes "2100-02-28T23:59:59Z" }
    ensures year { second_text 1735689599 ≡ codes "2024-12-31T23:59:59Z" }
    ensures now { second_text 1796000587 ≡ codes "2026-11-30T01:03:07Z" }
    ensures last { second_text 253402300799 ≡ codes "9999-12-31T23:59:59Z" }
{}

/// Nothing of a text leaves its line, moves a terminal's cursor, or ends the quotation.
pub fn what_is_shown_is_plain()
    ensures plain { quoted (codes "me@laptop") ≡ codes "\"me@laptop\"" }
    ensures hidden { quoted (codes "a\"b\nc") ≡ codes "\"a?b?c\"" }
{}
