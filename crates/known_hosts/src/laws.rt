//! Laws of known hosts, beside the reader.

ghost use Rattle.std.specs.Prelude.{◌≡◌, ◌≢◌, ◌↔◌, ◌++◌, ◌∷◌, List, ℕ, [], Some, None, false, codes};
ghost use Rattle.std.specs.Option.{option_to_list};
ghost use Rattle.wire_text.specs.Wire.{IsBytes};
ghost use Rattle.constraint_rec.specs.declared.key_spec.KeySpec.{KeySpec};
ghost use Rattle.known_hosts.specs.Parts.{IsLine, fields_of};
ghost use Rattle.known_hosts.specs.Entries.{Entry, IsEntry};
ghost use Rattle.known_hosts.specs.Hosts.{TakesIn};
ghost use Rattle.known_hosts.specs.HostKeys.{IsLineKey, without_return, line_key, host_keys_of};

/// What the reading of a line gives is its key for the host, and each such is given.
pub fn a_line_has_its_key()
    ensures { (host line : List ℕ) (key : KeySpec) → IsBytes line
        → (line_key host line ≡ Some key) ↔ IsLineKey host line key }
{}

/// The keys are those of the lines, in their order.
pub fn keys_stand_in_the_order_of_lines()
    ensures { (host line rest : List ℕ) → IsLine line → host_keys_of (line ++ 10 ∷ rest) host
        ≡ option_to_list (line_key host (without_return line)) ++ host_keys_of rest host }
{}

/// A line of other hosts adds no key.
pub fn a_line_of_other_hosts_adds_nothing()
    ensures { (host line : List ℕ) (entry : Entry) → IsBytes line → IsEntry line entry
        → (TakesIn entry.hosts host → ⊥) → line_key host line ≡ None }
{}

/// A revoked line adds no key. It takes away none either: a key that another line has counts.
pub fn a_revoked_line_adds_nothing()
    ensures { (host line : List ℕ) (rest : List (List ℕ))
        → fields_of line ≡ codes "@revoked" ∷ rest → line_key host line ≡ None }
{}

/// Lines may end with LF or with CR LF.
pub fn lines_end_with_lf_or_cr_lf()
    ensures { (host line rest : List ℕ) → IsLine line → without_return line ≡ line
        → host_keys_of (line ++ 13 ∷ 10 ∷ rest) host ≡ host_keys_of (line ++ 10 ∷ rest) host }
{}
