//! What stands of a table over many calls.

ghost use Rattle.std.specs.Prelude.{◌≡◌, ◌+◌, ◌≤◌, ◌==◌, ℕ, suc, false, List, None, Some, IfSome, length};
ghost use Rattle.std.specs.List.{sum_by};
ghost use Rattle.constraint_rec.specs.declared.terms.Terms.{Terms};
ghost use Rattle.key_blob.specs.declared.added.AddedKey.{AddedKey};
ghost use Rattle.identity_table.specs.Identities.{HeldKey, IsSound, TableState, added, entry_len, find_identity, find_number, longest_private, max_answer, spend_identity};
ghost use Rattle.identity_table.specs.Tables.{Call, RiseFrom, add_fault, emptied, expired, numbers_of, spent, spent_often, without};

/// No number of an addition is given twice, whatever is called in between, removals of all
/// identities among it.
pub fn addition_numbers_never_begin_again()
    ensures { (calls : List Call) (table : TableState)
        → RiseFrom table.last (numbers_of calls table) }
{}

/// Whatever is called, no two identities have one blob or one number, none has a number above the
/// last, one message of at most 262144 bytes lists them all, and no private string is longer than
/// that.
pub fn tables_stay_sound()
    ensures added { (table : TableState) (key : AddedKey) (terms : Terms) (comment : List ℕ)
        (now : ℕ) → add_fault table key terms comment now ≡ None
        → length key.private ≤ longest_private → IfSome terms.uses (λ uses. 1 ≤ uses)
        → IsSound table.identities table.last → IsSound (added table key terms comment now).identities (table.last + 1) }
    ensures without { (blob : List ℕ) (table : TableState) → IsSound table.identities table.last
        → IsSound (without blob table).identities table.last }
    ensures emptied { (table : TableState) → IsSound (emptied table).identities table.last }
    ensures spent { (addition : ℕ) (table : TableState) → IsSound table.identities table.last
        → IsSound (spent addition table).identities table.last }
    ensures expired { (second : ℕ) (table : TableState) → IsSound table.identities table.last
        → IsSound (expired second table).identities table.last }
{}

/// An identity with a number of uses is held under its addition's number while fewer uses of it were
/// made, with those left that weren't, and gone once so many were. Uses of another one don't count.
pub fn an_identity_is_used_up()
    ensures left { (times uses number last : ℕ) (keys : List HeldKey) (key : HeldKey)
        → IsSound keys last → find_number number keys ≡ Some key
        → key.uses ≡ Some (suc (times + uses))
        → find_number number (spent_often times number keys)
        ≡ Some (record key { uses = Some (suc uses) }) }
    ensures gone { (uses number last : ℕ) (keys : List HeldKey) (key : HeldKey)
        → IsSound keys last → find_number number keys ≡ Some key → key.uses ≡ Some (suc uses)
        → find_number number (spent_often (suc uses) number keys) ≡ None }
    ensures unlimited { (number last : ℕ) (keys : List HeldKey) (key : HeldKey)
        → IsSound keys last → find_number number keys ≡ Some key → key.uses ≡ None
        → find_number number (spend_identity number keys) ≡ Some key }
    ensures others { (number other : ℕ) (keys : List HeldKey) → (number == other) ≡ false
        → find_number other (spend_identity number keys) ≡ find_number other keys }
{}

/// What a blob finds its addition's number finds, and the other way round.
pub fn blob_and_number_find_the_same()
    ensures number { (blob : List ℕ) (last : ℕ) (keys : List HeldKey) (key : HeldKey)
        → IsSound keys last → find_identity blob keys ≡ Some key
        → (key.number ≤ last) × (find_number key.number keys ≡ Some key) }
    ensures blob { (number last : ℕ) (keys : List HeldKey) (key : HeldKey)
        → IsSound keys last → find_number number keys ≡ Some key
        → find_identity key.blob keys ≡ Some key }
{}

/// A key that is held has a blob and a comment that an answer of 262144 bytes lists, and a private
/// string that is no longer.
pub fn what_is_held_is_short()
    ensures { (blob : List ℕ) (last : ℕ) (keys : List HeldKey) (key : HeldKey)
        → IsSound keys last → find_identity blob keys ≡ Some key
        → (entry_len key ≤ max_answer) × (length key.private ≤ longest_private) }
{}

/// All private strings that are held have at most 8 MiB, and at most 65536 constraints are held.
pub fn what_is_held_takes_at_most_8_mib()
    ensures private { (keys : List HeldKey) (last : ℕ) → IsSound keys last
        → sum_by (λ key. length key.private) keys ≤ 8388608 }
    ensures rules { (keys : List HeldKey) (last : ℕ) → IsSound keys last
        → sum_by (λ key. length key.rules) keys ≤ 65536 }
{}
