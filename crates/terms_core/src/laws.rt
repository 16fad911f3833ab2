//! What an addition becomes, by the grammars of agent_msg and constraint_rec.

ghost use Rattle.std.specs.Prelude.{◌≡◌, ℕ, List, ◌∷◌, ◌++◌, All, false};
ghost use Rattle.std.specs.List.{flat_map};
ghost use Rattle.agent_msg.specs.Requests.{Addition, IsConstrainedAddition, IsPlainAddition};
ghost use Rattle.constraint_rec.specs.Constraints.{IsConstraints, IsItem, Item, item_text, with_items};
ghost use Rattle.constraint_rec.specs.declared.terms.Terms.{Terms};
ghost use Rattle.terms_core.specs.Additions.{adds, with_terms};
ghost use Rattle.terms_core.specs.Laws.{AreOnce};

/// An addition becomes one of the same key with the same comment, under its own constraints and the terms behind
/// them, and every other request stays what it is.
pub fn the_same_addition()
    ensures plain { (terms body : List ℕ) (own : Terms) (addition : Addition)
        → IsPlainAddition body addition → IsConstraints terms own
        → IsConstrainedAddition (with_terms terms body) (record addition { terms = own }) }
    ensures constrained { (terms body : List ℕ) (own : List Item) (addition : Addition)
        → (given : IsConstrainedAddition body addition)
        → terms ≡ flat_map item_text own → All IsItem own → AreOnce (given.constrained.items ++ own)
        → IsConstrainedAddition (with_terms terms body)
        (record addition { terms = with_items addition.terms own }) }
    ensures other { (terms fields : List ℕ) (number : ℕ) → adds number ≡ false
        → with_terms terms (number ∷ fields) ≡ number ∷ fields }
{}
