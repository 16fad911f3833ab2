//! What constraints are, in other words than those by which they are made.

ghost use Rattle.std.specs.Prelude.{◌≡◌, ℕ, List, Ok};
ghost use Rattle.constraint_rec.specs.declared.constraint.Constraint.{Constraint};
ghost use Rattle.add_rules.specs.Rules.{rules_of};
ghost use Rattle.add_rules.specs.Typed.{AreAskedBy};

/// Each word has one constraint, in the words' order: its hosts and its user are those that the
/// word spells, each key of a hop is one that some file of known hosts gives for that host, and
/// none that they give is left out.
pub fn constraints_are_those_of_the_words()
    ensures { (files words : List (List ℕ)) (rules : List Constraint)
        → rules_of files words ≡ Ok rules → AreAskedBy files words rules }
{}
