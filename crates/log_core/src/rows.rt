//! Literal rows: laws that are proved by computing.

ghost use Rattle.std.specs.Prelude.{◌≡◌, [], codes};
ghost use Rattle.log_core.specs.Lines.{whole_lines};
ghost use Rattle.log_core.specs.Rows.{cut, whole};

/// A text up to its last LF.
pub fn a_cut_line_waits()
    ensures cut { whole_lines cut ≡ whole }
    ensures whole { whole_lines whole ≡ whole }
    ensures empty { whole_lines [] ≡ [] }
    ensures unended { whole_lines (codes "at 5 0") ≡ [] }
    ensures skipped { whole_lines (codes "\n\nat 5 0") ≡ codes "\n\n" }
{}
