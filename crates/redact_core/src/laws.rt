//! What redaction leaves.

ghost use Rattle.redact_core.specs.Blanks.{EachStays, SecretsAreHidden};

/// An addition without its secrets is the addition of the same public key, and as long.
pub fn additions_stay_additions()
    ensures stays { EachStays }
{}

/// Two additions that differ in the contents of private fields alone, of equal lengths, are
/// redacted alike.
pub fn secrets_are_hidden()
    ensures hidden { SecretsAreHidden }
{}
