//! Whether an askpass program's exit status and output mean that the user consents.

ghost use Rattle.std.specs.Prelude.{◌≡◌, ◌≤◌, length, take};
ghost use Rattle.relay_core.specs.Verdicts.{first_line, is_consent, verdict_of};

/// Whether the user consents: the exit status is 0, and what was written up to the first CR or LF is
/// empty or `yes`, in any ASCII case.
pub fn verdict(status: i32, output: &[u8]) -> bool
    ensures { result ≡ verdict_of status output.now }
{
    if status != 0 {
        return false;
    }
    is_consent(first_of(output))
}

fn is_consent(word: &[u8]) -> bool
    ensures { result ≡ is_consent word.now }
{
    word.is_empty() || word.eq_ignore_ascii_case(b"yes")
}

// The output up to its first CR or LF.
fn first_of(output: &[u8]) -> &[u8]
    ensures { result.now ≡ first_line output.now }
{
    for (place, byte) in output.iter().enumerate() {
        if *byte == b'\r' || *byte == b'\n' {
            return &output[..place];
        }
    }
    output
}
