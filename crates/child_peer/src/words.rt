//! The words that a child process is started with: SOCKET JOB TICKET, and perhaps one more.

ghost use Rattle.std.specs.Prelude.{◌≡◌, map, string_bytes, option_map};
ghost use Rattle.child_peer.specs.Words.{is_shortest, job_of, plain_words, ticket_of, words_of, words_with};

use hex::FromHex;

/// SOCKET JOB TICKET, and one word more where there is one. The socket's path is `main`'s matter.
///
/// Has no `Debug`, since it holds a one-time ticket.
#[derive(Clone, Copy)]
pub struct Words<'a> {
    pub job: u64,
    pub ticket: [u8; 16],
    pub last: Option<&'a str>,
}

/// Reads the words behind the program's name: `None` where they are no such words.
pub fn read_words<'a>(words: &'a [String]) -> Option<Words<'a>>
    ensures { option_map plain_words result ≡ words_of (map string_bytes words.entry.now) }
{
    match words.len() {
        3 => told(words[1].as_str(), words[2].as_str(), None),
        4 => told(
            words[1].as_str(),
            words[2].as_str(),
            Some(words[3].as_str()),
        ),
        _ => None,
    }
}

fn told<'a>(job: &str, ticket: &str, last: Option<&'a str>) -> Option<Words<'a>>
    ensures { option_map plain_words result ≡ words_with
        (job_of job.now) (ticket_of ticket.now) (option_map (λ word. word.now) last.entry) }
{
    Some(Words {
        job: read_job(job)?,
        ticket: read_ticket(ticket)?,
        last,
    })
}

fn read_job(word: &str) -> Option<u64>
    ensures { result ≡ job_of word.now }
{
    let digits = word.as_bytes();
    // `parse` would take a sign.
    if !is_shortest(digits) || digits[0] == b'+' {
        return None;
    }
    word.parse().ok()
}

fn is_shortest(digits: &[u8]) -> bool
    ensures { result ≡ is_shortest digits.now }
{
    !matches!(digits, [] | [b'0', _, ..])
}

fn read_ticket(word: &str) -> Option<[u8; 16]>
    ensures { result ≡ ticket_of word.now }
{
    <[u8; 16] as FromHex>::from_hex(word).ok()
}
