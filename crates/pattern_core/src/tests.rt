//! Answers of OpenSSH's own tests, and the search beside the cases as they stand.

use super::*;

// The four cases of a match, tried one after the other.
fn matches_by_cases(text: &[u8], pattern: &[u8]) -> bool {
    let Some((wanted, after)) = pattern.split_first() else {
        return text.is_empty();
    };
    if *wanted == b'*' && matches_by_cases(text, after) {
        return true;
    }
    let Some((byte, rest)) = text.split_first() else {
        return false;
    };
    if *wanted == b'*' {
        return matches_by_cases(rest, pattern);
    }
    (*wanted == b'?' || wanted == byte) && matches_by_cases(rest, after)
}

// The word of that number over four letters, in its first `len` places.
fn word(number: usize, len: usize) -> [u8; 3] {
    let letters = [b'a', b'b', b'*', b'?'];
    let mut word = [0; 3];
    let mut left = number;
    for place in 0..3 {
        if place < len {
            word[place] = letters[left % 4];
            left /= 4;
        }
    }
    word
}

// OpenSSH 9.2p1, regress/unittests/match/tests.c, "match_pattern" and "match_pattern wildcard".
#[test]
fn patterns_match_as_in_openssh(rt: HostRuntime) {
    let cases = [
        ("", "", true),
        ("", "aaa", false),
        ("aaa", "", false),
        ("aaa", "aaaa", false),
        ("aaaa", "aaa", false),
        ("", "*", true),
        ("a", "?", true),
        ("aa", "a?", true),
        ("aa", "a*", true),
        ("aa", "**", true),
        ("aa", "*a", true),
        ("ba", "a*", false),
        ("ba", "a?", false),
        ("ab", "*a", false),
        ("ab", "?a", false),
    ];
    for (text, pattern, want) in cases {
        assert_eq!(rt;
            matches(text.as_bytes(), pattern.as_bytes()),
            want,
            "{text:?} at {pattern:?}"
        );
    }
}

// The same file, "match_pattern_list": 1 is true there, and 0 and -1 are false.
#[test]
fn lists_match_as_in_openssh(rt: HostRuntime) {
    let cases = [
        ("", "*", true),
        ("", "!*", false),
        ("", "!a,*", true),
        ("", "*,!a", true),
        ("", "a,!*", false),
        ("a", "", false),
        ("a", "!a", false),
        ("a", "!a,*", false),
        ("b", "!a,*", true),
        ("b", "*,!a", true),
    ];
    for (host, patterns, want) in cases {
        assert_eq!(rt;
            list_matches(host.as_bytes(), patterns.as_bytes()),
            want,
            "{host:?} at {patterns:?}"
        );
    }
}

// ssh_config(5), "PATTERNS": the example of a dialup pool, and letters of either case on either side.
#[test]
fn letters_of_both_cases_are_one(rt: HostRuntime) {
    let cases = [
        ("A", "*,!a", false),
        ("a", "*,!A", false),
        (
            "Dialup.example.com",
            "!*.dialup.example.com,*.EXAMPLE.com",
            true,
        ),
        (
            "a.Dialup.example.com",
            "!*.dialup.example.com,*.EXAMPLE.com",
            false,
        ),
    ];
    for (host, patterns, want) in cases {
        assert_eq!(rt;
            list_matches(host.as_bytes(), patterns.as_bytes()),
            want,
            "{host:?} at {patterns:?}"
        );
    }
}

#[test]
fn the_search_answers_as_the_cases_do(rt: HostRuntime) {
    for i in 0..256 {
        let text = word(i / 4, i % 4);
        for k in 0..256 {
            let pattern = word(k / 4, k % 4);
            let (text, pattern) = (&text[..i % 4], &pattern[..k % 4]);
            assert_eq!(rt;
                matches(text, pattern),
                matches_by_cases(text, pattern),
                "{text:?} at {pattern:?}"
            );
        }
    }
}
