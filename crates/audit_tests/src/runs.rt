//! Whole audits, whose reports are written out by hand.
use crate::fixtures::{LATER_REPORT, REPORT};
use crate::play::{Run, reports, whole};
use audit_core::AuditStatus;
use std::test::*;

#[test]
fn what_was_asked_for_is_listed(rt: HostRuntime) {
    let alloc = rt.alloc();
    let cases = [
        ("record deeds", AuditStatus::Yes, REPORT),
        ("record asked", AuditStatus::Differs { line: 2 }, "no 2\n"),
        ("record none", AuditStatus::Differs { line: 1 }, "no 1\n"),
        ("bad deeds", AuditStatus::BadRecord { line: 2 }, "bad 2\n"),
        ("bad none", AuditStatus::BadRecord { line: 2 }, "bad 2\n"),
        ("none none", AuditStatus::Differs { line: 1 }, "no 1\n"),
    ];
    for (words, status, written) in cases {
        for cut in [1, 7, u32::MAX] {
            let run = Run {
                cut,
                ..whole(words)
            };
            reports(&rt, alloc, &run, status, written, words);
        }
    }
}

#[test]
fn a_lifetime_is_that_of_the_words(rt: HostRuntime) {
    let alloc = rt.alloc();
    let cases = [
        ("later deeds", AuditStatus::Yes, LATER_REPORT),
        ("later deeds 0", AuditStatus::Yes, LATER_REPORT),
        ("later deeds 6", AuditStatus::Yes, LATER_REPORT),
        ("later deeds 1m", AuditStatus::Yes, LATER_REPORT),
        ("later over 5", AuditStatus::Yes, "yes 0\n"),
        ("later over 2s3", AuditStatus::Yes, "yes 0\n"),
        ("later deeds 5", AuditStatus::Differs { line: 2 }, "no 2\n"),
        ("later over", AuditStatus::Differs { line: 2 }, "no 2\n"),
    ];
    for (words, status, written) in cases {
        reports(&rt, alloc, &whole(words), status, written, words);
    }
}

#[test]
fn other_words_are_refused(rt: HostRuntime) {
    let alloc = rt.alloc();
    for words in [
        "",
        "record",
        "record deeds 1y",
        "record deeds x",
        "missing missing 5 5",
    ] {
        reports(&rt, alloc, &whole(words), AuditStatus::Usage, "", words);
    }
}

#[test]
fn a_file_that_fails_ends_it(rt: HostRuntime) {
    let alloc = rt.alloc();
    let cases = [
        ("record deeds", 1, AuditStatus::FileFault, ""),
        ("record deeds", 2, AuditStatus::FileFault, ""),
        ("record deeds", 3, AuditStatus::Yes, REPORT),
        ("missing deeds", 0, AuditStatus::FileFault, ""),
        ("bad missing", 0, AuditStatus::FileFault, ""),
    ];
    for (words, failing_file, status, written) in cases {
        let run = Run {
            failing_file,
            ..whole(words)
        };
        reports(&rt, alloc, &run, status, written, words);
    }
}

#[test]
fn a_report_stops_where_the_sink_failed(rt: HostRuntime) {
    let alloc = rt.alloc();
    let cases = [
        ("record deeds", 1, AuditStatus::WriteFault, ""),
        ("record asked", 1, AuditStatus::WriteFault, ""),
        ("bad deeds", 1, AuditStatus::WriteFault, ""),
        (
            "record asked",
            2,
            AuditStatus::Differs { line: 2 },
            "no 2\n",
        ),
        ("record deeds", 3, AuditStatus::Yes, REPORT),
        ("later over 5", 1, AuditStatus::WriteFault, ""),
    ];
    for (words, failing_write, status, written) in cases {
        let run = Run {
            failing_write,
            ..whole(words)
        };
        reports(&rt, alloc, &run, status, written, words);
    }
    // The line of the signature is written, and the total isn't.
    let run = Run {
        failing_write: 2,
        ..whole("record deeds")
    };
    let line = REPORT.strip_suffix("yes 1\n").expect(&rt, "a total");
    reports(&rt, alloc, &run, AuditStatus::WriteFault, line, "the total");
}
