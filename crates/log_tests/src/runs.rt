//! Whole logs, whose lines are written out by hand.
use crate::fixtures::{
    AGREED_LINE, ASKED_LINE, HELPER_LOST_LINE, HELPER_REFUSED_LINE, LEFT_LINE, REFUSED_LINE,
    SIGNED_LINE, WAITING_LINE,
};
use crate::play::{Run, logs, whole};
use log_core::LogStatus;
use std::test::*;

#[test]
fn each_request_is_a_line_with_its_fate(rt: HostRuntime) {
    let alloc = rt.alloc();
    let cases = [
        ("signed", "", LogStatus::Whole, SIGNED_LINE),
        ("helper refused", "", LogStatus::Whole, HELPER_REFUSED_LINE),
        ("helper lost", "", LogStatus::Whole, HELPER_LOST_LINE),
        ("both at once", "", LogStatus::Whole, HELPER_LOST_LINE),
        (
            "lost before it is taken",
            "",
            LogStatus::Whole,
            HELPER_LOST_LINE,
        ),
        ("waiting", "", LogStatus::Whole, WAITING_LINE),
        ("left", "", LogStatus::Whole, LEFT_LINE),
        ("later", "5", LogStatus::Whole, REFUSED_LINE),
        ("later", "6", LogStatus::Whole, WAITING_LINE),
        ("later", "0", LogStatus::Whole, WAITING_LINE),
        ("asked", "", LogStatus::Whole, ASKED_LINE),
        ("agreed", "", LogStatus::Whole, AGREED_LINE),
        ("none", "", LogStatus::Whole, ""),
    ];
    for (record, words, status, written) in cases {
        for (piece, cut) in [(1, 1), (7, u32::MAX), (u32::MAX, 7)] {
            let run = Run {
                piece,
                cut,
                ..whole(record, words)
            };
            logs(&rt, alloc, &run, status, written, record);
        }
    }
}

#[test]
fn a_cut_line_waits_and_a_bad_one_is_named(rt: HostRuntime) {
    let alloc = rt.alloc();
    let cases = [
        ("cut", LogStatus::Waits, SIGNED_LINE),
        ("begun", LogStatus::Waits, ""),
        ("bad", LogStatus::BadRecord { line: 3 }, ""),
    ];
    for (record, status, written) in cases {
        logs(&rt, alloc, &whole(record, ""), status, written, record);
    }
}

#[test]
fn other_words_are_refused(rt: HostRuntime) {
    let alloc = rt.alloc();
    for words in ["1y", "x", "5 5", "5 x"] {
        logs(
            &rt,
            alloc,
            &whole("signed", words),
            LogStatus::Usage,
            "",
            words,
        );
    }
}

#[test]
fn reads_and_writes_that_fail_end_it(rt: HostRuntime) {
    let alloc = rt.alloc();
    // A record is one read, and its end another.
    let cases = [
        ("signed", 1, 0, LogStatus::ReadFault, ""),
        ("signed", 2, 0, LogStatus::ReadFault, SIGNED_LINE),
        ("waiting", 2, 0, LogStatus::ReadFault, ""),
        ("signed", 3, 0, LogStatus::Whole, SIGNED_LINE),
        ("signed", 0, 1, LogStatus::WriteFault, ""),
        ("waiting", 0, 1, LogStatus::WriteFault, ""),
        ("cut", 0, 1, LogStatus::WriteFault, ""),
        ("none", 0, 1, LogStatus::Whole, ""),
        ("signed", 0, 2, LogStatus::Whole, SIGNED_LINE),
    ];
    for (record, failing_read, failing_write, status, written) in cases {
        let run = Run {
            failing_read,
            failing_write,
            ..whole(record, "")
        };
        logs(&rt, alloc, &run, status, written, record);
    }
}
