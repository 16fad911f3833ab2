//! Whole runs, whose deeds are written out by hand.
use crate::fixtures::{
    ALIKE, BIND, BOTH, LIST, REMOVE_ALL, SIGN_COMMIT, SIGN_FIRST, SIGN_LOGIN, SIGN_SECOND, SIGNED,
};
use crate::play::{PLAIN, Run, plays, sends};
use filter_top::{FilterStatus, PurposeFault, Side};
use pair_script::PairCue;
use plain_lists::Bytes;
use std::alloc::Global;
use std::test::*;

/// A request for the list arrives upstream.
const ASKED: &str = "connect 1\n1 upstream 000000010b\n";

/// And the client is told of the first key alone.
const ANSWERED: &str = "connect 1\n1 upstream 000000010b\n\
    1 client 000000500c00000001\
    00000040000000186b657965642d736861323536406578616d706c652e636f6d\
    000000201111111111111111111111111111111111111111111111111111111111111111000000036f6e65\n";

// A client connects and asks for the list of keys, and the agent behind tells of both.
fn a_list(alloc: Global) -> Result<Vec<Vec<PairCue>>, Fail> {
    let asked = sends(alloc, 1, Side::Client, LIST)?;
    let answered = sends(alloc, 1, Side::Upstream, BOTH)?;
    Ok(vec![in alloc;
        vec![in alloc; PairCue::Connect]?,
        vec![in alloc; asked]?,
        vec![in alloc; answered]?,
    ]?)
}

#[test]
fn a_list_is_cut_to_the_listed_keys(rt: HostRuntime) -> Result<(), Fail> {
    let alloc = rt.alloc();
    let run = Run {
        words: PLAIN,
        failing: 0,
        status: FilterStatus::Done,
        deeds: ANSWERED,
        label: "a list",
    };
    plays(&rt, alloc, a_list(alloc)?, &run);
    Ok(())
}

/// And the client is told of the two listed ones among three keys that differ in the middle of their tags alone.
const ANSWERED_ALIKE: &str = "connect 1\n1 upstream 000000010b\n\
    1 client 0000009b0c0000000200000040000000186b657965642d736861323536406578616d706c652e636f6d000000\
    2011333333333333333333333333333333333333333333333333333333333333110000000374776f00000040\
    000000186b657965642d736861323536406578616d706c652e636f6d00000020111111111111111111111111\
    1111111111111111111111111111111111111111000000036f6e65\n";

#[test]
fn keys_that_are_alike_are_told_apart(rt: HostRuntime) -> Result<(), Fail> {
    let alloc = rt.alloc();
    let run = Run {
        words: PLAIN,
        failing: 0,
        status: FilterStatus::Done,
        deeds: ANSWERED_ALIKE,
        label: "keys that are alike",
    };
    let asked = sends(alloc, 1, Side::Client, LIST)?;
    let answered = sends(alloc, 1, Side::Upstream, ALIKE)?;
    let turns = vec![in alloc;
        vec![in alloc; PairCue::Connect]?,
        vec![in alloc; asked]?,
        vec![in alloc; answered]?,
    ]?;
    plays(&rt, alloc, turns, &run);
    Ok(())
}

// The calls of the first run are a bind, a wait, an accept, a read and an accept that find nothing; a wait, the read of the
// request, the connect, a read that finds nothing, the write of the request; a wait, the read of the answer, its write,
// a read that finds nothing; and the last wait.
#[test]
fn each_failing_call_has_its_end(rt: HostRuntime) -> Result<(), Fail> {
    let alloc = rt.alloc();
    let connected_twice = format!(in alloc; "connect 1\npart 1\n{}", ANSWERED)?;
    let given_back = format!(in alloc; "{}part 1\n", ANSWERED)?;
    let cases = [
        (1, FilterStatus::BindFault, ""),
        (2, FilterStatus::PollFault, ""),
        (3, FilterStatus::Done, ""),
        (4, FilterStatus::Done, "close 1\n"),
        (5, FilterStatus::Done, ANSWERED),
        (6, FilterStatus::PollFault, ""),
        (7, FilterStatus::Done, "close 1\n"),
        (8, FilterStatus::Done, "close 1\n"),
        (9, FilterStatus::Done, "connect 1\nclose 1\n"),
        (10, FilterStatus::Done, connected_twice.as_str()),
        (11, FilterStatus::PollFault, ASKED),
        (
            12,
            FilterStatus::Done,
            "connect 1\n1 upstream 000000010b\nclose 1\n",
        ),
        (
            13,
            FilterStatus::Done,
            "connect 1\n1 upstream 000000010b\nclose 1\n",
        ),
        (14, FilterStatus::Done, given_back.as_str()),
        (15, FilterStatus::PollFault, ANSWERED),
    ];
    for (failing, status, deeds) in cases {
        let run = Run {
            words: PLAIN,
            failing,
            status,
            deeds,
            label: "a failing call",
        };
        plays(&rt, alloc, a_list(alloc)?, &run);
    }
    Ok(())
}

// The first pair's client takes so many bytes more.
fn room(count: u32) -> PairCue {
    PairCue::Room {
        pair: 1,
        side: Side::Client,
        count,
    }
}

// The client takes nothing at first, then one reply, and then the other.
#[test]
fn other_keys_are_refused_and_nothing_overtakes(rt: HostRuntime) -> Result<(), Fail> {
    let alloc = rt.alloc();
    let mut three = hex::decode(alloc, SIGN_SECOND)?;
    three.extend_from_slice(&hex::decode(alloc, REMOVE_ALL)?)?;
    three.extend_from_slice(&hex::decode(alloc, SIGN_FIRST)?)?;
    let asked = PairCue::Send {
        pair: 1,
        side: Side::Client,
        bytes: Bytes::from_vec(three),
    };
    let answered = sends(alloc, 1, Side::Upstream, SIGNED)?;
    let turns = vec![in alloc;
        vec![in alloc; PairCue::Connect, room(0)]?,
        vec![in alloc; asked]?,
        vec![in alloc; room(5)]?,
        vec![in alloc; room(5)]?,
        vec![in alloc; room(100), answered]?,
    ]?;
    let run = Run {
        words: PLAIN,
        failing: 0,
        status: FilterStatus::Done,
        deeds: "1 client 0000000105\n1 client 0000000105\nconnect 1\n\
            1 upstream 000000500d00000040000000186b657965642d736861323536406578616d706c652e636f6d\
            0000002011111111111111111111111111111111111111111111111111111111111111110000000361626300000000\n\
            1 client 000000070e000000027367\n",
        label: "three requests in a piece",
    };
    plays(&rt, alloc, turns, &run);
    Ok(())
}

#[test]
fn a_pair_is_closed_where_its_agent_leaves(rt: HostRuntime) -> Result<(), Fail> {
    let alloc = rt.alloc();
    let asked = sends(alloc, 1, Side::Client, SIGN_FIRST)?;
    let ends = PairCue::Shut {
        pair: 1,
        side: Side::Upstream,
    };
    let turns = vec![in alloc;
        vec![in alloc; PairCue::Connect]?,
        vec![in alloc; asked]?,
        vec![in alloc; ends]?,
    ]?;
    let run = Run {
        words: PLAIN,
        failing: 0,
        status: FilterStatus::Done,
        deeds: "connect 1\n1 upstream 000000500d00000040000000186b657965642d736861323536406578616d706c652e636f6d\
            0000002011111111111111111111111111111111111111111111111111111111111111110000000361626300000000\n\
            close 1\n",
        label: "an agent that leaves",
    };
    plays(&rt, alloc, turns, &run);
    Ok(())
}

// The agent behind ends, is there again, and the client asks once more.
#[test]
fn a_connection_that_ends_idle_is_made_anew(rt: HostRuntime) -> Result<(), Fail> {
    let alloc = rt.alloc();
    let mut turns = a_list(alloc)?;
    let ends = PairCue::Shut {
        pair: 1,
        side: Side::Upstream,
    };
    turns.push(vec![in alloc; ends]?)?;
    turns.push(vec![in alloc; sends(alloc, 1, Side::Client, LIST)?]?)?;
    let deeds = format!(in alloc; "{}part 1\n{}", ANSWERED, ASKED)?;
    let run = Run {
        words: PLAIN,
        failing: 0,
        status: FilterStatus::Done,
        deeds: deeds.as_str(),
        label: "an agent that ends between two requests",
    };
    plays(&rt, alloc, turns, &run);
    Ok(())
}

// The third pair's agent answers first.
#[test]
fn pairs_are_served_in_their_turn(rt: HostRuntime) -> Result<(), Fail> {
    let alloc = rt.alloc();
    let turns = vec![in alloc;
        vec![in alloc; PairCue::Connect, PairCue::Connect, PairCue::Connect]?,
        vec![in alloc;
            sends(alloc, 1, Side::Client, LIST)?,
            sends(alloc, 2, Side::Client, REMOVE_ALL)?,
            sends(alloc, 3, Side::Client, SIGN_FIRST)?,
        ]?,
        vec![in alloc;
            sends(alloc, 3, Side::Upstream, SIGNED)?,
            sends(alloc, 1, Side::Upstream, "0000000105")?,
        ]?,
    ]?;
    let run = Run {
        words: PLAIN,
        failing: 0,
        status: FilterStatus::Done,
        deeds: "connect 1\n2 client 0000000105\nconnect 3\n1 upstream 000000010b\n\
            3 upstream 000000500d00000040000000186b657965642d736861323536406578616d706c652e636f6d\
            0000002011111111111111111111111111111111111111111111111111111111111111110000000361626300000000\n\
            3 client 000000070e000000027367\n\
            1 client 0000000105\n",
        label: "three pairs",
    };
    plays(&rt, alloc, turns, &run);
    Ok(())
}

// The agent of the second pair sends more than was asked for, and the third one's client a length over the bound.
#[test]
fn a_pair_alone_is_closed(rt: HostRuntime) -> Result<(), Fail> {
    let alloc = rt.alloc();
    let turns = vec![in alloc;
        vec![in alloc; PairCue::Connect, PairCue::Connect, PairCue::Connect]?,
        vec![in alloc;
            sends(alloc, 2, Side::Client, LIST)?,
            sends(alloc, 3, Side::Client, "00040001")?,
            sends(alloc, 1, Side::Client, REMOVE_ALL)?,
        ]?,
        vec![in alloc; sends(alloc, 2, Side::Upstream, "000000010500")?]?,
    ]?;
    let run = Run {
        words: PLAIN,
        failing: 0,
        status: FilterStatus::Done,
        deeds: "connect 2\nclose 3\n1 client 0000000105\n2 upstream 000000010b\nclose 2\n",
        label: "two that break the rules",
    };
    plays(&rt, alloc, turns, &run);
    Ok(())
}

// The agent behind of the first pair takes so many bytes more, and a connection while it takes any.
fn place(count: u32) -> PairCue {
    PairCue::Room {
        pair: 1,
        side: Side::Upstream,
        count,
    }
}

// The agent behind has no place at first, and refuses the bind.
#[test]
fn who_finds_no_place_waits_and_who_is_bound_stays(rt: HostRuntime) -> Result<(), Fail> {
    let alloc = rt.alloc();
    let turns = vec![in alloc;
        vec![in alloc; PairCue::Connect, place(0)]?,
        vec![in alloc; sends(alloc, 1, Side::Client, BIND)?]?,
        vec![in alloc; place(100)]?,
        vec![in alloc; sends(alloc, 1, Side::Upstream, "0000000105")?]?,
        vec![in alloc; sends(alloc, 1, Side::Client, LIST)?]?,
    ]?;
    let run = Run {
        words: PLAIN,
        failing: 0,
        status: FilterStatus::Done,
        deeds: "connect 1\n1 upstream 0000002b1b0000001873657373696f6e2d62696e64406f70656e7373682e636f6d\
            0000000109000000000000000000\n\
            1 client 0000000105\n1 upstream 000000010b\n",
        label: "a bind that waits",
    };
    plays(&rt, alloc, turns, &run);
    Ok(())
}

// A client asks for this.
fn a_request(alloc: Global, request: &str) -> Result<Vec<Vec<PairCue>>, Fail> {
    let asked = sends(alloc, 1, Side::Client, request)?;
    Ok(vec![in alloc; vec![in alloc; PairCue::Connect]?, vec![in alloc; asked]?]?)
}

// The words of a filter for commits, and for logins.
const FOR_GIT: &[&str] = &["list", "agent.sock", "filter.sock", "sshsig:git"];

const FOR_LOGINS: &[&str] = &["list", "agent.sock", "filter.sock", "login"];

const REFUSED: &str = "1 client 0000000105\n";

#[test]
fn what_is_for_no_purpose_is_refused(rt: HostRuntime) -> Result<(), Fail> {
    let alloc = rt.alloc();
    let cases = [
        (FOR_GIT, SIGN_LOGIN, "a login where it is for commits"),
        (FOR_GIT, SIGN_FIRST, "other data where it is for commits"),
        (FOR_LOGINS, SIGN_COMMIT, "a commit where it is for logins"),
    ];
    for (words, request, label) in cases {
        let run = Run {
            words,
            failing: 0,
            status: FilterStatus::Done,
            deeds: REFUSED,
            label,
        };
        plays(&rt, alloc, a_request(alloc, request)?, &run);
    }
    Ok(())
}

#[test]
fn what_is_for_a_purpose_is_passed_on(rt: HostRuntime) -> Result<(), Fail> {
    let alloc = rt.alloc();
    let cases = [
        (FOR_GIT, SIGN_COMMIT, "a commit"),
        (FOR_LOGINS, SIGN_LOGIN, "a login"),
    ];
    for (words, request, label) in cases {
        let deeds = format!(in alloc; "connect 1\n1 upstream {request}\n")?;
        let run = Run {
            words,
            failing: 0,
            status: FilterStatus::Done,
            deeds: deeds.as_str(),
            label,
        };
        plays(&rt, alloc, a_request(alloc, request)?, &run);
    }
    Ok(())
}

#[test]
fn words_that_are_no_purposes_are_refused(rt: HostRuntime) -> Result<(), Fail> {
    let alloc = rt.alloc();
    let run = Run {
        words: &["list", "agent.sock", "filter.sock", "login", "git"],
        failing: 0,
        status: FilterStatus::BadPurpose {
            fault: PurposeFault::Unknown,
        },
        deeds: "",
        label: "an unknown word",
    };
    plays(&rt, alloc, a_list(alloc)?, &run);
    Ok(())
}
