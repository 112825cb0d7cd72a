use assertions::assert_equal;
use clerk::{MAX_QUERIES, Outcome, QueryState, Round};
use dts_base::{Interval, NoMemory};
use slew_clock::{GREATEST_OSC, GREATEST_TIME, Rates};
use std::alloc::Global;

const DEADLINE: u64 = 50_000_000;

const LO: i64 = 4_999_999_000;

const HI: i64 = 5_000_001_000;

// What is told to a round.
#[derive(Clone, Copy)]
enum Told {
    Asked {
        peer: u32,
        osc: u64,
    },
    Answered {
        peer: u32,
        osc: u64,
        lo: i64,
        hi: i64,
    },
    Gone {
        peer: u32,
    },
}

// Tells it where the state of the round allows it, and answers whether it did.
fn tell(round: &mut Round, told: Told) -> bool {
    match told {
        Told::Asked { peer, osc } => {
            let Some(QueryState::Pending) = round.state(peer) else {
                return false;
            };
            round.asked(peer, osc);
        }
        Told::Answered { peer, osc, lo, hi } => {
            let Some(QueryState::Asked { osc: asked }) = round.state(peer) else {
                return false;
            };
            if osc < asked || lo < 0 || hi < lo || hi > GREATEST_TIME {
                return false;
            }
            round.answered(peer, osc, Interval { lo, hi });
        }
        Told::Gone { peer } => {
            let Some(QueryState::Pending | QueryState::Asked { .. }) = round.state(peer) else {
                return false;
            };
            round.gone(peer);
        }
    }
    true
}

// What comes of a round where it may be asked.
fn outcome(round: &mut Round, osc: u64, own: Option<Interval>) -> Option<Outcome> {
    if osc < round.latest() || osc > GREATEST_OSC {
        return None;
    }
    Some(round.evaluate(&Rates::usual(), osc, own))
}

// Whether an answer is false, where there is one and it may be asked.
fn is_false(round: &Round, osc: u64, peer: u32, adopted: &Interval) -> Option<bool> {
    let state = round.state(peer)?;
    let QueryState::Answered {
        asked: _,
        got: _,
        interval: _,
    } = state
    else {
        return None;
    };
    if osc < round.latest() || osc > GREATEST_OSC {
        return None;
    }
    Some(round.false_at(&Rates::usual(), osc, peer, adopted))
}

// A round of these peers to which this was told.
fn round_of(
    alloc: Global,
    required: u32,
    peers: &[u32],
    told: &[Told],
) -> Result<Option<Round>, NoMemory> {
    if peers.len() > MAX_QUERIES {
        return Ok(None);
    }
    let mut round = Round::begin(alloc, 1, 0, DEADLINE, required, peers)?;
    for one in told {
        if !tell(&mut round, *one) {
            return Ok(None);
        }
    }
    Ok(Some(round))
}

fn answered(peer: u32, lo: i64, hi: i64) -> [Told; 2] {
    [
        Told::Asked { peer, osc: 1000 },
        Told::Answered {
            peer,
            osc: 3000,
            lo,
            hi,
        },
    ]
}

// Of so many intervals this one is adopted.
fn adopted(n: u32, lo: i64, hi: i64) -> Option<Outcome> {
    if hi < lo {
        return None;
    }
    let interval = Interval { lo, hi };
    Some(Outcome::Adopted { n, interval })
}

#[test]
fn outcomes_of_rounds(rt: HostRuntime) -> Result<(), NoMemory> {
    let one = answered(0, LO, HI);
    let far = answered(1, 0, 10);
    let both = [one[0], one[1], far[0], far[1]];
    let asked = [one[0], one[1], Told::Asked { peer: 1, osc: 1000 }];
    let gone = [one[0], one[1], Told::Gone { peer: 1 }];
    let own = Some(Interval {
        lo: 5_000_001_998,
        hi: 5_000_004_002,
    });
    let cases: [(&[u32], &[Told], u32, u64, Option<Interval>, Option<Outcome>); 12] = [
        // The numbers of an exchange: asked at 1,000 and got at 3,000.
        (&[0], &one, 1, 3000, None, adopted(1, LO, 5_000_003_002)),
        (
            &[0],
            &one,
            1,
            3000,
            own,
            adopted(2, 5_000_001_998, 5_000_003_002),
        ),
        // The own interval is counted in, and not towards what is required.
        (
            &[0],
            &one,
            2,
            3000,
            own,
            Some(Outcome::Short {
                answered: 1,
                required: 2,
            }),
        ),
        (
            &[0],
            &[],
            1,
            DEADLINE,
            own,
            Some(Outcome::Short {
                answered: 0,
                required: 1,
            }),
        ),
        (
            &[0],
            &[],
            0,
            DEADLINE,
            own,
            adopted(1, 5_000_001_998, 5_000_004_002),
        ),
        // Below the deadline a query that is pending or asked is waited for, and one that is gone is not.
        (
            &[0, 1],
            &one,
            1,
            DEADLINE - 1,
            None,
            Some(Outcome::Waiting {
                unanswered: 1,
                deadline: DEADLINE,
            }),
        ),
        (
            &[0, 1],
            &asked,
            1,
            DEADLINE - 1,
            None,
            Some(Outcome::Waiting {
                unanswered: 1,
                deadline: DEADLINE,
            }),
        ),
        (
            &[0, 1],
            &asked,
            1,
            DEADLINE,
            None,
            adopted(1, 5_049_990_999, 5_050_005_001),
        ),
        (&[0, 1], &gone, 1, 3000, None, adopted(1, LO, 5_000_003_002)),
        // Answers that have no point in common.
        (&[0, 1], &both, 2, 3000, None, Some(Outcome::Split { n: 2 })),
        (
            &[0, 1],
            &both,
            3,
            3000,
            None,
            Some(Outcome::Short {
                answered: 2,
                required: 3,
            }),
        ),
        (&[], &[], 0, 0, None, Some(Outcome::Split { n: 0 })),
    ];
    for (peers, told, required, osc, own, expected) in &cases {
        let Some(mut round) = round_of(rt.alloc(), *required, peers, told)? else {
            assert!(rt; false);
            return Ok(());
        };
        assert_equal!(rt; outcome(&mut round, *osc, *own), *expected);
        // A copy means the same, and so does the round that was evaluated.
        let mut copy = round.copy(rt.alloc())?;
        assert_equal!(rt; outcome(&mut copy, *osc, *own), *expected);
        assert_equal!(rt; copy.queries(), round.queries());
    }
    Ok(())
}

#[test]
fn queries_stand_as_was_told(rt: HostRuntime) -> Result<(), NoMemory> {
    let one = answered(7, LO, HI);
    let Some(round) = round_of(rt.alloc(), 1, &[7, 9], &one)? else {
        assert!(rt; false);
        return Ok(());
    };
    let interval = Interval { lo: LO, hi: HI };
    let state = QueryState::Answered {
        asked: 1000,
        got: 3000,
        interval,
    };
    assert_equal!(rt; round.state(7), Some(state));
    assert_equal!(rt; round.state(9), Some(QueryState::Pending));
    assert_equal!(rt; round.state(8), None);
    assert_equal!(rt; (round.number(), round.opened(), round.latest()),
        (1, 0, 3000),
    );
    // What was answered is answered no more, and what is pending was not asked.
    for told in [
        one[1],
        Told::Gone { peer: 7 },
        Told::Answered {
            peer: 9,
            osc: 0,
            lo: 0,
            hi: 0,
        },
    ] {
        assert!(rt; round_of(rt.alloc(), 1, &[7, 9], &[one[0], one[1], told])?.is_none());
    }
    Ok(())
}

#[test]
fn sixty_four_queries_and_their_false_answers(rt: HostRuntime) -> Result<(), NoMemory> {
    let mut peers = Vec::new(rt.alloc());
    for peer in 0..64_u32 {
        peers.push(peer)?;
    }
    let Some(mut round) = round_of(rt.alloc(), 64, &peers, &[])? else {
        assert!(rt; false);
        return Ok(());
    };
    // The last answer lies an hour ahead.
    for peer in 0..64_u32 {
        let ahead = if peer == 63 { 36_000_000_000 } else { 0 };
        for told in answered(peer, LO + ahead, HI + ahead) {
            assert!(rt; tell(&mut round, told));
        }
    }
    let interval = Interval {
        lo: LO,
        hi: 5_000_003_002,
    };
    assert_equal!(rt; outcome(&mut round, 3000, None),
        Some(Outcome::Adopted { n: 64, interval }),
    );
    for peer in [0, 63] {
        assert_equal!(rt; is_false(&round, 3000, peer, &interval),
            Some(peer == 63),
        );
    }
    Ok(())
}
