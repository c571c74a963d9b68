// Exercises: the numbers that they take, a source that they don't read, and objects that fail.
use crate::runs::{ends, keeper_of, objects_of};
use n32_outside::Keeper;
use replay_runs::Status;
use std::alloc::Global;

// The summary of one message, computed with OpenSSL, over no records and over those of such a run.
const FIRST: &str =
    "messages 1\nanswers 8\ndelivered 1\nrefused 0\nsha256 ac25a6a7629cdf66c4392b613bbfa5046f4d9a5c3693c4426bdd02d3c5738565\n";

const AGAIN: &str =
    "messages 1\nanswers 8\ndelivered 1\nrefused 4\nsha256 f56aa29606806d3169ff4962c349c1e3a24828bbeb01d164bd27f9859ad54dec\n";

// Whether an exercise ends so and writes this, where the first read fails and these writes do.
fn exercises<K: Keeper>(
    alloc: Global,
    messages: &str,
    writes: &[u64],
    keeper: &mut K,
    wanted: Status,
    output: &str,
) -> bool {
    let objects = objects_of(alloc, &["exercise", messages], b"{}\n", &[0], writes);
    ends(alloc, objects, keeper, wanted, output)
}

#[test]
fn an_exercise_takes_1_to_10000_messages(rt: HostRuntime) {
    let alloc = rt.alloc();
    for messages in [
        "",
        "0",
        "01",
        "10001",
        "+1",
        " 1",
        "1x",
        "18446744073709551617",
    ] {
        let mut keeper = keeper_of(alloc, &[], &[]);
        assert!(rt; exercises(alloc, messages, &[], &mut keeper, Status::Words, ""));
    }
}

#[test]
fn an_exercise_reads_nothing_and_goes_on_from_what_is_held(rt: HostRuntime) {
    let alloc = rt.alloc();
    let mut keeper = keeper_of(alloc, &[], &[]);
    assert!(rt; exercises(alloc, "1", &[], &mut keeper, Status::Done, FIRST));
    assert!(rt; exercises(alloc, "1", &[], &mut keeper, Status::Done, AGAIN));
}

#[test]
fn a_fault_ends_an_exercise_with_its_status(rt: HostRuntime) {
    let alloc = rt.alloc();
    let mut keeper = keeper_of(alloc, &[], &[]);
    assert!(rt; exercises(alloc, "1", &[0], &mut keeper, Status::WriteFault, ""));
    let mut keeper = keeper_of(alloc, &["x"], &[]);
    assert!(rt; exercises(alloc, "1", &[], &mut keeper, Status::Journal(0), ""));
    let mut keeper = keeper_of(alloc, &[], &[(0, false)]);
    assert!(rt; exercises(alloc, "1", &[], &mut keeper, Status::KeeperFault, ""));
}
