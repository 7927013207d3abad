// A keeper in memory, whose kth commit fails.
use crate::check::Check;
use crate::session::{Course, Crashes, Stop, live};
use std::alloc::Global;
use std::process::Abort;
use store_keeper::MemKeeper;
use test_checks::check_eq;
use test_machines::Number;

// The most commits that node 2 makes before its crash.
const MOST_COMMITS: u64 = 100;

// The keeper is opened again.
#[derive(Clone, Copy)]
struct Reopening;

impl Crashes<MemKeeper<Number>> for Reopening {
    fn reopened(&self, keeper: MemKeeper<Number>) -> MemKeeper<Number> {
        keeper.reopen()
    }
}

// How many commits failed, one a run, until a run met no stop; and after how many of them node 2 took the snapshot of node 1.
type Failures = (u64, u64);

// The failures of these courses. After each of them the rows are new exactly if `after`.
fn failures(rt: &impl Abort, alloc: Global, after: bool, course: Course) -> Failures {
    let mut takes = 0u64;
    for k in 1..MOST_COMMITS {
        let keeper = MemKeeper::failing(alloc, k, after);
        let life = live(rt, alloc, keeper, &Reopening, course);
        if life.stop == Stop::Nowhere {
            return (k - 1, takes);
        }
        check_eq!(rt; (life.stop, life.is_new), (Stop::Commit, after), k);
        takes = takes.saturating_add(u64::from(life.takes));
    }
    panic!(rt; "commits without end")
}

#[test]
fn each_commit_fails(rt: HostRuntime) {
    check_eq!(&rt; failures(&rt, rt.alloc(), false, Course::Whole), (5, 0));
    check_eq!(&rt; failures(&rt, rt.alloc(), true, Course::Whole), (5, 0));
}

// By rounds node 2 makes three commits, each in a round of its own: of its promise, of its vote in slot 1, and of its votes in slots 2 to 4 together,
// since node 1 proposes the boot and both acts of node 2 in one event, so that they come in one batch.
#[test]
fn each_commit_of_rounds_fails(rt: HostRuntime) {
    check_eq!(&rt; failures(&rt, rt.alloc(), false, Course::ByRounds), (3, 0));
    check_eq!(&rt; failures(&rt, rt.alloc(), true, Course::ByRounds), (3, 0));
}

// Then four more: of the snapshot, which is committed alone, of its vote in slot 5, of its own cut, and of its vote in slot 6. It takes the
// snapshot after the second and the third of all. After the others it has it, or has learned what it stands for, from a batch that was in its box:
// slot 1 of node 1 after the first one, and four slots of node 3 after the fourth one.
#[test]
fn each_commit_of_rounds_with_cuts_fails(rt: HostRuntime) {
    check_eq!(&rt; failures(&rt, rt.alloc(), false, Course::CutByRounds), (7, 2));
    check_eq!(&rt; failures(&rt, rt.alloc(), true, Course::CutByRounds), (7, 2));
}

#[test]
fn each_commit_of_cuts_fails(rt: HostRuntime) {
    check_eq!(&rt; failures(&rt, rt.alloc(), false, Course::Cut), (9, 3));
    check_eq!(&rt; failures(&rt, rt.alloc(), true, Course::Cut), (9, 2));
}
