//! What is kept of how sessions end.
use std::test::Fail;
use test_kit::is_equal;
use workers::{SessionEnds, SessionFault};

// So often no session came, and then one that ended well.
#[test]
fn a_thousand_faults_are_kept(rt: HostRuntime) -> Result<(), Fail> {
    let mut ends = SessionEnds::new(rt.alloc());
    for _ in 0..1_100 {
        ends.note(&Err(SessionFault::Listen))?;
        ends.note(&Ok(7))?;
    }
    let found = (ends.begun(), ends.faults().len(), ends.have_come());
    is_equal(&found, &(1_100, 1_000, false))?;
    is_equal(&SessionFault::Listen.number(), &57)
}
