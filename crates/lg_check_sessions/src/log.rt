//! What no clause says: that the calls succeed, and what they find, in one thread and in two.
ghost use Rattle.std.specs.Prelude.{◌≡◌};

use lg_log::*;
use std::test::Fail;
use std::thread::join;

#[test]
fn codes(rt: HostRuntime) -> Result<(), Fail> {
    let last = code(63, u32::MAX);
    assert!(rt; code(0, 0) == 4_294_967_296 && last == 279_172_874_239);
    assert!(rt; session_of(last) == 63 && index_of(last) == u32::MAX);
    Ok(())
}

#[test]
fn a_pass_sees_what_another_publishes(rt: HostRuntime) -> Result<(), Fail> {
    let (log, mut first, mut passes) = Log::make(rt.alloc(), &[2, 1])?;
    let Some(mut second) = passes.pop() else {
        panic!(rt; "no pass")
    };
    assert!(rt; first.look(&log).is_none() && passes.len() == 1);
    assert!(rt; second.publish(&log, code(1, 0)).is_none());
    assert!(rt; first.look(&log) == Some(code(1, 0)) && first.look(&log).is_none());
    assert!(rt; first.seen() == [code(1, 0)].as_slice());
    Ok(())
}

#[test]
fn the_second_to_publish_loses(rt: HostRuntime) -> Result<(), Fail> {
    let (log, _first, mut passes) = Log::make(rt.alloc(), &[1, 1])?;
    let Some(mut later) = passes.pop() else {
        panic!(rt; "no pass")
    };
    let Some(mut sooner) = passes.pop() else {
        panic!(rt; "one pass")
    };
    assert!(rt; sooner.publish(&log, code(0, 0)).is_none());
    assert!(rt; later.publish(&log, code(1, 0)) == Some(code(0, 0)));
    assert!(rt; later.publish(&log, code(1, 0)).is_none());
    sooner.join(&log, later);
    assert!(rt; sooner.seen() == [code(0, 0), code(1, 0)].as_slice());
    assert!(rt; sooner.look(&log).is_none());
    Ok(())
}

#[test]
fn two_threads_look(rt: HostRuntime) -> Result<(), Fail> {
    let (log, mut first, mut passes) = Log::make(rt.alloc(), &[0])?;
    let Some(mut second) = passes.pop() else {
        panic!(rt; "no pass")
    };
    let found = join(
        &rt,
        || -> Option<u64>
            requires { first.log ≡ log }
        { first.look(&log) },
        || -> Option<u64>
            requires { second.log ≡ log }
        { second.look(&log) },
    );
    assert!(rt; found == (None, None));
    Ok(())
}
