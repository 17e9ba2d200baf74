//! Blockers that two tasks release, and a lock that two tasks ask for.

use lk_report::NoMemory;
use lk_token::Tokens;

#[test]
fn a_blocker_is_open_once_both_released_it(rt: HostRuntime) -> Result<(), NoMemory> {
    let mut tokens = Tokens::new(rt.alloc(), 2, 0)?;
    assert!(rt; !tokens.is_blocked(1));
    tokens.add_blocker(1);
    tokens.add_blocker(1);
    assert!(rt; !tokens.is_blocked(0));
    tokens.unblock(1);
    assert!(rt; tokens.is_blocked(1));
    tokens.unblock(1);
    assert!(rt; !tokens.is_blocked(1));
    Ok(())
}

#[test]
fn a_lock_has_one_holder(rt: HostRuntime) -> Result<(), NoMemory> {
    let mut tokens = Tokens::new(rt.alloc(), 0, 3)?;
    assert!(rt; tokens.lock(2));
    assert!(rt; !tokens.lock(2));
    assert!(rt; tokens.is_locked(2));
    assert!(rt; !tokens.is_locked(1));
    tokens.unlock(2);
    assert!(rt; !tokens.is_locked(2));
    assert!(rt; tokens.lock(2));
    Ok(())
}
