use super::*;
use std::test::*;

/// A value that knows with what it was made.
#[derive(Drop)]
struct Token {
    made: u32,
    turns: u32,
}

impl Kept for Token {
    type Origin = u32;

    ghost origin = { λ t. t.made };
}

#[test]
fn one_turn_at_a_time(rt: HostRuntime) {
    let Ok((turnstile, mut left)) = Turnstile::new(rt.alloc(), Token { made: 7, turns: 0 }) else {
        panic!(rt; "no memory")
    };
    let mut right = turnstile.split(&mut left);
    let Ok(mut token) = turnstile.try_turn(&mut left) else {
        panic!(rt; "the turn is free")
    };
    token.turns = 1;
    match turnstile.try_turn(&mut right) {
        Ok(_) => panic!(rt; "the turn is taken"),
        Err(taken) => assert_eq!(rt; taken.seen, 1),
    }
    turnstile.give_turn(&mut left, token);
    let Ok(token) = turnstile.try_turn(&mut right) else {
        panic!(rt; "the turn is free again")
    };
    assert_eq!(rt; token.turns, 1);
    turnstile.give_turn(&mut right, token);
    turnstile.join(&mut left, right);
    let token = turnstile.close(left);
    assert_eq!(rt; token.made, 7);
    assert_eq!(rt; token.turns, 1);
}

#[test]
fn a_port_is_looked_at(rt: HostRuntime) -> Result<(), Fail> {
    let (port, mut writer, mut reader) = Port::new(rt.alloc())?;
    assert_eq!(rt; port.look(&mut reader), PortState::Up);
    port.set(&mut writer, PortState::Down);
    assert_eq!(rt; port.look(&mut reader), PortState::Down);
    port.set(&mut writer, PortState::Up);
    assert_eq!(rt; port.look(&mut reader), PortState::Up);
    port.set(&mut writer, PortState::Flush);
    port.set(&mut writer, PortState::Flush);
    assert_eq!(rt; port.look(&mut reader), PortState::Flush);
    assert_eq!(rt; port.close(writer, reader), PortState::Flush);
    Ok(())
}

#[test]
fn faults_read(rt: HostRuntime) -> Result<(), Fail> {
    let text = format!(in rt.alloc(); "{}", DescFault::BadSize(7))?;
    assert_eq!(rt; text.as_str(), "bad size 7");
    let text = format!(in rt.alloc(); "{}", DescFault::Memory)?;
    assert_eq!(rt; text.as_str(), "out of memory");
    Ok(())
}
