use super::*;
use std::test::*;

const LAST: RingWord = RingWord {
    head: 2,
    tail: 1,
    cidx: 3,
    flag: Flag::Stalled,
};

fn word(head: u16, cidx: u16) -> RingWord {
    RingWord {
        head,
        tail: head,
        cidx,
        flag: Flag::Busy,
    }
}

#[test]
fn words_of_the_largest_ring(rt: HostRuntime) {
    assert_eq!(rt; advance(65_536, 65_535, 1), 0);
    assert_eq!(rt; space(65_536, &word(0, 0)), 65_535);
    assert_eq!(rt; space(65_536, &word(65_534, 0)), 1);
    assert_eq!(rt; space(65_536, &word(0, 65_535)), 65_534);
}

#[test]
fn words_are_packed_and_unpacked(rt: HostRuntime) {
    assert_eq!(rt; LAST.pack(), 0x0002_0003_0001_0002);
    assert_eq!(rt; RingWord::unpack(0x0002_0003_0001_0002), Some(LAST));
    assert_eq!(rt; RingWord::unpack(0x0003_ffff_ffff_ffff).is_some(), true);
    assert_eq!(rt; RingWord::unpack(0x0004_0000_0000_0000), None);
}
