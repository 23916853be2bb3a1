//! The file of the smallest sheet: two situations, two commands, and Reply of situation 1 by command 1.

use super::checking::check;
use super::writing::write;
use model::refusal::{Place, Refusal};
use rules::Reply;
use synthesis::position::Position;
use synthesis::state::State;

const FILE: [u8; 34] = [
    0x00, 0x00, 0x00, 0x01, 0x00, 0x01, 0x00, 0x00, 0x01, 0x00, 0x00, 0xFF, 0x00, 0x01, 0x54, 0x54,
    0x43, 0x31, 0x0E, 0x00, 0x00, 0x00, 0x04, 0x00, 0x00, 0x00, 0x02, 0x00, 0x02, 0x02, 0x02, 0x01,
    0x00, 0x00,
];

#[test]
fn accepts_and_refuses(rt: HostRuntime) {
    let rule = Reply::new(2, 2, 1, 1);
    let mut file = FILE;
    assert_eq!(rt; check(&rule, &file) == Ok(1), true);
    file[13] = 0;
    let place = Place {
        state: 0,
        situation: 1,
        rule_state: 0,
        follower: 1,
    };
    assert_eq!(rt;
        check(&rule, &file) == Err(Refusal::Certificate(place)),
        true
    );
}

#[test]
fn writes_the_file(rt: HostRuntime) {
    let rule = Reply::new(2, 2, 1, 1);
    let mut nexts = [0u16; 8];
    nexts[1] = 1;
    let mut marks = [0u8; 16];
    marks[0] = 1;
    let first = State {
        command: 0,
        nexts,
        position: Position { marks },
    };
    marks[1] = 2;
    let second = State {
        command: 1,
        nexts,
        position: Position { marks },
    };
    let mut buffer = [0xEE; 36];
    let answer = write(&rule, &[first, second], 1, &mut buffer);
    assert_eq!(rt; answer == Ok(34), true);
    assert_eq!(rt; buffer[0..34] == FILE[..], true);
    assert_eq!(rt; buffer[34], 0xEE);
}
