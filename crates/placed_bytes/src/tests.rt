// Bytes and numbers put over others.
use crate::{put_bytes, put_number};

#[test]
fn what_is_put_stands_and_all_else_stays(rt: HostRuntime) {
    let mut b = [0x11u8; 10];
    put_bytes(&mut b, 1, &[0xA1, 0xA2, 0xA3]);
    put_number(&mut b, 5, 4, 0xB1B2_B3B4);
    put_bytes(&mut b, 10, &[]);
    assert_eq!(rt;
        b,
        [0x11, 0xA1, 0xA2, 0xA3, 0x11, 0xB4, 0xB3, 0xB2, 0xB1, 0x11]
    );
    put_number(&mut b, 1, 8, 0xC1C2_C3C4_C5C6_C7C8);
    assert_eq!(rt;
        b,
        [0x11, 0xC8, 0xC7, 0xC6, 0xC5, 0xC4, 0xC3, 0xC2, 0xC1, 0x11]
    );
}
