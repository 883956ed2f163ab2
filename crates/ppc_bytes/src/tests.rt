// Numbers, alignment and identification at known values.
ghost use Rattle.std.specs.Prelude.{◌≡◌, ◌<◌};

use crate::{
    Bytes, Steps, align_up, fits_signed, half_at, has_magic, is_ppc64_le, long_at, put_half,
    put_long, put_word, word_at,
};
use std::marker::Brand;
use std::sync::ledger::{Blank, Ledger};
use std::test::Fail;

const NUMBERS: [u8; 9] = [0x01, 0x02, 0x03, 0x04, 0x05, 0x06, 0x07, 0x08, 0x09];

#[test]
fn numbers_are_little_endian(rt: HostRuntime) {
    assert_eq!(rt; half_at(&NUMBERS, 7), 0x0908);
    assert_eq!(rt; word_at(&NUMBERS, 1), 0x0504_0302);
    assert_eq!(rt; long_at(&NUMBERS, 1), 0x0908_0706_0504_0302);
}

#[test]
fn a_write_changes_its_own_bytes_alone(rt: HostRuntime) {
    let mut b = NUMBERS;
    put_half(&mut b, 1, 0xA1A2);
    put_word(&mut b, 4, 0xB1B2_B3B4);
    assert_eq!(rt; b, [0x01, 0xA2, 0xA1, 0x04, 0xB4, 0xB3, 0xB2, 0xB1, 0x09]);
    put_long(&mut b, 0, 0xC1C2_C3C4_C5C6_C7C8);
    assert_eq!(rt; b, [0xC8, 0xC7, 0xC6, 0xC5, 0xC4, 0xC3, 0xC2, 0xC1, 0x09]);
}

#[test]
fn alignment_and_signed_ranges_at_their_ends(rt: HostRuntime) {
    assert_eq!(rt; align_up(0, 0x10000), 0);
    assert_eq!(rt; align_up(1, 0x10000), 0x10000);
    assert_eq!(rt; align_up(0x10000, 0x10000), 0x10000);
    assert!(rt; fits_signed(-0x8000, 16));
    assert!(rt; fits_signed(0x7FFF, 16));
    assert!(rt; !fits_signed(0x8000, 16));
    assert!(rt; !fits_signed(-0x8001, 16));
}

#[test]
fn bytes_give_back_their_vector(rt: HostRuntime) -> Result<(), Fail> {
    let bytes = Bytes::of(NUMBERS.to_vec(rt.alloc())?);
    assert_eq!(rt; bytes.as_slice(), NUMBERS.as_slice());
    assert_eq!(rt; bytes.into_vec().as_slice(), NUMBERS.as_slice());
    Ok(())
}

#[test]
fn a_header_is_identified(rt: HostRuntime) {
    let mut header = [0u8; 64];
    header[0] = 0x7F;
    header[1] = 0x45;
    header[2] = 0x4C;
    header[3] = 0x46;
    header[4] = 2;
    header[5] = 1;
    header[6] = 1;
    header[18] = 21;
    header[20] = 1;
    assert!(rt; has_magic(&header));
    assert!(rt; !has_magic(&header[..3]));
    assert!(rt; is_ppc64_le(&header));
    header[19] = 1;
    assert!(rt; !is_ppc64_le(&header));
}

fn two_steps<L: Ledger>(blank: Blank)
    requires name { blank.name ≡ L.name }
    requires parts { blank.parts ≡ L.parts }
    requires some { 0 < L.parts }
{
    let mut steps = Steps::<L>::new(blank);
    steps.tick();
    steps.tick();
}

#[test]
fn a_counter_is_made_and_ticks(_rt: HostRuntime) {
    two_steps::<Brand>(Blank::new(1));
}
