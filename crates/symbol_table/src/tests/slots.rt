// Names that share slots.
use crate::names::NameIndex;
use std::test::Fail;

/// More names than one of them has slots, the empty one first.
const NAMES: &str = "|a|b|ab|ba|aa|\0|ÿ|ÿþ|main|mai|maim";

#[test]
fn names_that_share_slots_keep_their_numbers(rt: HostRuntime) -> Result<(), Fail> {
    // where there is no room, the slots of all names are the same eight
    let mut index = NameIndex::with_room(rt.alloc(), 0)?;
    for (number, name) in NAMES.split('|').chain(NAMES.split('|')).enumerate() {
        assert_eq!(rt; index.add(name.as_bytes())?, number % 12, "{number}");
    }
    for (number, name) in NAMES.split('|').enumerate() {
        assert_eq!(rt; index.number_of(name.as_bytes()), Some(number));
    }
    for name in "c|mainn|þ|bb".split('|') {
        assert_eq!(rt; index.number_of(name.as_bytes()), None);
    }
    Ok(())
}
