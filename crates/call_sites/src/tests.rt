// Classes of calls, and words of sites.
mod finding;
mod listings;

use crate::{CallSite, Callee, Linkage, changes_r2, class_of, entry_offset, site_words};
use object_set::Site;
use stub_kinds::Class;

/// Which callee, and how a call with a TOC base comes to it: entry points, recognised, same TOC group, class, entry offset, restored.
const WITH_TOC: [(u32, bool, bool, Class, u64, bool); 10] = [
    (0, false, true, Class::Same, 0, false),
    (0, true, false, Class::Same, 0, false),
    (1, false, true, Class::Save, 0, true),
    (1, false, false, Class::Save, 0, true),
    (2, false, true, Class::EntryBare, 0, false),
    (2, true, true, Class::Same, 8, false),
    (3, true, true, Class::Same, 8, false),
    (3, true, false, Class::Switch, 8, true),
    (6, false, true, Class::EntryBare, 0, false),
    (6, false, false, Class::EntrySave, 0, true),
];

#[test]
fn calls_with_a_toc_base_are_classed(rt: HostRuntime) {
    for (entries, recognised, same_group, class, offset, restored) in WITH_TOC {
        let callee = Callee {
            entries,
            recognised,
            same_group,
        };
        assert_eq!(rt; class_of(Linkage::WithToc, callee), class, "{callee:?}");
        assert_eq!(rt;
            entry_offset(Linkage::WithToc, callee),
            offset,
            "{callee:?}"
        );
        assert_eq!(rt; changes_r2(class), restored, "{callee:?}");
    }
}

#[test]
fn calls_without_a_toc_base_go_to_the_global_entry(rt: HostRuntime) {
    for (entries, class) in [
        (0, Class::NearN),
        (1, Class::NearN),
        (2, Class::EntryN),
        (6, Class::EntryN),
    ] {
        let callee = Callee {
            entries,
            recognised: true,
            same_group: false,
        };
        assert_eq!(rt; class_of(Linkage::WithoutToc, callee), class, "{callee:?}");
        assert_eq!(rt; entry_offset(Linkage::WithoutToc, callee), 0, "{callee:?}");
        assert!(rt; !changes_r2(class), "{callee:?}");
    }
}

/// A call by `bl`.
const CALL: CallSite = CallSite {
    site: Site {
        file: 0,
        table: 2,
        entry: 0,
        section: 1,
        offset: 8,
    },
    section: 0,
    offset: 8,
    link: true,
    class: Some(Class::Same),
    e: 0,
    callee: 0x40,
    to_section: 0,
    to_offset: 0x40,
    slot: false,
    restore: false,
};

#[test]
fn a_site_has_the_words_of_its_class(rt: HostRuntime) {
    let nop = CallSite {
        class: None,
        slot: true,
        ..CALL
    };
    let restored = CallSite {
        class: Some(Class::Save),
        slot: true,
        restore: true,
        ..CALL
    };
    let kept = CallSite { slot: true, ..CALL };
    let tail = CallSite {
        link: false,
        ..CALL
    };
    for (site, disp, words) in [
        (CALL, 0x40, (0x4800_0041, None)),
        (CALL, -0x400, (0x4BFF_FC01, None)),
        (CALL, -0x200_0000, (0x4A00_0001, None)),
        (CALL, 0x1FF_FFFC, (0x49FF_FFFD, None)),
        (tail, -4, (0x4BFF_FFFC, None)),
        (nop, 0, (0x6000_0000, Some(0x6000_0000))),
        (restored, 0x78, (0x4800_0079, Some(0xE841_0018))),
        (kept, 0x40, (0x4800_0041, Some(0x6000_0000))),
    ] {
        assert_eq!(rt; site_words(&site, disp), words, "{site:?}");
    }
}
