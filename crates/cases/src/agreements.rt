// What agreements between two chains are refused with: number, side, p and q, or nothing where they are accepted.
use agreement::{
    Agreement, Item, Joined, LabelMap, Role, RoundTrip, UnknownRole, View, items_up_to,
};
use refusal::{Refusal, Side};
use std::test::Fail;
use tables::Graded;

// Chains of so many labels, that flow upward by number, with maps and items.
struct Case {
    near: u64,
    far: u64,
    agreement: Agreement<'static>,
    refused: Option<Refusal>,
}

// The roles by their numbers, as the rules write them and items hold them: what a test expects is not taken from the code.
const WORKING: u64 = 0;

const IMPORT: u64 = 1;

const EXPORT: u64 = 2;

const ANY: u64 = 0xffff_ffff_ffff_ffff;

static MAPS: [Case; 16] = [
    // accepted: a chain of three and one of two, and a chain with itself
    Case {
        near: 3,
        far: 2,
        agreement: Agreement {
            out: &[0, 1, 1],
            back: &[0, 2],
            near_items: &[],
            far_items: &[],
        },
        refused: None,
    },
    Case {
        near: 2,
        far: 2,
        agreement: Agreement {
            out: &[0, 1],
            back: &[0, 1],
            near_items: &[],
            far_items: &[],
        },
        refused: None,
    },
    // a wrong number of entries, near before far, and before any entry of the far map
    Case {
        near: 2,
        far: 2,
        agreement: Agreement {
            out: &[0],
            back: &[0, 1],
            near_items: &[],
            far_items: &[],
        },
        refused: Some(Refusal {
            number: 7,
            side: Some(Side::Near),
            p: 64,
            q: 0,
        }),
    },
    Case {
        near: 2,
        far: 2,
        agreement: Agreement {
            out: &[0, 1, 1],
            back: &[],
            near_items: &[],
            far_items: &[],
        },
        refused: Some(Refusal {
            number: 7,
            side: Some(Side::Near),
            p: 64,
            q: 0,
        }),
    },
    Case {
        near: 2,
        far: 2,
        agreement: Agreement {
            out: &[0, 1],
            back: &[9],
            near_items: &[],
            far_items: &[],
        },
        refused: Some(Refusal {
            number: 7,
            side: Some(Side::Far),
            p: 64,
            q: 0,
        }),
    },
    // an entry that is no label of the other house: the count of the other house is meant
    Case {
        near: 3,
        far: 2,
        agreement: Agreement {
            out: &[0, 1, 2],
            back: &[],
            near_items: &[],
            far_items: &[],
        },
        refused: Some(Refusal {
            number: 7,
            side: Some(Side::Near),
            p: 2,
            q: 2,
        }),
    },
    Case {
        near: 2,
        far: 3,
        agreement: Agreement {
            out: &[0, 2],
            back: &[0, ANY, 3],
            near_items: &[],
            far_items: &[],
        },
        refused: Some(Refusal {
            number: 7,
            side: Some(Side::Far),
            p: 1,
            q: ANY,
        }),
    },
    // order that is not kept, near before far
    Case {
        near: 2,
        far: 2,
        agreement: Agreement {
            out: &[1, 0],
            back: &[0, 1],
            near_items: &[],
            far_items: &[],
        },
        refused: Some(Refusal {
            number: 8,
            side: Some(Side::Near),
            p: 0,
            q: 1,
        }),
    },
    Case {
        near: 3,
        far: 3,
        agreement: Agreement {
            out: &[0, 2, 1],
            back: &[2, 1, 0],
            near_items: &[],
            far_items: &[],
        },
        refused: Some(Refusal {
            number: 8,
            side: Some(Side::Near),
            p: 1,
            q: 2,
        }),
    },
    Case {
        near: 2,
        far: 2,
        agreement: Agreement {
            out: &[0, 1],
            back: &[1, 0],
            near_items: &[],
            far_items: &[],
        },
        refused: Some(Refusal {
            number: 8,
            side: Some(Side::Far),
            p: 0,
            q: 1,
        }),
    },
    // a label that falls when it goes round
    Case {
        near: 2,
        far: 2,
        agreement: Agreement {
            out: &[0, 0],
            back: &[0, 0],
            near_items: &[],
            far_items: &[],
        },
        refused: Some(Refusal {
            number: 9,
            side: Some(Side::Near),
            p: 1,
            q: 0,
        }),
    },
    Case {
        near: 2,
        far: 2,
        agreement: Agreement {
            out: &[0, 0],
            back: &[1, 1],
            near_items: &[],
            far_items: &[],
        },
        refused: Some(Refusal {
            number: 9,
            side: Some(Side::Far),
            p: 1,
            q: 0,
        }),
    },
    // a label that drifts
    Case {
        near: 3,
        far: 3,
        agreement: Agreement {
            out: &[1, 2, 2],
            back: &[0, 1, 2],
            near_items: &[],
            far_items: &[],
        },
        refused: Some(Refusal {
            number: 10,
            side: Some(Side::Near),
            p: 0,
            q: 0,
        }),
    },
    Case {
        near: 2,
        far: 2,
        agreement: Agreement {
            out: &[1, 1],
            back: &[0, 1],
            near_items: &[],
            far_items: &[],
        },
        refused: Some(Refusal {
            number: 10,
            side: Some(Side::Far),
            p: 0,
            q: 0,
        }),
    },
    // rule by rule: a far map that is too short before a near map that does not keep the order
    Case {
        near: 2,
        far: 2,
        agreement: Agreement {
            out: &[1, 0],
            back: &[0],
            near_items: &[],
            far_items: &[],
        },
        refused: Some(Refusal {
            number: 7,
            side: Some(Side::Far),
            p: 64,
            q: 0,
        }),
    },
    // a drifting map before an unlawful item
    Case {
        near: 2,
        far: 2,
        agreement: Agreement {
            out: &[1, 1],
            back: &[0, 1],
            near_items: &[Item { role: 3, label: 0 }],
            far_items: &[],
        },
        refused: Some(Refusal {
            number: 10,
            side: Some(Side::Far),
            p: 0,
            q: 0,
        }),
    },
];

// Items between a chain of three and one of two: near 0 and 2 and far 0 and 1 are settled.
struct Items {
    near: &'static [Item],
    far: &'static [Item],
    refused: Option<Refusal>,
}

static ITEMS: [Items; 10] = [
    Items {
        near: &[
            Item {
                role: EXPORT,
                label: 0,
            },
            Item {
                role: IMPORT,
                label: 2,
            },
            Item {
                role: WORKING,
                label: 1,
            },
        ],
        far: &[Item {
            role: EXPORT,
            label: 1,
        }],
        refused: None,
    },
    Items {
        near: &[Item {
            role: WORKING,
            label: 0,
        }; 128],
        far: &[],
        refused: None,
    },
    Items {
        near: &[Item {
            role: WORKING,
            label: 0,
        }; 129],
        far: &[],
        refused: Some(Refusal {
            number: 11,
            side: Some(Side::Near),
            p: 128,
            q: 0,
        }),
    },
    Items {
        near: &[],
        far: &[Item { role: 9, label: 9 }; 129],
        refused: Some(Refusal {
            number: 11,
            side: Some(Side::Far),
            p: 128,
            q: 0,
        }),
    },
    Items {
        near: &[Item {
            role: EXPORT,
            label: 1,
        }],
        far: &[],
        refused: Some(Refusal {
            number: 11,
            side: Some(Side::Near),
            p: 0,
            q: 1,
        }),
    },
    Items {
        near: &[
            Item {
                role: WORKING,
                label: 1,
            },
            Item {
                role: IMPORT,
                label: 1,
            },
        ],
        far: &[Item { role: 3, label: 0 }],
        refused: Some(Refusal {
            number: 11,
            side: Some(Side::Near),
            p: 1,
            q: 1,
        }),
    },
    Items {
        near: &[Item { role: 3, label: 0 }],
        far: &[],
        refused: Some(Refusal {
            number: 11,
            side: Some(Side::Near),
            p: 0,
            q: 0,
        }),
    },
    Items {
        near: &[Item {
            role: WORKING,
            label: 3,
        }],
        far: &[],
        refused: Some(Refusal {
            number: 11,
            side: Some(Side::Near),
            p: 0,
            q: 3,
        }),
    },
    Items {
        near: &[],
        far: &[
            Item {
                role: WORKING,
                label: 1,
            },
            Item {
                role: EXPORT,
                label: 2,
            },
        ],
        refused: Some(Refusal {
            number: 11,
            side: Some(Side::Far),
            p: 1,
            q: 2,
        }),
    },
    Items {
        near: &[],
        far: &[Item {
            role: ANY,
            label: ANY,
        }],
        refused: Some(Refusal {
            number: 11,
            side: Some(Side::Far),
            p: 0,
            q: ANY,
        }),
    },
];

fn chain(labels: u64) -> Result<Graded, Fail> {
    Graded::new(labels, 0).map_err(|_| Fail::new("a chain has 1 to 8 labels"))
}

fn refused(near: &Graded, far: &Graded, agreement: Agreement<'_>) -> Option<Refusal> {
    let joined = Joined {
        near,
        far,
        agreement,
    };
    joined.certify().err().map(Refusal::from)
}

#[test]
fn map_rules(rt: HostRuntime) -> Result<(), Fail> {
    for case in &MAPS {
        let near = chain(case.near)?;
        let far = chain(case.far)?;
        assert_eq!(rt; refused(&near, &far, case.agreement), case.refused);
    }
    Ok(())
}

#[test]
fn item_rules(rt: HostRuntime) -> Result<(), Fail> {
    let near = chain(3)?;
    let far = chain(2)?;
    for case in &ITEMS {
        let agreement = Agreement {
            out: &[0, 1, 1],
            back: &[0, 2],
            near_items: case.near,
            far_items: case.far,
        };
        assert_eq!(rt; refused(&near, &far, agreement), case.refused);
    }
    Ok(())
}

fn settled(out: &[u64], back: &[u64], label: u64) -> Result<bool, Fail> {
    let from = chain(3)?;
    let to = chain(2)?;
    let trip = RoundTrip {
        from,
        to,
        out,
        back,
    };
    Ok(trip.settled(label))
}

#[test]
fn settled_labels(rt: HostRuntime) -> Result<(), Fail> {
    assert!(rt; settled(&[0, 1, 1], &[0, 2], 0)?);
    assert!(rt; !settled(&[0, 1, 1], &[0, 2], 1)?);
    assert!(rt; settled(&[0, 1, 1], &[0, 2], 2)?);
    // unknown, and without an entry on the way
    assert!(rt; !settled(&[0, 1, 1, 3], &[0, 2], 3)?);
    assert!(rt; !settled(&[0, 1], &[0, 2], 2)?);
    assert!(rt; !settled(&[0, 1, 1], &[0], 2)?);
    Ok(())
}

// Near items with the labels 0, 2 and 1, and far ones with 1 and 0.
static NEAR_ITEMS: [Item; 3] = [
    Item {
        role: WORKING,
        label: 0,
    },
    Item {
        role: WORKING,
        label: 2,
    },
    Item {
        role: WORKING,
        label: 1,
    },
];

static FAR_ITEMS: [Item; 2] = [
    Item {
        role: EXPORT,
        label: 1,
    },
    Item {
        role: IMPORT,
        label: 0,
    },
];

fn connected<'a>(
    near: &'a Graded,
    far: &'a Graded,
    near_items: &'static [Item],
    far_items: &'static [Item],
) -> Joined<'a, Graded, Graded> {
    Joined {
        near,
        far,
        agreement: Agreement {
            out: &[0, 1, 1],
            back: &[0, 2],
            near_items,
            far_items,
        },
    }
}

#[test]
fn views(rt: HostRuntime) -> Result<(), Fail> {
    let near = chain(3)?;
    let far = chain(2)?;
    let joined = connected(&near, &far, &[], &[]);
    let low = Some(View { near: 0, far: 0 });
    let high = Some(View { near: 2, far: 1 });
    assert_eq!(rt; joined.view(Side::Near, 0), low);
    assert_eq!(rt; joined.view(Side::Near, 1), high);
    assert_eq!(rt; joined.view(Side::Far, 0), low);
    assert_eq!(rt; joined.view(Side::Far, 1), high);
    assert_eq!(rt; joined.view(Side::Near, 3), None);
    assert_eq!(rt; joined.view(Side::Far, 2), None);
    Ok(())
}

#[test]
fn items_in_views(rt: HostRuntime) -> Result<(), Fail> {
    let near = chain(3)?;
    let far = chain(2)?;
    let joined = connected(&near, &far, &NEAR_ITEMS, &FAR_ITEMS);
    let Some(own) = joined.items_in_view(rt.alloc(), Side::Near, 0, Side::Near)? else {
        return Err(Fail::new("near label 0 has a view"));
    };
    assert!(rt; own.as_slice() == [0].as_slice());
    let Some(across) = joined.items_in_view(rt.alloc(), Side::Near, 1, Side::Far)? else {
        return Err(Fail::new("near label 1 has a view"));
    };
    assert!(rt; across.as_slice() == [0, 1].as_slice());
    assert!(rt;
        joined
            .items_in_view(rt.alloc(), Side::Far, 2, Side::Near)?
            .is_none()
    );
    Ok(())
}

#[test]
fn moves(rt: HostRuntime) -> Result<(), Fail> {
    let map = LabelMap {
        from: chain(3)?,
        to: chain(2)?,
        images: &[0, 1, 1],
    };
    assert!(rt; !map.allows(2, 0));
    assert!(rt; map.allows(0, 1));
    assert!(rt; !map.allows(3, 1));
    Ok(())
}

#[test]
fn listed_items(rt: HostRuntime) -> Result<(), Fail> {
    let near = chain(3)?;
    let items = [1, 2, 3, 0].map(|label| Item {
        role: WORKING,
        label,
    });
    let numbers = items_up_to(rt.alloc(), &near, 1, &items)?;
    assert!(rt; numbers.as_slice() == [0, 3].as_slice());
    assert!(rt; items_up_to(rt.alloc(), &near, 3, &items)?.is_empty());
    Ok(())
}

// Each role is the one of its number, and no number beyond them is a role.
#[test]
fn roles(rt: HostRuntime) {
    assert_eq!(rt; Role::try_from(WORKING), Ok(Role::Working));
    assert_eq!(rt; Role::try_from(IMPORT), Ok(Role::Import));
    assert_eq!(rt; Role::try_from(EXPORT), Ok(Role::Export));
    assert_eq!(rt; Role::try_from(3), Err(UnknownRole(3)));
    assert_eq!(rt; Role::try_from(ANY), Err(UnknownRole(ANY)));
}
