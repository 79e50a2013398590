// Bounds at listed and graded lattices, and at layers piled on them: one text for all.
use agreement::{Agreement, Joined};
use order::{Bound, Lattice, Order, Reversed, bound_of, flows_reversed_twice};
use refusal::Refusal;
use std::process::Abort;
use std::test::Fail;
use tables::{Graded, Listed};

// The joins and meets of no labels, of two and of three, and of a list with an unknown label.
fn bounds_are<L: Lattice>(
    rt: &impl Abort,
    lattice: &L,
    bottom: u64,
    top: u64,
    pair: [u64; 2],
    join: u64,
    meet: u64,
) {
    assert_eq!(rt; bound_of(lattice, Bound::Join, &[]), Some(bottom));
    assert_eq!(rt; bound_of(lattice, Bound::Meet, &[]), Some(top));
    assert_eq!(rt; bound_of(lattice, Bound::Join, &pair), Some(join));
    assert_eq!(rt; bound_of(lattice, Bound::Meet, &pair), Some(meet));
    assert_eq!(rt;
        bound_of(lattice, Bound::Join, &[pair[0], bottom, pair[1]]),
        Some(join)
    );
    assert_eq!(rt;
        bound_of(lattice, Bound::Meet, &[pair[0], top, bottom]),
        Some(bottom)
    );
    assert_eq!(rt; bound_of(lattice, Bound::Join, &[pair[0], 64]), None);
    assert_eq!(rt; bound_of(lattice, Bound::Meet, &[64]), None);
}

// Two levels and two compartments: 1 does not flow to 6, they join to 7 and meet in 0; reversed they join to 0.
#[test]
fn graded_and_reversed(rt: HostRuntime) -> Result<(), Fail> {
    let graded = Graded::new(2, 2).map_err(|_| Fail::new("within the limits"))?;
    bounds_are(&rt, &graded, 0, 7, [1, 6], 7, 0);
    let reversed = Reversed { inner: graded };
    bounds_are(&rt, &reversed, 7, 0, [1, 6], 0, 7);
    let again = Reversed { inner: reversed };
    assert!(rt; !flows_reversed_twice(&again, 1, 6));
    assert!(rt; flows_reversed_twice(&again, 1, 7));
    bounds_are(&rt, &again, 0, 7, [1, 6], 7, 0);
    Ok(())
}

// A diamond whose top is label 0: 3 below 1 and 2, which are below 0.
#[test]
fn listed_and_reversed(rt: HostRuntime) {
    let mut listed = Listed::new();
    assert!(rt; listed.write(&[0b0001, 0b0011, 0b0101, 0b1111]).is_ok());
    bounds_are(&rt, &listed, 3, 0, [1, 2], 0, 3);
    bounds_are(&rt, &Reversed { inner: listed }, 0, 3, [1, 2], 3, 0);
}

fn refused_number<'a, N: Order, F: Order>(near: &'a N, far: &'a F) -> Option<u8> {
    let agreement = Agreement {
        out: &[0, 0],
        back: &[0, 0],
        near_items: &[],
        far_items: &[],
    };
    let joined = Joined {
        near,
        far,
        agreement,
    };
    let fault = joined.certify().err()?;
    Some(Refusal::from(fault).number)
}

// All to label 0 falls in chains that flow upward, and is a connection where both are turned round.
#[test]
fn certified_at_layers(rt: HostRuntime) -> Result<(), Fail> {
    let mut listed = Listed::new();
    assert!(rt; listed.write(&[0b11, 0b10]).is_ok());
    let graded = Graded::new(2, 0).map_err(|_| Fail::new("within the limits"))?;
    assert_eq!(rt; refused_number(&listed, &graded), Some(9));
    let near = Reversed { inner: listed };
    let far = Reversed { inner: graded };
    assert_eq!(rt; refused_number(&near, &far), None);
    assert_eq!(rt; refused_number(&far, &near), None);
    assert_eq!(rt;
        refused_number(&Reversed { inner: near }, &Reversed { inner: far }),
        Some(9)
    );
    Ok(())
}
