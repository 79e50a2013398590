ghost use Rattle.std.specs.Prelude.{◌≡◌, ◌+◌, ◌*◌, ◌^◌, ◌<◌, [], ◌∷◌, MatchResult};
ghost use Rattle.order.specs.Bounds.{Joined, toward};
ghost use Rattle.tables.specs.Graded.{Limited, level_of, set_of, inside, level_bound, set_bound};
ghost use Rattle.tables.specs.GradedOrder.{graded};
ghost use Rattle.order.specs.declared.bound.Bound.TheVariants.{Join, Meet};
ghost use Rattle.tables.specs.GradedBounds.{label_at, supremum};

use crate::fault::TableFault;
use order::{Bound, Lattice, Order};

// A lattice of levels in a row, each with every set of compartments: label = level * 2^compartments + set.
#[derive(Clone, Copy)]
pub struct Graded {
    levels: u64,
    compartments: u64,
    ghost limits: { Limited levels compartments },
}

impl Graded {
    // The lattice of so many levels and compartments, refused beyond 1 to 8 levels and 0 to 3 compartments.
    pub fn new(levels: u64, compartments: u64) -> Result<Graded, TableFault>
        ensures { MatchResult result (λ g. Limited levels compartments × (g.levels ≡ levels) × (g.compartments ≡ compartments)) (λ e. (Limited levels compartments → ⊥) × (e ≡ TableFault.Limits levels compartments)) }
    {
        if levels < 1 || levels > 8 || compartments > 3 {
            return Err(TableFault::Limits {
                levels,
                compartments,
            });
        }
        Ok(Graded {
            levels,
            compartments,
        })
    }

    // The level of a label.
    fn level(&self, label: u64) -> u64
        ensures { result ≡ level_of self.now.compartments label }
    {
        label >> self.compartments
    }

    // The compartments of a label, a bit for each.
    fn set(&self, label: u64) -> u64
        ensures { result ≡ set_of self.now.compartments label }
    {
        label & ((1 << self.compartments) - 1)
    }

    // The label of a level and a set of compartments.
    fn label(&self, level: u64, set: u64) -> u64
        requires { (level < self.now.levels) × (set < 2 ^ self.now.compartments) }
        ensures { result ≡ level * 2 ^ self.now.compartments + set }
    {
        level << self.compartments | set
    }

    // The bound of two labels, absent where one of them is unknown.
    fn bound(&self, which: Bound, a: u64, b: u64) -> Option<u64>
        ensures { Joined (toward which (graded self.now.levels self.now.compartments self.now.limits)) (a ∷ b ∷ []) result }
    {
        if a >= self.count() || b >= self.count() {
            return None;
        }
        let level = bound_of_levels(which, self.level(a), self.level(b));
        let set = bound_of_sets(which, self.set(a), self.set(b));
        Some(self.label(level, set))
    }
}

// Whether the set x lies inside the set y.
fn lies_inside(x: u64, y: u64) -> bool
    ensures { result ≡ inside x y }
{
    x & y == x
}

// The higher or the lower of two levels.
fn bound_of_levels(which: Bound, x: u64, y: u64) -> u64
    ensures { result ≡ level_bound which x y }
{
    match which {
        Bound::Join => x.max(y),
        Bound::Meet => x.min(y),
    }
}

// The union of two sets of compartments, or what they share.
fn bound_of_sets(which: Bound, x: u64, y: u64) -> u64
    ensures { result ≡ set_bound which x y }
{
    match which {
        Bound::Join => x | y,
        Bound::Meet => x & y,
    }
}

impl Order for Graded {
    ghost meaning = { λ s. graded s.levels s.compartments s.limits };

    fn count(&self) -> u64 {
        self.levels << self.compartments
    }

    fn flows(&self, a: u64, b: u64) -> bool {
        a < self.count()
            && b < self.count()
            && self.level(a) <= self.level(b)
            && lies_inside(self.set(a), self.set(b))
    }
}

impl Lattice for Graded {
    ghost bounds = { λ s.
        record {
          joins = λ a b h k. ∣ (label_at Join s.compartments a b, supremum s.levels s.compartments s.limits Join a b h k) ∣₁;
          meets = λ a b h k. ∣ (label_at Meet s.compartments a b, supremum s.levels s.compartments s.limits Meet a b h k) ∣₁;
        } };

    fn join(&self, a: u64, b: u64) -> Option<u64> {
        self.bound(Bound::Join, a, b)
    }

    fn meet(&self, a: u64, b: u64) -> Option<u64> {
        self.bound(Bound::Meet, a, b)
    }
}
