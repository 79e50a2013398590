ghost use Rattle.std.specs.Prelude.{◌≡◌, ◌≤◌, length, OnOk, ◌==◌};
ghost use Rattle.refusal.specs.Judging.{check};
ghost use Rattle.fixed.specs.Lists.{list_of};
ghost use Rattle.machine.specs.Calls.{if_so, stage_judged};
ghost use Rattle.machine.specs.Secrets.{KeepsSecrets};
ghost use Rattle.machine.specs.declared.stage.Stage.TheVariants.{Draft as draft, Open as open_stage};
ghost use Rattle.session.specs.Records.{Hands, blank_table, certify_answer, closed, known, no_maps, offered, open_answer, opened_with, with_agreement};

use crate::pass::{CertifiedPass, DraftPass, OpenPass, exchanged};
use crate::record::{BLANK_ITEM, Items, Maps, Session, Table};
use crate::returned::Returned;
use agreement::{Agreement, Item, Joined};
use fixed::FixedList;
use machine::{CallFault, Stage, Values, at_stage};
use order::Lattice;
use refusal::{Side, check};

impl<N: Lattice, F: Lattice> Session<N, F> {
    // A session between two houses, with nothing agreed.
    pub fn new(near: N, far: F) -> (Session<N, F>, DraftPass)
        ensures { result.0 ≡ record { near = near; far = far; maps = no_maps; stage = draft; table = blank_table } }
    {
        let session = Session {
            near,
            far,
            maps: Maps::NONE,
            stage: Stage::Draft,
            table: Table {
                items: Items::NONE,
                values: Values::ZERO,
            },
        };
        (session, DraftPass { seal: () })
    }

    // Certifies the agreement and copies it in, or leaves everything as it was.
    fn admit(&mut self, agreement: &Agreement<'_>) -> Result<(), CallFault>
        ensures answer { result ≡ certify_answer N.Order.meaning F.Order.meaning self.old agreement.now }
        ensures record { self.new ≡ if_so (certify_answer N.Order.meaning F.Order.meaning self.old agreement.now) (with_agreement self.old agreement.now) self.old }
        ensures copied { OnOk result (known N.Order.meaning F.Order.meaning self.new ≡ offered N.Order.meaning F.Order.meaning self.old agreement.now) }
        ensures secrets { OnOk result (KeepsSecrets (known N.Order.meaning F.Order.meaning self.new)) }
    {
        at_stage(self.stage, Stage::Draft)?;
        let houses = Joined {
            near: &self.near,
            far: &self.far,
            agreement: *agreement,
        };
        houses.certify()?;
        self.maps = Maps {
            out: FixedList::of(0, agreement.out),
            back: FixedList::of(0, agreement.back),
        };
        self.table.items = Items {
            near: FixedList::of(BLANK_ITEM, agreement.near_items),
            far: FixedList::of(BLANK_ITEM, agreement.far_items),
        };
        self.stage = Stage::Certified;
        Ok(())
    }

    // Certifies an agreement and copies it in. What is certified keeps secrets, whatever is then called.
    pub fn certify(
        &mut self,
        pass: DraftPass,
        agreement: &Agreement<'_>,
    ) -> Result<CertifiedPass, Returned<DraftPass>>
        ensures answer { Hands (certify_answer N.Order.meaning F.Order.meaning self.old agreement.now) result }
        ensures record { self.new ≡ if_so (certify_answer N.Order.meaning F.Order.meaning self.old agreement.now) (with_agreement self.old agreement.now) self.old }
        ensures copied { OnOk result (known N.Order.meaning F.Order.meaning self.new ≡ offered N.Order.meaning F.Order.meaning self.old agreement.now) }
        ensures secrets { OnOk result (KeepsSecrets (known N.Order.meaning F.Order.meaning self.new)) }
    {
        exchanged(self.admit(agreement), pass, CertifiedPass { seal: () })
    }

    // Sets the values, or leaves everything as it was.
    fn set_values(&mut self, near: &[u64], far: &[u64]) -> Result<(), CallFault>
        ensures answer { result ≡ open_answer N.Order.meaning F.Order.meaning self.old near.now far.now }
        ensures record { self.new ≡ if_so (open_answer N.Order.meaning F.Order.meaning self.old near.now far.now) (opened_with self.old near.now far.now) self.old }
    {
        at_stage(self.stage, Stage::Certified)?;
        of_length(Side::Near, self.table.items.near.as_slice(), near)?;
        of_length(Side::Far, self.table.items.far.as_slice(), far)?;
        let near = FixedList::of(0, near).places;
        let far = FixedList::of(0, far).places;
        self.table.values = Values { near, far };
        self.stage = Stage::Open;
        Ok(())
    }

    // Opens the session with the values of the near items and of the far items.
    pub fn open(
        &mut self,
        pass: CertifiedPass,
        near: &[u64],
        far: &[u64],
    ) -> Result<OpenPass, Returned<CertifiedPass>>
        ensures answer { Hands (open_answer N.Order.meaning F.Order.meaning self.old near.now far.now) result }
        ensures record { self.new ≡ if_so (open_answer N.Order.meaning F.Order.meaning self.old near.now far.now) (opened_with self.old near.now far.now) self.old }
    {
        exchanged(self.set_values(near, far), pass, OpenPass { seal: () })
    }

    // Forgets the values, or leaves everything as it was.
    fn forget_values(&mut self) -> Result<(), CallFault>
        ensures answer { result ≡ stage_judged self.old.stage open_stage }
        ensures record { self.new ≡ if_so (stage_judged self.old.stage open_stage) (closed self.old) self.old }
    {
        at_stage(self.stage, Stage::Open)?;
        self.table.values = Values::ZERO;
        self.stage = Stage::Certified;
        Ok(())
    }

    // Sets the values to 0. The session may be opened again.
    pub fn close(&mut self, pass: OpenPass) -> Result<CertifiedPass, Returned<OpenPass>>
        ensures answer { Hands (stage_judged self.old.stage open_stage) result }
        ensures record { self.new ≡ if_so (stage_judged self.old.stage open_stage) (closed self.old) self.old }
    {
        exchanged(self.forget_values(), pass, CertifiedPass { seal: () })
    }
}

// Whether a list of values is as long as the items of its house, and so not too long.
fn of_length(side: Side, items: &[Item], values: &[u64]) -> Result<(), CallFault>
    ensures { result ≡ check (length values.now == length items.now) (CallFault.Values side (length items.now)) }
{
    let needed = items.len();
    check(
        values.len() == needed,
        CallFault::Values {
            side,
            needed: needed as u64,
        },
    )
}
