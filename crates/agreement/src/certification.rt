ghost use Rattle.std.specs.Prelude.{◌≡◌, [], is_ok, IfErr, Decides};
ghost use Rattle.refusal.specs.Judging.{◌⨟◌, under};
ghost use Rattle.refusal.specs.declared.Side.TheVariants.{Near, Far};
ghost use Rattle.agreement.specs.Agreements.{joint, joined};
ghost use Rattle.agreement.specs.Certified.{certified, rule_judged, rules, on, FirstBroken, Holds};

use crate::fault::{Broken, Fault};
use crate::item::Item;
use crate::joined::Joined;
use crate::rule::Rule;
use crate::trip::RoundTrip;
use order::Order;
use refusal::Side;

// An agreement as it is handed in: the two maps, by the image of each label, and the items of both houses.
#[derive(Clone, Copy)]
pub struct Agreement<'a> {
    pub out: &'a [u64],
    pub back: &'a [u64],
    pub near_items: &'a [Item],
    pub far_items: &'a [Item],
}

impl<'a, P: Order + Copy, Q: Order + Copy> RoundTrip<'a, P, Q> {
    // One rule on the way across and home, with the items of the house that it begins in.
    fn keeps(&self, rule: Rule, items: &[Item]) -> Result<(), Broken>
        ensures { result ≡ rule_judged (joint (P.Order.meaning self.now.from) (Q.Order.meaning self.now.to) self.now.out.now self.now.back.now items.now []) rule Near }
    {
        match rule {
            Rule::Totality => self.across().total(),
            Rule::Monotony => self.across().monotone(),
            Rule::Rise => self.rising(),
            Rule::Stability => self.stable(),
            Rule::Lawfulness => self.lawful(items),
        }
    }
}

impl<'a, N: Order, F: Order> Joined<'a, N, F> {
    // One rule on one side. By a match, so that the loops of the rules go over the orders themselves: over either of two
    // they take half as long again.
    fn keeps(&self, rule: Rule, side: Side) -> Result<(), Broken>
        ensures { result ≡ rule_judged (joined N.Order.meaning F.Order.meaning self.now) rule side }
    {
        let Agreement {
            out,
            back,
            near_items,
            far_items,
        } = self.agreement;
        match side {
            Side::Near => RoundTrip {
                from: self.near,
                to: self.far,
                out,
                back,
            }
            .keeps(rule, near_items),
            Side::Far => RoundTrip {
                from: self.far,
                to: self.near,
                out: back,
                back: out,
            }
            .keeps(rule, far_items),
        }
    }

    // One rule on one side, with the side that breaks it.
    fn kept_on(&self, rule: Rule, side: Side) -> Result<(), Fault>
        ensures { result ≡ under (on side) (rule_judged (joined N.Order.meaning F.Order.meaning self.now) rule side) }
    {
        self.keeps(rule, side)
            .map_err(|broken| Fault { side, broken })
    }

    // One rule on the near side and then on the far side.
    fn kept(&self, rule: Rule) -> Result<(), Fault>
        ensures { result ≡ (under (on Near) (rule_judged (joined N.Order.meaning F.Order.meaning self.now) rule Near) ⨟ under (on Far) (rule_judged (joined N.Order.meaning F.Order.meaning self.now) rule Far)) }
    {
        self.kept_on(rule, Side::Near)?;
        self.kept_on(rule, Side::Far)
    }

    // The rules in their order.
    fn judge(&self) -> Result<(), Fault>
        ensures { result ≡ certified (joined N.Order.meaning F.Order.meaning self.now) }
    {
        self.kept(Rule::Totality)?;
        self.kept(Rule::Monotony)?;
        self.kept(Rule::Rise)?;
        self.kept(Rule::Stability)?;
        self.kept(Rule::Lawfulness)
    }

    // Accepts exactly a Lagois connection with lawful items, and else names the first broken case.
    pub fn certify(&self) -> Result<(), Fault>
        ensures verdict { result ≡ certified (joined N.Order.meaning F.Order.meaning self.now) }
        ensures exact { Decides (is_ok result) (Holds (joined N.Order.meaning F.Order.meaning self.now)) }
        ensures first { IfErr result (FirstBroken (joined N.Order.meaning F.Order.meaning self.now) rules) }
    {
        self.judge()
    }
}
