// The items in views, one to a line: house, item, role and label.
use crate::words::{WrongCall, with_usage};
use agreement::{Item, Role};
use either::Either;
use refusal::Side;
use verdict::Opened;

// The view of a label of a house, in an opened sheet.
#[derive(Clone, Copy)]
struct View<'a> {
    opened: &'a Opened,
    side: Side,
    label: u64,
}

impl View<'_> {
    // Prints the items of one house in the view, each line begun by a text; whether there is a view.
    fn house_lines(self, rt: &HostRuntime, before: &str, house: Side) -> anyhow::Result<bool> {
        let session = &self.opened.session;
        let Some(numbers) = session.items_in_view(rt.alloc(), self.side, self.label, house)? else {
            return Ok(false);
        };
        let items = session.items(house);
        for number in numbers.iter() {
            if let Some(item) = items.get(*number as usize) {
                item_line(rt, before, house, *number, *item)?;
            }
        }
        Ok(true)
    }

    // The same of both houses.
    fn lines(self, rt: &HostRuntime, before: &str) -> anyhow::Result<bool> {
        Ok(self.house_lines(rt, before, Side::Near)? && self.house_lines(rt, before, Side::Far)?)
    }
}

fn item_line(
    rt: &HostRuntime,
    before: &str,
    house: Side,
    number: u64,
    item: Item,
) -> anyhow::Result<()> {
    let role = Either::from(Role::try_from(item.role));
    let label = item.label;
    println!(rt; "{before}{house} item {number} {role} label {label}")?;
    Ok(())
}

pub(crate) fn one_view(
    rt: &HostRuntime,
    opened: &Opened,
    side: Side,
    label: u64,
) -> anyhow::Result<()> {
    let view = View {
        opened,
        side,
        label,
    };
    if !view.lines(rt, "")? {
        return Err(with_usage(rt, WrongCall::UnknownLabel));
    }
    Ok(())
}

// The views of all labels of one house.
fn house_views(rt: &HostRuntime, opened: &Opened, side: Side) -> anyhow::Result<()> {
    for label in 0..opened.session.labels(side) {
        let before = format!(in rt.alloc(); "{side} label {label}: ")?;
        let view = View {
            opened,
            side,
            label,
        };
        let _known = view.lines(rt, before.as_str())?;
    }
    Ok(())
}

pub(crate) fn every_view(rt: &HostRuntime, opened: &Opened) -> anyhow::Result<()> {
    house_views(rt, opened, Side::Near)?;
    house_views(rt, opened, Side::Far)
}
