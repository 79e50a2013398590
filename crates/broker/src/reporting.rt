// What there is to say about an agreement, one fact to a line.
use agreement::{Broken, Fault, Joined, Role};
use either::Either;
use order::Order;
use refusal::{Refusal, Side};

const SIDES: [Side; 2] = [Side::Near, Side::Far];

fn map_lines<N: Order, F: Order>(
    rt: &HostRuntime,
    joined: &Joined<'_, N, F>,
    own: Side,
) -> anyhow::Result<()> {
    let across = own.other();
    for (label, image) in joined.map(own).iter().enumerate() {
        println!(rt; "{own} label {label} goes to {across} label {image}")?;
    }
    Ok(())
}

// Which labels of one house are settled.
fn settled_lines<N: Order, F: Order>(
    rt: &HostRuntime,
    joined: &Joined<'_, N, F>,
    own: Side,
) -> anyhow::Result<()> {
    let trip = joined.trip(own);
    for label in 0..trip.from.count() {
        if trip.settled(label) {
            println!(rt; "{own} label {label} is settled: across and back it is itself again")?;
        } else {
            println!(rt; "{own} label {label} is not settled")?;
        }
    }
    Ok(())
}

// The items of one house in the view of a label.
fn item_lines<N: Order, F: Order>(
    rt: &HostRuntime,
    joined: &Joined<'_, N, F>,
    reader: Side,
    label: u64,
    house: Side,
) -> anyhow::Result<()> {
    let items = joined.items(house);
    let Some(numbers) = joined.items_in_view(rt.alloc(), reader, label, house)? else {
        return Ok(());
    };
    for number in &numbers {
        let Some(item) = items.get(*number as usize) else {
            continue;
        };
        let role = Either::from(Role::try_from(item.role));
        let at = item.label;
        println!(rt;
            "somebody cleared for {reader} label {label} may come to depend on {house} item {number}, {role}, label {at}"
        )?;
    }
    Ok(())
}

// For each label of one house, the items that somebody cleared for it may come to depend on.
fn view_lines<N: Order, F: Order>(
    rt: &HostRuntime,
    joined: &Joined<'_, N, F>,
    reader: Side,
) -> anyhow::Result<()> {
    for label in 0..joined.house(reader).count() {
        for house in SIDES {
            item_lines(rt, joined, reader, label, house)?;
        }
    }
    Ok(())
}

fn accepted<N: Order, F: Order>(rt: &HostRuntime, joined: &Joined<'_, N, F>) -> anyhow::Result<()> {
    println!(rt; "accepted")?;
    for side in SIDES {
        settled_lines(rt, joined, side)?;
    }
    for side in SIDES {
        view_lines(rt, joined, side)?;
    }
    Ok(())
}

// How a label climbs when it goes across and back again and again.
fn climb_lines<N: Order, F: Order>(
    rt: &HostRuntime,
    joined: &Joined<'_, N, F>,
    house: Side,
    start: u64,
) -> anyhow::Result<()> {
    let trip = joined.trip(house);
    let mut label = start;
    for round in 1..=trip.from.count() {
        let Some(next) = trip.again(label) else {
            break;
        };
        println!(rt; "round trip {round} takes {house} label {label} to {next}")?;
        label = next;
    }
    Ok(())
}

fn refused<N: Order, F: Order>(
    rt: &HostRuntime,
    joined: &Joined<'_, N, F>,
    fault: Fault,
) -> anyhow::Result<()> {
    let house = fault.side;
    let Refusal { number, p, q, .. } = Refusal::from(fault);
    println!(rt; "refused: number {number}, side {house}, p {p}, q {q}")?;
    if let Broken::Drifts { label } = fault.broken {
        println!(rt; "{house} label {label} has another image once it has gone across and back")?;
        climb_lines(rt, joined, house, label)?;
    }
    Ok(())
}

// The maps, the verdict, and what follows from it.
pub(crate) fn report<N: Order, F: Order>(
    rt: &HostRuntime,
    joined: &Joined<'_, N, F>,
) -> anyhow::Result<()> {
    for side in SIDES {
        map_lines(rt, joined, side)?;
    }
    match joined.certify() {
        Ok(()) => accepted(rt, joined),
        Err(fault) => refused(rt, joined, fault),
    }
}
