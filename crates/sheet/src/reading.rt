ghost use Rattle.std.specs.Prelude.{◌≡◌, ◌≤◌, IfOk};
ghost use Rattle.format.specs.Formats.{Reads, field as field_format, turned as turned_format, read};
ghost use Rattle.house.specs.Houses.{labels as labels_of, Within};
ghost use Rattle.sheet.specs.Sheets.{listed as listed_format, graded as graded_format, house as house_format, entries as entries_format, item as item_format, items as items_format, front as front_format};

use crate::parts::{MOST_ITEMS, MOST_LABELS, Parts};
use agreement::Item;
use bits::Reader;
use fixed::FixedList;
use format::{Element, FieldFault, field, list, turned};
use house::House;

// A row of so many bits, the bit of label 0 first.
#[derive(Clone, Copy)]
struct Row {
    width: u64,
    ghost narrow: { width ≤ 32 },
}

impl Element for Row {
    type Value = u32;

    ghost reading = { λ row. read (turned_format row.width) };

    fn read(&self, reader: &mut Reader<'_>) -> Result<u32, FieldFault> {
        Ok(turned(reader, self.width)? as u32)
    }
}

// 5 bits: one less than the number of rows; then the rows.
#[tactic(auto, unfolding(crate::specs::Sheets::listed))]
fn listed(reader: &mut Reader<'_>) -> Result<House, FieldFault>
    ensures reads { Reads listed_format reader.old result reader.new }
    ensures limits { IfOk result Within }
{
    let count = field(reader, 5, 0, 31)? + 1;
    let rows = list(reader, &Row { width: count }, count, 0)?;
    Ok(House::Listed(rows))
}

// 3 bits: one less than the number of levels; 2 bits compartments.
#[tactic(auto, unfolding(crate::specs::Sheets::graded))]
fn graded(reader: &mut Reader<'_>) -> Result<House, FieldFault>
    ensures reads { Reads graded_format reader.old result reader.new }
    ensures limits { IfOk result Within }
{
    let levels = field(reader, 3, 0, 7)? + 1;
    let compartments = field(reader, 2, 0, 3)?;
    Ok(House::Graded {
        levels,
        compartments,
    })
}

// 2 bits kind, then the house of that kind.
#[tactic(auto, unfolding(crate::specs::Sheets::house))]
fn house(reader: &mut Reader<'_>) -> Result<House, FieldFault>
    ensures reads { Reads house_format reader.old result reader.new }
    ensures limits { IfOk result Within }
{
    match field(reader, 2, 0, 1)? {
        0 => listed(reader),
        1 => graded(reader),
        _ => unreachable!(),
    }
}

// How many labels a house has.
fn labels(house: &House) -> u64
    requires { Within house.now }
    ensures value { result ≡ labels_of house.now }
    ensures few { result ≤ 64 }
{
    match house {
        House::Listed(rows) => rows.count,
        House::Graded {
            levels,
            compartments,
        } => *levels << *compartments,
    }
}

// An entry of a map: 6 bits.
struct EntryField;

impl Element for EntryField {
    type Value = u64;

    ghost reading = { λ _. read (field_format 6 0 63) };

    fn read(&self, reader: &mut Reader<'_>) -> Result<u64, FieldFault> {
        field(reader, 6, 0, 63)
    }
}

// An entry for each label.
#[tactic(auto, unfolding(crate::specs::Sheets::entries))]
fn entries(reader: &mut Reader<'_>, count: u64) -> Result<FixedList<u64, MOST_LABELS>, FieldFault>
    requires { count ≤ 64 }
    ensures { Reads (entries_format count) reader.old result reader.new }
{
    list(reader, &EntryField, count, 0)
}

// An item: 2 bits role, 6 bits label.
struct ItemField;

impl Element for ItemField {
    type Value = Item;

    ghost reading = { λ _. read item_format };

    #[tactic(auto, unfolding(crate::specs::Sheets::item))]
    fn read(&self, reader: &mut Reader<'_>) -> Result<Item, FieldFault> {
        let mut ahead = *reader;
        let role = field(&mut ahead, 2, 0, 3)?;
        let label = field(&mut ahead, 6, 0, 63)?;
        *reader = ahead;
        Ok(Item { role, label })
    }
}

// 8 bits count, then the items.
#[tactic(auto, unfolding(crate::specs::Sheets::items))]
fn items(reader: &mut Reader<'_>) -> Result<FixedList<Item, MOST_ITEMS>, FieldFault>
    ensures { Reads items_format reader.old result reader.new }
{
    let count = field(reader, 8, 0, 255)?;
    list(reader, &ItemField, count, Item { role: 0, label: 0 })
}

// 4 bits form, both houses, both maps, both lists of items.
#[tactic(auto, unfolding(crate::specs::Sheets::front))]
pub(crate) fn front(reader: &mut Reader<'_>) -> Result<Parts, FieldFault>
    ensures { Reads front_format reader.old result reader.new }
{
    field(reader, 4, 1, 1)?;
    let near = house(reader)?;
    let far = house(reader)?;
    let out = entries(reader, labels(&near))?;
    let back = entries(reader, labels(&far))?;
    let near_items = items(reader)?;
    let far_items = items(reader)?;
    Ok(Parts {
        near,
        far,
        out,
        back,
        near_items,
        far_items,
    })
}
