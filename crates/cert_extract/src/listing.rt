// How positions are listed, each once.
ghost use Rattle.std.specs.Prelude.{◌≡◌, ◌≤◌, IfOk, IfErr, OnOk, length};
ghost use Rattle.mate_facts.specs.Entries.{positions_of};
ghost use Rattle.position_places.specs.Places.{ArePlacesOf};
ghost use Rattle.cert_extract.specs.Listing.{HasListedIf, HasPutIf, IsEndAt};

use crate::ends::ExtractEnd;
use board_core::Position;
use mate_facts::MateEntry;
use position_places::Places;

/// Lists an entry, no more than so many: behind the others where its position isn't listed, in
/// place of one of greater rank where it is; else nothing changes. Says whether it is listed now.
pub(crate) fn list_entry(
    places: &mut Places,
    entries: &mut Vec<MateEntry>,
    entry: &MateEntry,
    most: usize,
) -> Result<bool, ExtractEnd>
    requires places { ArePlacesOf places.old (positions_of entries.old.items) }
    requires few { length entries.old.items ≤ most }
    ensures places { OnOk result (ArePlacesOf places.new (positions_of entries.new.items)) }
    ensures few { OnOk result (length entries.new.items ≤ most) }
    ensures listed { IfOk result (λ is_new.
        HasListedIf is_new entries.old.items entry.now entries.new.items) }
    ensures too_many { IfErr result
        (IsEndAt most (positions_of entries.old.items) entry.now.at) }
{
    let place = places.add(&entry.at)?;
    if place == entries.len() {
        if place == most {
            return Err(ExtractEnd::TooMany);
        }
        entries.push(*entry)?;
        return Ok(true);
    }
    if entry.rank.number < entries[place].rank.number {
        entries[place] = *entry;
        return Ok(true);
    }
    Ok(false)
}

/// Lists a position behind the others, no more than so many, where it isn't listed. Says whether it
/// is listed now.
pub(crate) fn list_position(
    places: &mut Places,
    positions: &mut Vec<Position>,
    position: &Position,
    most: usize,
) -> Result<bool, ExtractEnd>
    requires places { ArePlacesOf places.old positions.old.items }
    requires few { length positions.old.items ≤ most }
    ensures places { OnOk result (ArePlacesOf places.new positions.new.items) }
    ensures few { OnOk result (length positions.new.items ≤ most) }
    ensures listed { IfOk result (λ is_new.
        HasPutIf is_new positions.old.items position.now positions.new.items) }
    ensures too_many { IfErr result (IsEndAt most positions.old.items position.now) }
{
    let place = places.add(position)?;
    if place != positions.len() {
        return Ok(false);
    }
    if most == place {
        return Err(ExtractEnd::TooMany);
    }
    positions.push(*position)?;
    Ok(true)
}
