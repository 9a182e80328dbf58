// What leaves list: beside their own position what they are listed with.
ghost use Rattle.std.specs.Prelude.{◌≡◌, ◌<◌, ◌≤◌, ◌⊎◌, ◌↔◌, IfErr, IsTrue, OnOk, length};
ghost use Rattle.mate_facts.specs.Entries.{positions_of};
ghost use Rattle.position_places.specs.Places.{ArePlacesOf};
ghost use Rattle.cert_extract.specs.Listing.{HasMetLeaf, HasPutAll, IsEndInLeaf, IsEndInSet, IsLowerThanListed, IsWanted, StandsBelow};

use crate::ends::ExtractEnd;
use crate::listing::{list_entry, list_position};
use board_core::Position;
use mate_facts::MateEntry;
use position_places::Places;

// Whether the position is listed, with no greater rank than this.
fn stands_below(places: &Places, entries: &[MateEntry], position: &Position, rank: u32) -> bool
    requires { ArePlacesOf places.now (positions_of entries.now) }
    ensures below { IsTrue result → StandsBelow entries.now position.now rank }
    ensures lower { ¬ IsTrue result → IsLowerThanListed entries.now position.now rank }
{
    match places.find(position) {
        Some(place) => entries[place].rank.number <= rank,
        None => false,
    }
}

// Whether a leaf of this rank about the position lists the entry, which is one of its set.
fn is_wanted(entry: &MateEntry, position: &Position, rank: u32) -> bool
    ensures { IsTrue result ↔ ((entry.now.rank.number < rank)
        ⊎ ((entry.now.rank.number ≡ rank) × (entry.now.at ≡ position.now))) }
{
    entry.rank.number < rank || entry.rank.number == rank && entry.at.is_same(position)
}

/// Lists what a leaf of a mate says, of this rank and about the position: of its set its own entry,
/// and those of lower rank. Nothing changes where the position is listed with no greater rank.
pub(crate) fn list_leaf(
    places: &mut Places,
    entries: &mut Vec<MateEntry>,
    set: &[MateEntry],
    position: &Position,
    rank: u32,
    most: usize,
) -> Result<(), ExtractEnd>
    requires places { ArePlacesOf places.old (positions_of entries.old.items) }
    requires few { length entries.old.items ≤ most }
    ensures places { OnOk result (ArePlacesOf places.new (positions_of entries.new.items)) }
    ensures few { OnOk result (length entries.new.items ≤ most) }
    ensures met { OnOk result
        (HasMetLeaf set.now position.now rank entries.old.items entries.new.items) }
    ensures too_many { IfErr result
        (IsEndInLeaf most set.now position.now rank entries.old.items) }
{
    if stands_below(places, entries, position, rank) {
        return Ok(());
    }
    for entry in set {
        if is_wanted(entry, position, rank) {
            list_entry(places, entries, entry, most)?;
        }
    }
    Ok(())
}

/// Lists these positions, each where it isn't listed.
pub(crate) fn list_set(
    places: &mut Places,
    positions: &mut Vec<Position>,
    set: &[Position],
    most: usize,
) -> Result<(), ExtractEnd>
    requires places { ArePlacesOf places.old positions.old.items }
    requires few { length positions.old.items ≤ most }
    ensures places { OnOk result (ArePlacesOf places.new positions.new.items) }
    ensures few { OnOk result (length positions.new.items ≤ most) }
    ensures put { OnOk result (HasPutAll set.now positions.old.items positions.new.items) }
    ensures too_many { IfErr result (IsEndInSet most set.now positions.old.items) }
{
    for position in set {
        list_position(places, positions, position, most)?;
    }
    Ok(())
}
