// Where backups have put the content of each block: a table with one number for each.
ghost use Rattle.std.specs.Prelude.{◌≡◌, ◌<◌, ◌≤◌, ℕ, length, IfOk};
ghost use Rattle.bow_units.specs.Sizes.{IsValid};
ghost use Rattle.bow_log.specs.Generations.{IsEntry, backup_of};
ghost use Rattle.bow_chain.specs.Places.{hop};
ghost use Rattle.bow_chain.specs.Tables.{place_in, IsTable, Follows};

use bow_log::Entry;
use bow_units::Geometry;
use std::alloc::{AllocError, Global};

// Puts each block in its own place.
fn put_back(places: &mut [u32])
    requires few { length places.old ≤ 1048576 }
    ensures long { length places.new ≡ length places.old }
    ensures own { (x : ℕ) → x < length places.old → place_in places.new x ≡ x }
{
    for block in 0..places.len() {
        places[block] = block as u32;
    }
}

/// The table before any log: each block lies in its own place. It has one number for each block.
pub(crate) fn own_places(alloc: Global, geometry: Geometry) -> Result<Vec<u32>, AllocError>
    requires valid { IsValid geometry }
    ensures table { IfOk result (λ places. IsTable geometry places.items) }
    ensures own { IfOk result (λ places. Follows geometry (λ x. x) places.items) }
{
    let mut places = vec![in alloc; 0u32; geometry.blocks as usize]?;
    put_back(&mut places);
    Ok(places)
}

/// Takes in one entry more, where those after it are in the table: a block of its source lies where that of its dest
/// does.
pub(crate) fn take_in(places: &mut [u32], geometry: Geometry, entry: Entry)
    requires valid { IsValid geometry }
    requires entry { IsEntry geometry entry }
    requires table { IsTable geometry places.old }
    ensures table { IsTable geometry places.new }
    ensures moved { Follows geometry (λ x. place_in places.old (hop (backup_of geometry entry) x)) places.new }
{
    let source = entry.source_blocks(geometry);
    let dest = entry.dest_blocks(geometry);
    for offset in 0..source.count {
        places[(source.first + offset) as usize] = places[(dest.first + offset) as usize];
    }
}
