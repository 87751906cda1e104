// The transcript of a session.
ghost use Rattle.std.specs.Prelude.{◌≡◌, ◌++◌, IfOk, OnOk};
ghost use Rattle.std.specs.String.{string_bytes};
ghost use Rattle.bow_session.specs.Contents.{content_in};
ghost use Rattle.bow_session.specs.Sessions.{plan_in, state_in};
ghost use Rattle.bow_report.specs.Texts.{item_line, transcript_text};

use crate::lines::push_item;
use bow_disk::Disk;
use bow_ranges::Ranges;
use bow_session::{Item, Session};
use bow_units::NoMemory;
use std::alloc::Global;

/// The transcript of a session: one line for each item of its journal, in order. A block that was read is told with
/// what the buffer of its request has of it once that is answered, and before as zeros.
///
/// `NoMemory` is answered where there is no memory for the text.
pub fn transcript<D: Disk, R: Ranges + Drop>(
    alloc: Global,
    session: &Session<D, R>,
) -> Result<Vec<u8>, NoMemory>
    ensures { IfOk result (λ text. text.items
        ≡ transcript_text (plan_in session.now) (state_in session.now).kept session.now.journal) }
{
    let mut text = String::new(alloc);
    for item in session.journal() {
        push_told(&mut text, session, *item)?;
    }
    Ok(text.into_bytes())
}

// Adds the line of an item of the session's journal.
fn push_told<D: Disk, R: Ranges + Drop>(
    out: &mut String,
    session: &Session<D, R>,
    item: Item,
) -> Result<(), NoMemory>
    ensures { OnOk result (string_bytes out.new ≡ string_bytes out.old
        ++ item_line item (content_in (plan_in session.now) (state_in session.now).kept item)) }
{
    push_item(out, item, session.content(item))
}
