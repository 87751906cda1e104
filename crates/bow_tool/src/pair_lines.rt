// What is told of several devices: of each the transcripts of both its sessions.
ghost use Rattle.std.specs.Prelude.{◌≡◌, ◌++◌, IfOk, OnOk, option_copied};
ghost use Rattle.bow_tool.specs.PairLines.{device_text, devices_text, part_text, told_in, verdict_line};

use crate::verdicts::Verdict;
use bow_disk::Disk;
use bow_pair::Pair;
use bow_ranges::Ranges;
use bow_report::item_line;
use bow_session::Part;
use bow_units::NoMemory;
use std::alloc::Global;

// The lines of the first so many devices, and that of the verdict.
pub(crate) fn pair_lines<D: Disk + Drop, R: Ranges + Drop>(
    alloc: Global,
    pair: &Pair<D, R>,
    count: u32,
    verdict: Verdict,
) -> Result<Vec<u8>, NoMemory>
    ensures { IfOk result (λ text. text.items ≡ devices_text count pair.now.openings pair.now.laters
        ++ verdict_line verdict) }
{
    let mut text = Vec::new(alloc);
    for device in 0..count {
        push_device(alloc, &mut text, pair, device)?;
    }
    let line = verdict.line(alloc)?;
    text.extend_from_slice(&line)?;
    Ok(text)
}

// Adds the lines of a device.
fn push_device<D: Disk + Drop, R: Ranges + Drop>(
    alloc: Global,
    text: &mut Vec<u8>,
    pair: &Pair<D, R>,
    device: u32,
) -> Result<(), NoMemory>
    ensures { OnOk result (text.new.items ≡ text.old.items ++ device_text device pair.now.openings pair.now.laters) }
{
    let line = format!(in alloc; "device {device}\n")?;
    text.extend_from_slice(line.as_bytes())?;
    push_account(alloc, text, pair.account(device, 0))?;
    push_account(alloc, text, pair.account(device, 1))
}

// Adds the transcript of a session, where there was one.
fn push_account(alloc: Global, text: &mut Vec<u8>, account: Option<&Part>) -> Result<(), NoMemory>
    ensures { OnOk result (text.new.items ≡ text.old.items ++ told_in (option_copied account.entry)) }
{
    match account {
        Some(part) => push_part(alloc, text, part),
        None => Ok(()),
    }
}

// Adds the transcript of a session.
fn push_part(alloc: Global, text: &mut Vec<u8>, part: &Part) -> Result<(), NoMemory>
    ensures { OnOk result (text.new.items ≡ text.old.items ++ part_text part.now) }
{
    for item in part.journal() {
        let line = item_line(alloc, *item, part.content(*item))?;
        text.extend_from_slice(&line)?;
    }
    Ok(())
}
