// The lines of a drill, and what they count.
ghost use Rattle.std.specs.Prelude.{◌≡◌, ◌*◌, ◌<◌, ◌≤◌, ℕ, true, count_by, length, IfOk};
ghost use Rattle.std.specs.List.{list_any};
ghost use Rattle.bow_script.specs.Drills.{used_blocks as used_of};
ghost use Rattle.bow_tool.specs.Drills.{HoldsPattern, IsDrillText, is_answer as answers, is_fault as faults, is_full as full, kept_line as kept_text, number_line as number_text, turns_line as turns_text};

use crate::restores::told_restored;
use bow_report::status_line;
use bow_restore::Restored;
use bow_session::Item;
use bow_units::{Draws, NoMemory, Outcome, Status, fill_pattern};
use std::alloc::Global;

// The five lines, where each block in use was kept.
pub(crate) fn drill_lines(
    alloc: Global,
    number: u64,
    status: Status,
    turns: u32,
    journal: &[Item],
    restored: Restored,
    kept: u32,
) -> Result<Vec<u8>, NoMemory>
    requires { kept ≡ used_of number }
    ensures { IfOk result (λ text. IsDrillText number status turns journal.now restored kept text.items) }
{
    let Ok(restored_line) = told_restored(alloc, restored) else {
        return Err(NoMemory);
    };
    let mut text = number_line(alloc, number)?;
    text.extend_from_slice(&status_line(alloc, status)?)?;
    text.extend_from_slice(&turns_line(alloc, turns, journal)?)?;
    text.extend_from_slice(&restored_line)?;
    text.extend_from_slice(&kept_line(alloc, kept, used_blocks(number))?)?;
    Ok(text)
}

// How many blocks stay in use, by the first draw.
pub(crate) fn used_blocks(number: u64) -> u32
    ensures is { result ≡ used_of number }
    ensures few { result ≤ 1024 }
{
    512 + Draws::new(number).draw(256)
}

fn number_line(alloc: Global, number: u64) -> Result<Vec<u8>, NoMemory>
    ensures { IfOk result (λ line. line.items ≡ number_text number) }
{
    let line = format!(in alloc; "drill {number}\n")?;
    Ok(line.into_bytes())
}

// The turns of the second section, and of its requests how many were answered, and how many found no space.
fn turns_line(alloc: Global, turns: u32, journal: &[Item]) -> Result<Vec<u8>, NoMemory>
    ensures { IfOk result (λ line. line.items ≡ turns_text turns journal.now) }
{
    let answered = count_answers(journal);
    let full = count_full(journal);
    let line = format!(in alloc; "turns {turns} answered {answered} no space {full}\n")?;
    Ok(line.into_bytes())
}

fn kept_line(alloc: Global, kept: u32, used: u32) -> Result<Vec<u8>, NoMemory>
    ensures { IfOk result (λ line. line.items ≡ kept_text kept used) }
{
    let line = format!(in alloc; "kept {kept} of {used}\n")?;
    Ok(line.into_bytes())
}

// How many requests of the second section were answered.
fn count_answers(journal: &[Item]) -> usize
    ensures { result ≡ count_by answers journal.now }
{
    journal.iter().filter(|item| is_answer(item)).count()
}

// How many of them found no space.
fn count_full(journal: &[Item]) -> usize
    ensures { result ≡ count_by full journal.now }
{
    journal.iter().filter(|item| is_full(item)).count()
}

// Whether it answers a request of the second section.
fn is_answer(item: &Item) -> bool
    ensures { result ≡ answers item.now }
{
    match *item {
        Item::Answered { lane, number, .. } => lane > 0 || number > 1,
        Item::Wrote { .. } | Item::Got { .. } => false,
    }
}

// Whether it answers one that found no space.
fn is_full(item: &Item) -> bool
    ensures { result ≡ full item.now }
{
    match *item {
        Item::Answered {
            lane,
            number,
            outcome: Outcome::NoSpace { .. },
        } => lane > 0 || number > 1,
        _ => false,
    }
}

// Whether it tells of a call that failed.
fn is_fault(item: &Item) -> bool
    ensures { result ≡ faults item.now }
{
    matches!(
        *item,
        Item::Answered {
            outcome: Outcome::DiskFault { .. },
            ..
        }
    )
}

// Whether an item tells of a call that failed.
pub(crate) fn tells_fault(journal: &[Item]) -> bool
    ensures { result ≡ list_any faults journal.now }
{
    journal.iter().any(|item| is_fault(item))
}

// How many of the first blocks of an image hold the pattern of their number.
pub(crate) fn count_kept(image: &[u8], used: u32) -> u32
    requires few { used ≤ 1024 }
    requires whole { length image.now ≡ 1024 * 512 }
    ensures all { ((b : ℕ) → b < used → HoldsPattern image.now b) → result ≡ used }
{
    let mut kept = 0;
    for number in 0..used {
        kept += kept_at(image, number);
    }
    kept
}

// 1 where this block of an image holds the pattern of its number, else 0.
fn kept_at(image: &[u8], number: u32) -> u32
    requires few { number < 1024 }
    requires whole { length image.now ≡ 1024 * 512 }
    ensures few { result ≤ 1 }
    ensures one { HoldsPattern image.now number → result ≡ 1 }
{
    if is_pattern(image, number) {
        return 1;
    }
    0
}

// Whether it holds that. Where it does, this says so.
fn is_pattern(image: &[u8], number: u32) -> bool
    requires few { number < 1024 }
    requires whole { length image.now ≡ 1024 * 512 }
    ensures { HoldsPattern image.now number → result ≡ true }
{
    let at = number as usize * 512;
    let mut wanted = [0u8; 512];
    fill_pattern(number as u64, 0, &mut wanted);
    let block = &image[at..at + 512];
    block == wanted.as_slice()
}
