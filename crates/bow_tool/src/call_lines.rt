// What is told of the calls of a script's callers: the transcript of their journal, and their receipts.
ghost use Rattle.std.specs.Prelude.{◌≡◌, ◌+◌, ◌-◌, ◌^◌, ◌%◌, ◌<◌, ◌≤◌, ◌∷◌, ◌++◌, ℕ, [], Some, None, length};
ghost use Rattle.std.specs.Prelude.{slice_get, option_copied, IfOk, IfSome, OnOk};
ghost use Rattle.std.specs.List.{flat_map};
ghost use Rattle.std.specs.Option.{option_map};
ghost use Rattle.bow_units.specs.Sizes.{IsBlockSize};
ghost use Rattle.bow_flat.specs.Flat.{block_at};
ghost use Rattle.bow_session.specs.Contents.{block_read, bytes_given, content_in};
ghost use Rattle.bow_report.specs.Texts.{item_line as line_of, transcript_text};
ghost use Rattle.bow_receipts.specs.Asking.{blank, given_of};
ghost use Rattle.bow_receipts.specs.Closing.{entries_of, plan_by};
ghost use Rattle.bow_receipts.specs.Served.{HaveBlocksRead, entry_of};
ghost use Rattle.bow_receipts.specs.declared.asks.Call.{Call as CallValue};
ghost use Rattle.bow_tool.specs.CallLines.{AreNumbered, IsCallIn, bytes_by, receipt_line, receipts_text};

use bow_receipts::Call;
use bow_report::item_line;
use bow_session::Item;
use bow_units::{Geometry, NoMemory, Op};
use std::alloc::Global;

// The transcript of this journal, with what its calls were given, and the receipts of the first so many lanes.
pub(crate) fn call_lines(
    alloc: Global,
    geometry: Geometry,
    lanes: usize,
    journal: &[Item],
    calls: &[Call],
) -> Result<Vec<u8>, NoMemory>
    requires size { IsBlockSize geometry.block_size }
    requires numbers { AreNumbered (entries_of calls.now) }
    requires blocks { HaveBlocksRead geometry.block_size (entries_of calls.now) }
    ensures { IfOk result (λ text. text.items ≡ transcript_text (plan_by geometry lanes (entries_of calls.now))
        (bytes_by (entries_of calls.now)) journal.now ++ receipts_text lanes (entries_of calls.now)) }
{
    let mut text = Vec::new(alloc);
    push_items(alloc, &mut text, geometry, journal, calls)?;
    for lane in 0..lanes {
        push_receipts(alloc, &mut text, lane, calls)?;
    }
    Ok(text)
}

// Adds the transcript. The call of an item is sought from the first one on that is not answered yet.
fn push_items(
    alloc: Global,
    text: &mut Vec<u8>,
    geometry: Geometry,
    journal: &[Item],
    calls: &[Call],
) -> Result<(), NoMemory>
    requires size { IsBlockSize geometry.block_size }
    requires numbers { AreNumbered (entries_of calls.now) }
    requires blocks { HaveBlocksRead geometry.block_size (entries_of calls.now) }
    ensures { OnOk result ((callers : ℕ) → text.new.items ≡ text.old.items ++ transcript_text (plan_by geometry callers
        (entries_of calls.now)) (bytes_by (entries_of calls.now)) journal.now) }
{
    let mut answers = 0;
    for item in journal {
        push_told(alloc, text, geometry, *item, calls, answers)?;
        answers = answers_with(answers, *item);
    }
    Ok(())
}

// So many answers, and this item.
fn answers_with(answers: usize, item: Item) -> usize
    requires { answers < 2 ^ 64 - 1 }
    ensures { result ≤ answers + 1 }
{
    match item {
        Item::Answered { .. } => answers + 1,
        Item::Wrote { .. } | Item::Got { .. } => answers,
    }
}

// Adds the line of an item, whose call is sought from this one on.
fn push_told(
    alloc: Global,
    text: &mut Vec<u8>,
    geometry: Geometry,
    item: Item,
    calls: &[Call],
    from: usize,
) -> Result<(), NoMemory>
    requires size { IsBlockSize geometry.block_size }
    requires numbers { AreNumbered (entries_of calls.now) }
    requires blocks { HaveBlocksRead geometry.block_size (entries_of calls.now) }
    ensures { OnOk result ((callers : ℕ) → text.new.items ≡ text.old.items ++ line_of item (content_in (plan_by geometry
        callers (entries_of calls.now)) (bytes_by (entries_of calls.now)) item)) }
{
    let line = item_line(alloc, item, content_of(calls, from, geometry, item))?;
    text.extend_from_slice(&line)?;
    Ok(())
}

// What an item of a read has read, by its call, which is sought from this one on; `None` of any other item.
fn content_of(calls: &[Call], from: usize, geometry: Geometry, item: Item) -> Option<&[u8]>
    requires size { IsBlockSize geometry.block_size }
    requires numbers { AreNumbered (entries_of calls.now) }
    requires blocks { HaveBlocksRead geometry.block_size (entries_of calls.now) }
    ensures bytes { (callers : ℕ) → bytes_given (option_copied result) ≡ content_in (plan_by geometry callers
        (entries_of calls.now)) (bytes_by (entries_of calls.now)) item }
    ensures block { IfSome result (λ bytes. IsBlockSize (length bytes.now)) }
{
    let Item::Got {
        lane,
        number,
        block,
    } = item
    else {
        return None;
    };
    match call_of(calls, from, lane, number) {
        Some(call) => block_of(call, geometry.block_size, block),
        None => None,
    }
}

// What a call has read of a block; `None` where it has read nothing of it.
fn block_of(call: &Call, block_size: u32, block: u64) -> Option<&[u8]>
    requires size { IsBlockSize block_size }
    requires whole { length call.now.answer.bytes % block_size ≡ 0 }
    ensures bytes { bytes_given (option_copied result)
        ≡ block_read block_size (Some (blank call.now.op)) call.now.answer.bytes block }
    ensures block { IfSome result (λ bytes. length bytes.now ≡ block_size) }
{
    let Op::Read(extent, _) = &call.op else {
        return None;
    };
    block_in(
        call.answer.bytes.as_slice(),
        block_size,
        extent.first,
        block,
    )
}

// What whole blocks from this one on have of a block.
fn block_in(bytes: &[u8], size: u32, first: u64, block: u64) -> Option<&[u8]>
    requires size { IsBlockSize size }
    requires whole { length bytes.now % size ≡ 0 }
    ensures bytes { bytes_given (option_copied result) ≡ block_at size bytes.now (block - first) }
    ensures block { IfSome result (λ given. length given.now ≡ size) }
{
    let size = size as usize;
    let from = block.saturating_sub(first) as usize;
    if from >= bytes.len() / size {
        return None;
    }
    Some(&bytes[from * size..from * size + size])
}

// The call of this request: it is sought from this one on, and then from the beginning.
fn call_of(calls: &[Call], from: usize, lane: u32, number: u32) -> Option<&Call>
    requires { AreNumbered (entries_of calls.now) }
    ensures { option_map entry_of (option_copied result) ≡ slice_get (given_of lane (entries_of calls.now)) number }
{
    let (before, behind) = calls.split_at(from.min(calls.len()));
    match seek(behind, lane, number) {
        Some(call) => Some(call),
        None => seek(before, lane, number),
    }
}

// The first call of this request.
fn seek(calls: &[Call], lane: u32, number: u32) -> Option<&Call>
    ensures found { (call : CallValue) → option_copied result ≡ Some call → IsCallIn calls.now lane number call }
    ensures none { option_copied result ≡ None → (call : CallValue) → IsCallIn calls.now lane number call → ⊥ }
{
    for call in calls {
        if call.lane == lane && call.number == number {
            return Some(call);
        }
    }
    None
}

// Adds the receipts of a lane.
fn push_receipts(
    alloc: Global,
    text: &mut Vec<u8>,
    lane: usize,
    calls: &[Call],
) -> Result<(), NoMemory>
    ensures { OnOk result (text.new.items ≡ text.old.items ++ flat_map receipt_line (given_of lane (entries_of
        calls.now))) }
{
    for call in calls {
        push_receipt_of(alloc, text, lane, call)?;
    }
    Ok(())
}

// Adds the receipt of a call, where it is of this lane.
fn push_receipt_of(
    alloc: Global,
    text: &mut Vec<u8>,
    lane: usize,
    call: &Call,
) -> Result<(), NoMemory>
    ensures { OnOk result (text.new.items ≡ text.old.items ++ flat_map receipt_line (given_of lane (entry_of call.now ∷
        []))) }
{
    if call.lane as usize != lane {
        return Ok(());
    }
    let (own, number, place) = (call.lane, call.number, call.answer.place);
    let line = format!(in alloc; "receipt {own}.{number} at {place}\n")?;
    text.extend_from_slice(line.as_bytes())?;
    Ok(())
}
