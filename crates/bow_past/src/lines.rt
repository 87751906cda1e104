// The lines of a reader.
ghost use Rattle.std.specs.Prelude.{◌≡◌, ◌+◌, ◌<◌, ◌++◌, ◌^◌, ℕ, length, slice_get, IfOk, OnOk, Some};
ghost use Rattle.std.specs.List.{sum_by};
ghost use Rattle.std.specs.String.{string_bytes};
ghost use Rattle.bow_past.specs.Lines.{IsWhole, ended_line, ended_lines, ended_text, is_got, reading_text};
ghost use Rattle.bow_past.specs.declared.ended.Ended.{Ended};

use crate::ended::Ended;
use crate::readers::Past;
use bow_units::{NoMemory, push_content};
use std::alloc::Global;
use std::fmt::Write;

/// The lines of a reader: for each block that ended, in order, `past B CONTENT`, `past B disk fault` or `past B bad
/// log`; and then `past read N of COUNT`, where N blocks were got.
///
/// `NoMemory` is answered where there is no memory for the text.
pub fn reading_lines(alloc: Global, past: &Past) -> Result<Vec<u8>, NoMemory>
    ensures { IfOk result (λ text. text.items ≡ reading_text past.now) }
{
    let extent = past.extent();
    let ended = past.ended();
    let mut text = String::new(alloc);
    push_ended(&mut text, extent.first, ended)?;
    let got = blocks_got(ended);
    let count = extent.count;
    writeln!(text, "past read {got} of {count}")?;
    Ok(text.into_bytes())
}

// How many blocks were got.
fn blocks_got(all: &[Ended]) -> usize
    ensures { result ≡ sum_by is_got all.now }
{
    let mut got = 0;
    for ended in all {
        if matches!(ended, Ended::Got(_)) {
            got += 1;
        }
    }
    got
}

// Adds a line for each block that ended, from this one on.
fn push_ended(out: &mut String, first: u64, all: &[Ended]) -> Result<(), NoMemory>
    requires small { first + length all.now < 2 ^ 64 }
    requires sized { (i : ℕ) (e : Ended) → slice_get all.now i ≡ Some e → IsWhole e }
    ensures { OnOk result (string_bytes out.new ≡ string_bytes out.old ++ ended_lines first all.now) }
{
    for index in 0..all.len() {
        push_line(out, first + index as u64, &all[index])?;
    }
    Ok(())
}

// Adds the line of a block that ended.
fn push_line(out: &mut String, block: u64, ended: &Ended) -> Result<(), NoMemory>
    requires sized { IsWhole ended.now }
    ensures { OnOk result (string_bytes out.new ≡ string_bytes out.old ++ ended_line block ended.now) }
{
    write!(out, "past {block} ")?;
    push_text(out, ended)?;
    out.push('\n')?;
    Ok(())
}

// Adds what became of a block.
fn push_text(out: &mut String, ended: &Ended) -> Result<(), NoMemory>
    requires sized { IsWhole ended.now }
    ensures { OnOk result (string_bytes out.new ≡ string_bytes out.old ++ ended_text ended.now) }
{
    match ended {
        Ended::Got(bytes) => push_content(out, bytes.as_slice()),
        Ended::Failed => push_word(out, "disk fault"),
        Ended::Strange => push_word(out, "bad log"),
    }
}

fn push_word(out: &mut String, word: &str) -> Result<(), NoMemory>
    ensures { OnOk result (string_bytes out.new ≡ string_bytes out.old ++ word.now) }
{
    out.push_str(word)?;
    Ok(())
}
