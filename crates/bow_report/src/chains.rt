// The lines of a chain of logs, and of what is wrong with one.
ghost use Rattle.std.specs.Prelude.{◌≡◌, ◌<◌, ◌++◌, ◌∷◌, [], map, IfOk, OnOk};
ghost use Rattle.std.specs.String.{string_bytes};
ghost use Rattle.bow_log.specs.Generations.{fields_of};
ghost use Rattle.bow_report.specs.Chains.{chain_text, entry_line, entry_lines, generation_line};

use bow_chain::{Chain, ChainFault};
use bow_log::{Entry, Log, LogFault, Magic};
use bow_units::{NoMemory, hex_digit};
use std::alloc::Global;
use std::fmt::{self, Write};

/// A sum, as lines have it: eight lower-case hexadecimal digits.
#[derive(Clone, Copy)]
struct SumText(u32);

impl fmt::Display for SumText {
    ghost use Rattle.std.specs.Prelude.{Some};
    ghost use Rattle.bow_report.specs.Chains.{sum_text};

    ghost output = { λ x. Some (sum_text x.0) };

    #[tactic(auto, unfolding(crate::specs::Chains::sum_text))]
    fn fmt<W: fmt::Write>(&self, f: &mut fmt::Formatter<W>) -> fmt::Result {
        let sum = self.0;
        write!(
            f,
            "{}{}{}{}{}{}{}{}",
            hex_digit((sum / 0x1000_0000 % 16) as u8),
            hex_digit((sum / 0x100_0000 % 16) as u8),
            hex_digit((sum / 0x10_0000 % 16) as u8),
            hex_digit((sum / 0x1_0000 % 16) as u8),
            hex_digit((sum / 0x1000 % 16) as u8),
            hex_digit((sum / 0x100 % 16) as u8),
            hex_digit((sum / 0x10 % 16) as u8),
            hex_digit((sum % 16) as u8)
        )
    }
}

/// A magic, as a line has it.
#[derive(Clone, Copy)]
struct MagicText(Magic);

impl fmt::Display for MagicText {
    ghost use Rattle.std.specs.Prelude.{Some};
    ghost use Rattle.bow_report.specs.Chains.{magic_text};

    ghost output = { λ x. Some (magic_text x.0) };

    fn fmt<W: fmt::Write>(&self, f: &mut fmt::Formatter<W>) -> fmt::Result {
        match self.0 {
            Magic::Log => f.write_str("log"),
            Magic::Restoring => f.write_str("restoring"),
        }
    }
}

/// What is wrong with the fields of a log, as lines have it.
#[derive(Clone, Copy)]
pub struct LogFaultText(pub LogFault);

impl fmt::Display for LogFaultText {
    ghost use Rattle.std.specs.Prelude.{Some};
    ghost use Rattle.bow_report.specs.Chains.{log_fault_text};

    ghost output = { λ x. Some (log_fault_text x.0) };

    fn fmt<W: fmt::Write>(&self, f: &mut fmt::Formatter<W>) -> fmt::Result {
        match self.0 {
            LogFault::NoMagic => f.write_str("no magic"),
            LogFault::Version => f.write_str("version"),
            LogFault::HeaderSize => f.write_str("header size"),
            LogFault::BlockSize => f.write_str("block size"),
            LogFault::Count => f.write_str("count"),
            LogFault::Tail => f.write_str("tail"),
            LogFault::Sector0 => f.write_str("sector0"),
            LogFault::Entry(index) => write!(f, "entry {index}"),
        }
    }
}

/// Why no chain was loaded, as its line has it, without the line feed: `no log`, or `bad chain: depth D` with `log T`,
/// `sequence F wanted W` or `entry I sum F stated S`, or `disk fault` or `no memory`.
#[derive(Clone, Copy)]
pub struct ChainFaultText(pub ChainFault);

impl fmt::Display for ChainFaultText {
    ghost use Rattle.std.specs.Prelude.{Some};
    ghost use Rattle.bow_report.specs.Chains.{chain_fault_text};

    ghost output = { λ x. Some (chain_fault_text x.0) };

    fn fmt<W: fmt::Write>(&self, f: &mut fmt::Formatter<W>) -> fmt::Result {
        match self.0 {
            ChainFault::NoLog => f.write_str("no log"),
            ChainFault::BadLog { depth, fault } => {
                write!(f, "bad chain: depth {depth} log {}", LogFaultText(fault))
            }
            ChainFault::BadSequence {
                depth,
                found,
                wanted,
            } => write!(
                f,
                "bad chain: depth {depth} sequence {found} wanted {wanted}"
            ),
            ChainFault::BadSum {
                depth,
                index,
                found,
                stated,
            } => {
                let found = SumText(found);
                let stated = SumText(stated);
                write!(
                    f,
                    "bad chain: depth {depth} entry {index} sum {found} stated {stated}"
                )
            }
            ChainFault::DiskFault => f.write_str("disk fault"),
            ChainFault::NoMemory => f.write_str("no memory"),
        }
    }
}

/// The line of a log.
#[derive(Clone, Copy)]
struct GenerationLine {
    sequence: u32,
    magic: Magic,
    sector0: u64,
    entries: usize,
}

impl fmt::Display for GenerationLine {
    ghost use Rattle.std.specs.Prelude.{Some};
    ghost use Rattle.bow_report.specs.Chains.{generation_text};

    ghost output = { λ x. Some (generation_text x.sequence x.magic x.sector0 x.entries) };

    #[tactic(auto, unfolding(crate::specs::Chains::generation_text))]
    fn fmt<W: fmt::Write>(&self, f: &mut fmt::Formatter<W>) -> fmt::Result {
        let sequence = self.sequence;
        let magic = MagicText(self.magic);
        let sector0 = self.sector0;
        let entries = self.entries;
        writeln!(
            f,
            "generation {sequence} magic {magic} sector0 {sector0} entries {entries}"
        )
    }
}

/// An entry, as its line has it.
#[derive(Clone, Copy)]
struct EntryText(Entry);

impl fmt::Display for EntryText {
    ghost use Rattle.std.specs.Prelude.{Some};
    ghost use Rattle.bow_report.specs.Chains.{entry_text};

    ghost output = { λ x. Some (entry_text x.0) };

    #[tactic(auto, unfolding(crate::specs::Chains::entry_text))]
    fn fmt<W: fmt::Write>(&self, f: &mut fmt::Formatter<W>) -> fmt::Result {
        let source = self.0.source;
        let dest = self.0.dest;
        let size = self.0.size;
        let sum = SumText(self.0.sum);
        write!(f, "source {source} dest {dest} size {size} sum {sum}")
    }
}

/// The lines of a chain, the newest log first: `generation Q magic M sector0 P entries C` for each log, with its
/// sequence, `log` or `restoring`, the sector of the current block 0 and the number of entries; and behind it for each
/// entry, from the oldest on, `entry I source S dest D size Z sum X`, with the sectors, the bytes, and eight
/// hexadecimal digits.
///
/// `NoMemory` is answered where there is no memory for the text.
pub fn chain_lines(alloc: Global, chain: &Chain) -> Result<Vec<u8>, NoMemory>
    ensures { IfOk result (λ text. text.items ≡ chain_text (map (fields_of chain.now.geometry) chain.now.generations)) }
{
    let mut text = String::new(alloc);
    for log in chain.generations() {
        push_log(&mut text, log)?;
    }
    Ok(text.into_bytes())
}

// Adds the lines of a log.
fn push_log(out: &mut String, log: &Log) -> Result<(), NoMemory>
    ensures { OnOk result (string_bytes out.new ≡ string_bytes out.old
        ++ (generation_line log.now ++ entry_lines 0 log.now.entries)) }
{
    let generation = GenerationLine {
        sequence: log.sequence,
        magic: log.magic,
        sector0: log.sector0,
        entries: log.entries.len(),
    };
    write!(out, "{generation}")?;
    push_entries(out, &log.entries)
}

fn push_entries(out: &mut String, entries: &[Entry]) -> Result<(), NoMemory>
    ensures { OnOk result (string_bytes out.new ≡ string_bytes out.old ++ entry_lines 0 entries.now) }
{
    for index in 0..entries.len() {
        push_entry(out, index, entries[index])?;
    }
    Ok(())
}

fn push_entry(out: &mut String, index: usize, entry: Entry) -> Result<(), NoMemory>
    ensures { OnOk result (string_bytes out.new ≡ string_bytes out.old ++ entry_line index entry) }
{
    let entry = EntryText(entry);
    writeln!(out, "entry {index} {entry}")?;
    Ok(())
}
