//! The program `bow`: Android's User Data Checkpoint for block devices, over an image in a file.
//!
//! `bow IMAGE ATTEMPTS BLOCK COMMAND` does what the command asks for, with the number of attempts that is kept in the
//! file ATTEMPTS: `play NUMBER` runs the script of standard input over the image on one thread, and `run SERVERS` by
//! threads; `restore`, `check` and `forward` work on the checkpoint that the image keeps; `start N`, `mark`, `abort`,
//! `needs-checkpoint` and `needs-rollback` work on the attempts; and `boot` does what a phone does as it boots. What it
//! tells goes to standard output. It ends with the status of `bow_tool::tool`.
//!
//! `pair NUMBER IMAGE..` and `pair-boot IMAGE..` work on IMAGE and one to seven further images, which commit together
//! or roll back; ATTEMPTS is then the file of the decision. These end with the status of `bow_tool::pair_tool`.
#![tactic(auto)]

ghost use Rattle.std.specs.Prelude.{◌≡◌, ◌+◌, ◌≤◌, IfOk, length};

use bow_disk::FileDisk;
use bow_tool::{pair_tool, tool};
use bow_units::{NoMemory, OpenGate, ReadSource, WriteSink};
use std::io;
use std::process::ExitCode;
use vold_meta::FileKeeper;

fn main(rt: HostRuntime) -> ExitCode {
    let Ok(words) = words(&rt) else {
        return without_memory(&rt);
    };
    let further = further_images(&words);
    if !further.is_empty() {
        return serve_several(&rt, &words, further);
    }
    let Ok(disk) = disk_on(&rt, words.first(), block_size(&words)) else {
        return without_memory(&rt);
    };
    let Ok(keeper) = keeper_of(&rt, &words) else {
        return without_memory(&rt);
    };
    let mut source = ReadSource::new(rt.reader());
    let mut sink = WriteSink::new(io::writer(&rt));
    let gate = OpenGate;
    let ended = tool(
        &rt,
        rt.alloc(),
        &words,
        disk,
        keeper,
        &mut source,
        &mut sink,
        &gate,
    );
    ExitCode::from(ended.status)
}

// Does what the words ask for on IMAGE and on the further images.
fn serve_several(rt: &HostRuntime, words: &[String], further: &[String]) -> ExitCode
    requires some { 1 ≤ length further.now }
    requires few { length further.now ≤ 7 }
{
    let Ok(disks) = disks_on(rt, words, further) else {
        return without_memory(rt);
    };
    let Ok(keeper) = keeper_of(rt, words) else {
        return without_memory(rt);
    };
    let mut source = ReadSource::new(rt.reader());
    let mut sink = WriteSink::new(io::writer(rt));
    let ended = pair_tool(rt.alloc(), words, disks, keeper, &mut source, &mut sink);
    ExitCode::from(ended.status)
}

// There was no memory before the call.
fn without_memory(rt: &HostRuntime) -> ExitCode {
    let _ = println!(rt; "no memory");
    ExitCode::from(11)
}

// The images behind IMAGE that `pair` and `pair-boot` name, where these are one to seven; none for any other command.
fn further_images(words: &[String]) -> &[String]
    ensures { length result.now ≤ 7 }
{
    let further = match words {
        [_, _, _, name, _, further @ ..] if name.as_str() == "pair" => further,
        [_, _, _, name, further @ ..] if name.as_str() == "pair-boot" => further,
        _ => return &[],
    };
    if further.len() > 7 {
        return &[];
    }
    further
}

// The disks on IMAGE and on the further images.
fn disks_on(
    rt: &HostRuntime,
    words: &[String],
    further: &[String],
) -> Result<Vec<FileDisk<HostRuntime>>, NoMemory>
    ensures { IfOk result (λ disks. length disks.items ≡ 1 + length further.now) }
{
    let mut disks = Vec::new(rt.alloc());
    disks.push(disk_on(rt, words.first(), block_size(words))?)?;
    for path in further {
        disks.push(disk_on(rt, Some(path), block_size(words))?)?;
    }
    Ok(disks)
}

// The disk on the image of this path. In place of a path that is missing it is empty.
fn disk_on(
    rt: &HostRuntime,
    path: Option<&String>,
    block_size: u32,
) -> Result<FileDisk<HostRuntime>, NoMemory> {
    let path = match path {
        Some(path) => path.clone()?,
        None => String::new(rt.alloc()),
    };
    Ok(FileDisk::new(rt.clone()?, path, block_size))
}

// The keeper of the file ATTEMPTS.
fn keeper_of(rt: &HostRuntime, words: &[String]) -> Result<FileKeeper<HostRuntime>, NoMemory> {
    let path = match words.get(1) {
        Some(path) => path.clone()?,
        None => String::new(rt.alloc()),
    };
    FileKeeper::new(rt.alloc(), rt.clone()?, path)
}

// The words after the program's name, and none where one of them is no text.
fn words(rt: &HostRuntime) -> Result<Vec<String>, NoMemory> {
    let mut words = Vec::new(rt.alloc());
    match std::env::args(rt) {
        Ok(all) => {
            for word in all.skip(1) {
                words.push(word)?;
            }
            Ok(words)
        }
        Err(error) if error.kind() == io::ErrorKind::OutOfMemory => Err(NoMemory),
        Err(_) => Ok(words),
    }
}

// The block size that BLOCK names, and 512 for any other word: the call refuses it.
fn block_size(words: &[String]) -> u32 {
    match words.get(2) {
        Some(word) => match word.as_str() {
            "1024" => 1024,
            "2048" => 2048,
            "4096" => 4096,
            _ => 512,
        },
        None => 512,
    }
}
