// Explains one instruction file: what it says command by command, or its first fault.
use crate::words::RowWords;
use commands::command::Command;
use commands::source::source_of;
use format::read_file;
use instructions::faults::FileFault;
use instructions::file::InstructionFile;
use instructions::walking::{Change, Instruction};
use std::io;

// One line: where a command stands, its letter, and what it says.
fn print_heading(rt: &HostRuntime, length: usize, change: &Change<'_>) -> io::Result<()> {
    let heading = change.heading;
    let place = length
        .saturating_sub(change.records.left())
        .saturating_sub(Command::Instruction(heading).width());
    println!(rt; "  {place:>6}  I  {heading}")
}

// The records of an instruction, a line each.
fn print_records(rt: &HostRuntime, length: usize, change: &Change<'_>) -> io::Result<()> {
    let mut place = length.saturating_sub(change.records.left());
    for row in change.records {
        let letter = char::from(row.kind());
        let words = RowWords(row);
        println!(rt; "  {place:>6}  {letter}  {words}")?;
        place = place.saturating_add(Command::Record(row).width());
    }
    Ok(())
}

fn print_file(rt: &HostRuntime, name: &str, file: &InstructionFile<'_>) -> io::Result<()> {
    let length = file.len();
    println!(rt; "  {:>6}  H  {}", 0, file.header())?;
    let mut records = 0usize;
    for instruction in file.instructions() {
        let Instruction::Change(change) = instruction;
        print_heading(rt, length, &change)?;
        print_records(rt, length, &change)?;
        records = records.saturating_add(change.records.count());
    }
    // as many as the header says, since the file is well formed
    let instructions = file.header().count;
    println!(rt;
        "{name}: well formed, bytes: {length}, instructions: {instructions}, records: {records}"
    )
}

fn print_fault(rt: &HostRuntime, name: &str, bytes: &[u8], fault: FileFault) -> io::Result<()> {
    match source_of(bytes) {
        Some(source) => println!(rt; "{name}: {fault}; a file of {source}"),
        None => println!(rt; "{name}: {fault}; a file of no source"),
    }
}

// Explains the bytes of a file under its name.
pub fn inspect(rt: &HostRuntime, name: &str, bytes: &[u8]) -> io::Result<()> {
    match read_file(bytes) {
        Ok(file) => {
            println!(rt; "{name}:")?;
            print_file(rt, name, &file)
        }
        Err(fault) => print_fault(rt, name, bytes, fault),
    }
}
