ghost use Rattle.std.specs.Prelude.{◌≡◌, ◌≤◌, OnOk, OnErr};
ghost use Rattle.std.specs.List.{flat_map};
ghost use Rattle.std.specs.Io.KnownBytes.{Appends};
ghost use Rattle.dd_causes.specs.Appended.{AppendsFront};
ghost use Rattle.dd_causes.specs.Counts.{FailsOnlyIfRose};
ghost use Rattle.dd_lines.specs.Lines.{line_of, number_after};
ghost use Rattle.dd_machine.specs.Journal.{journal_line, journal_lines};

use dd_io::{IoFault, Sink, write_all, write_pieces};
use dd_machine::{Entry, Event};
use itoa::Buffer;

/// Writes the line of each entry. It takes no memory.
///
/// # Errors
/// A fault of the sink. A prefix of the lines was written then.
//
// The invariant of the loop: all lines but those of the entries that are left were appended, and the count of faults is as it was.
pub fn write_entries<O: Sink>(entries: &[Entry], out: &mut O) -> Result<(), IoFault>
    ensures all { OnOk result (Appends (O.taken out.old) (O.taken out.new) (journal_lines entries.now)) }
    ensures front { OnErr result (AppendsFront (O.taken out.old) (O.taken out.new) (journal_lines entries.now)) }
    ensures cause { FailsOnlyIfRose result (O.faults out.old) (O.faults out.new) }
    ensures kept { OnOk result (O.faults out.new ≡ O.faults out.old) }
    ensures later { O.faults out.old ≤ O.faults out.new }
{
    for entry in entries {
        journal_line(entry.event, out)?;
    }
    Ok(())
}

/// Writes the line of an event: its word and its numbers. It takes no memory.
///
/// # Errors
/// A fault of the sink. A prefix of the line was written then.
pub fn journal_line<O: Sink>(event: Event, out: &mut O) -> Result<(), IoFault>
    ensures all { OnOk result (Appends (O.taken out.old) (O.taken out.new) (journal_line event)) }
    ensures front { OnErr result (AppendsFront (O.taken out.old) (O.taken out.new) (journal_line event)) }
    ensures cause { FailsOnlyIfRose result (O.faults out.old) (O.faults out.new) }
    ensures kept { OnOk result (O.faults out.new ≡ O.faults out.old) }
    ensures later { O.faults out.old ≤ O.faults out.new }
{
    match event {
        Event::Ask { space, block } => write_line(b"! ask", &[space.into(), block.into()], out),
        Event::Rest => write_line(b"! rest", &[], out),
        Event::Put { block } => write_line(b"! put", &[block.into()], out),
        Event::Shift { block, space } => write_line(b"! shift", &[block.into(), space.into()], out),
        Event::Free { space, block } => write_line(b"! free", &[space.into(), block.into()], out),
        Event::Begin { region } => write_line(b"! begin", &[region.into()], out),
        Event::Hold { task } => write_line(b"! hold", &[task.into()], out),
        Event::Pick { space, block } => write_line(b"! pick", &[space.into(), block.into()], out),
        Event::Gone { space, block } => write_line(b"! gone", &[space.into(), block.into()], out),
        Event::Make { task, block } => write_line(b"! make", &[task.into(), block.into()], out),
        Event::Call { space, block } => write_line(b"! call", &[space.into(), block.into()], out),
        Event::Come { space, block } => write_line(b"! come", &[space.into(), block.into()], out),
        Event::Lend {
            task,
            block,
            source,
        } => write_line(b"! lend", &[task.into(), block.into(), source.into()], out),
        Event::Copy {
            task,
            block,
            source,
            count,
        } => write_line(
            b"! copy",
            &[task.into(), block.into(), source.into(), count],
            out,
        ),
        Event::Claim { task, worker } => write_line(b"! claim", &[task.into(), worker.into()], out),
        Event::Finish { task } => write_line(b"! finish", &[task.into()], out),
        Event::Back {
            block,
            source,
            count,
        } => write_line(b"! back", &[block.into(), source.into(), count], out),
        Event::Close { region } => write_line(b"! close", &[region.into()], out),
    }
}

/// Writes a line: its word and its numbers.
fn write_line<O: Sink>(word: &[u8], numbers: &[u64], out: &mut O) -> Result<(), IoFault>
    ensures all { OnOk result (Appends (O.taken out.old) (O.taken out.new) (line_of word.now numbers.now)) }
    ensures front { OnErr result (AppendsFront (O.taken out.old) (O.taken out.new) (line_of word.now numbers.now)) }
    ensures cause { FailsOnlyIfRose result (O.faults out.old) (O.faults out.new) }
    ensures kept { OnOk result (O.faults out.new ≡ O.faults out.old) }
    ensures later { O.faults out.old ≤ O.faults out.new }
{
    write_all(out, word)?;
    write_numbers(numbers, out)?;
    write_all(out, b"\n")
}

/// Writes each number behind a space.
//
// The invariant of the loop: all numbers but those that are left were appended, and the count of faults is as it was.
fn write_numbers<O: Sink>(numbers: &[u64], out: &mut O) -> Result<(), IoFault>
    ensures all { OnOk result (Appends (O.taken out.old) (O.taken out.new) (flat_map number_after numbers.now)) }
    ensures front { OnErr result (AppendsFront (O.taken out.old) (O.taken out.new) (flat_map number_after numbers.now)) }
    ensures cause { FailsOnlyIfRose result (O.faults out.old) (O.faults out.new) }
    ensures kept { OnOk result (O.faults out.new ≡ O.faults out.old) }
    ensures later { O.faults out.old ≤ O.faults out.new }
{
    for number in numbers {
        write_number(*number, out)?;
    }
    Ok(())
}

/// Writes a number behind a space.
fn write_number<O: Sink>(number: u64, out: &mut O) -> Result<(), IoFault>
    ensures all { OnOk result (Appends (O.taken out.old) (O.taken out.new) (number_after number)) }
    ensures front { OnErr result (AppendsFront (O.taken out.old) (O.taken out.new) (number_after number)) }
    ensures cause { FailsOnlyIfRose result (O.faults out.old) (O.faults out.new) }
    ensures kept { OnOk result (O.faults out.new ≡ O.faults out.old) }
    ensures later { O.faults out.old ≤ O.faults out.new }
{
    let mut digits = Buffer::new();
    write_pieces(out, &[b" ", digits.format(number).as_bytes()])
}
