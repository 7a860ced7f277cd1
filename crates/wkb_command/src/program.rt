//! The program: one command over the hex lines of its input.

ghost use Rattle.std.specs.Prelude.{◌≡◌, ℕ, List, map, string_bytes, IfOk};
ghost use Rattle.wkb_command.specs.Program.{IsCommandNamed, IsCommandOf, AreNoCommand};
ghost use Rattle.wkb_command.specs.Program.{IsBody, Spells, IsOneLine, status_refused, TellsError};
ghost use Rattle.wkb_command.specs.Program.{counts, RunEnds, IsRunOf};
ghost use Rattle.wkb_command.specs.Reports.{line_of, IsReport, IsReportOn, IsFailureOn, IsLineOf};
ghost use Rattle.wkb_command.specs.Reports.{AreTwoLines};
ghost use Rattle.wkb_command.specs.Transfer.{WroteBeginning};

use crate::calls::{HexFault, cost_hex, rewrite_hex, rewrite_hex_with_srid, same_hex, srid_hex};
use crate::transfer::{ReadFailure, WriteFailure, read_to_end, write_hex_line, write_whole};
use std::alloc::{AllocError, Global};
use std::io::{Read, Write};
use std::str;
use wkb::Endianness;
use wkb::error::WkbError;
use wkb::reader::Counts;
use wkb::writer::{Form, WriteOptions};

/// The status of a run whose input was accepted.
const ANSWERED: u8 = 0;
/// The status of a run whose input was rejected.
const REFUSED: u8 = 1;
/// The status of a run with other arguments, or an input that isn't hex.
const MISUSED: u8 = 2;
/// The status of a run that failed to allocate, to read or to write.
pub const FAILED: u8 = 3;

const USAGE: &str = "usage: wkb_hex le|be|same|cost|srid|ewkb-le|ewkb-be\n";

/// What the program is asked.
#[derive(Clone, Copy)]
pub enum Command {
    Rewrite(Endianness),
    RewriteWithSrid(Endianness),
    Same,
    Cost,
    Srid,
}

impl Command {
    fn from_arguments(arguments: &[String]) -> Option<Command>
        ensures { IsCommandOf (map string_bytes arguments.now) result }
    {
        let [name] = arguments else {
            return None;
        };
        Command::from_name(name.as_str())
    }

    fn from_name(name: &str) -> Option<Command>
        ensures { IsCommandNamed name.now result }
    {
        match name {
            "le" => Some(Command::Rewrite(Endianness::LittleEndian)),
            "be" => Some(Command::Rewrite(Endianness::BigEndian)),
            "same" => Some(Command::Same),
            "cost" => Some(Command::Cost),
            "srid" => Some(Command::Srid),
            "ewkb-le" => Some(Command::RewriteWithSrid(Endianness::LittleEndian)),
            "ewkb-be" => Some(Command::RewriteWithSrid(Endianness::BigEndian)),
            _ => None,
        }
    }
}

/// The line that is written.
#[derive(Drop)]
enum Output {
    /// A line, with its line feed.
    Text(String),
    /// An encoding. Its hex and a line feed are written piece by piece, and are never in memory as a whole.
    Hex(Vec<u8>),
}

impl Output {
    /// Writes the line.
    fn write_to<W: Write>(&self, out: &mut W) -> Result<(), WriteFailure>
        ensures { WroteBeginning (W.contents out.old) (W.contents out.new) (line_of self.now)
            result }
    {
        match self {
            Output::Text(text) => write_whole(out, text.as_bytes()),
            Output::Hex(bytes) => write_hex_line(out, bytes.as_slice()),
        }
    }
}

/// A line and the status that goes with it.
#[derive(Drop)]
struct Report {
    output: Output,
    status: u8,
}

impl Report {
    fn new(alloc: Global, line: &str, status: u8) -> Result<Report, AllocError>
        ensures { IfOk result (IsReport line.now status) }
    {
        Ok(Report {
            output: Output::Text(String::from_str(alloc, line)?),
            status,
        })
    }

    fn not_hex(alloc: Global) -> Result<Report, AllocError>
        ensures { (command : Command) (text : List ℕ)
            → ((inputs : List (List ℕ)) → ¬ Spells command text inputs)
            → IfOk result (IsReportOn command text) }
    {
        Report::new(alloc, "not hex\n", MISUSED)
    }
}

/// An error's text up to its first line feed, so that it fits on one line.
fn first_line(text: &str) -> &str
    ensures line { IsOneLine result.now }
    ensures whole { IsOneLine text.now → result.now ≡ text.now }
{
    match text.split_once('\n') {
        Some((line, _)) => line,
        None => text,
    }
}

/// `refused: ` and the error's text.
fn error_report(alloc: Global, error: &WkbError) -> Result<Report, AllocError>
    ensures { IfOk result
        (λ r. TellsError error.now (line_of r.output) × (r.status ≡ status_refused)) }
{
    if let WkbError::IOError(_) = error {
        return Report::new(alloc, "refused: end of input\n", REFUSED);
    }
    let text = error.to_string(alloc)?;
    let line = first_line(text.as_str());
    Ok(Report {
        output: Output::Text(format!(in alloc; "refused: {line}\n")?),
        status: REFUSED,
    })
}

/// The report on a failure, other than a failed allocation.
fn failure_report(alloc: Global, failure: HexFault) -> Result<Report, AllocError>
    ensures { (command : Command) (text : List ℕ) → IsFailureOn command text failure
        → IfOk result (IsReportOn command text) }
{
    match failure {
        HexFault::NotHex => Report::not_hex(alloc),
        HexFault::Wkb(error) => error_report(alloc, &error),
        HexFault::Memory => Err(AllocError),
    }
}

#[tactic(auto, using(crate::proofs::Reports::report_laws))]
fn rewriting_report(alloc: Global, order: Endianness, text: &str) -> Result<Report, AllocError>
    ensures { IfOk result (IsReportOn (Command.Rewrite order) text.now) }
{
    let options = WriteOptions {
        endianness: order,
        form: Form::Iso,
    };
    match rewrite_hex(alloc, text, &options) {
        Ok(bytes) => Ok(Report {
            output: Output::Hex(bytes),
            status: ANSWERED,
        }),
        Err(failure) => failure_report(alloc, failure),
    }
}

#[tactic(auto, using(crate::proofs::Reports::report_laws))]
fn rewriting_with_srid_report(
    alloc: Global,
    order: Endianness,
    text: &str,
) -> Result<Report, AllocError>
    ensures { IfOk result (IsReportOn (Command.RewriteWithSrid order) text.now) }
{
    match rewrite_hex_with_srid(alloc, text, order) {
        Ok(bytes) => Ok(Report {
            output: Output::Hex(bytes),
            status: ANSWERED,
        }),
        Err(failure) => failure_report(alloc, failure),
    }
}

/// The lines of a text that has two.
fn two_lines(text: &str) -> Option<(&str, &str)>
    ensures { AreTwoLines text.now result }
{
    let (first, second) = text.split_once('\n')?;
    if second.contains('\n') {
        return None;
    }
    Some((first, second))
}

#[tactic(auto, using(crate::proofs::Reports::comparison_laws))]
fn comparison_report(alloc: Global, text: &str) -> Result<Report, AllocError>
    ensures { IfOk result (IsReportOn Command.Same text.now) }
{
    let Some((first, second)) = two_lines(text) else {
        return Report::not_hex(alloc);
    };
    let equal = match same_hex(alloc, first, second) {
        Ok(equal) => equal,
        Err(failure) => return failure_report(alloc, failure),
    };
    if equal {
        Report::new(alloc, "same\n", ANSWERED)
    } else {
        Report::new(alloc, "different\n", ANSWERED)
    }
}

fn cost_report(alloc: Global, text: &str) -> Result<Report, AllocError>
    ensures { IfOk result (IsReportOn Command.Cost text.now) }
{
    let cost = match cost_hex(alloc, text) {
        Ok(cost) => cost,
        Err(failure) => return failure_report(alloc, failure),
    };
    if cost.accepted {
        counts_report(alloc, "accepted", cost.counts, ANSWERED)
    } else {
        counts_report(alloc, "refused", cost.counts, REFUSED)
    }
}

#[tactic(auto, using(crate::proofs::Reports::counts_line))]
fn counts_report(
    alloc: Global,
    verdict: &str,
    spent: Counts,
    status: u8,
) -> Result<Report, AllocError>
    ensures { IfOk result (IsReport (counts verdict.now spent.turns spent.slots) status) }
{
    let turns = spent.turns;
    let slots = spent.slots;
    Ok(Report {
        output: Output::Text(format!(in alloc; "{verdict} turns {turns} slots {slots}\n")?),
        status,
    })
}

#[tactic(auto, using(crate::proofs::Reports::report_laws))]
fn srid_report(alloc: Global, text: &str) -> Result<Report, AllocError>
    ensures { IfOk result (IsReportOn Command.Srid text.now) }
{
    match srid_hex(alloc, text) {
        Ok(Some(srid)) => Ok(Report {
            output: Output::Text(format!(in alloc; "srid {srid}\n")?),
            status: ANSWERED,
        }),
        Ok(None) => Report::new(alloc, "no srid\n", ANSWERED),
        Err(failure) => failure_report(alloc, failure),
    }
}

/// The input without one line feed at its very end.
fn without_last_feed(input: &[u8]) -> &[u8]
    ensures { IsBody input.now result.now }
{
    match input.strip_suffix(b"\n") {
        Some(body) => body,
        None => input,
    }
}

/// The report on the text of a command.
#[tactic(auto, using(std::proofs::lemmas::Str::Pattern::contains_char, crate::proofs::Spelled::feed_spells_none))]
fn report_on_text(alloc: Global, command: Command, text: &str) -> Result<Report, AllocError>
    ensures { IfOk result (IsReportOn command text.now) }
{
    match command {
        Command::Same => comparison_report(alloc, text),
        _ if text.contains('\n') => Report::not_hex(alloc),
        Command::Rewrite(order) => rewriting_report(alloc, order, text),
        Command::RewriteWithSrid(order) => rewriting_with_srid_report(alloc, order, text),
        Command::Cost => cost_report(alloc, text),
        Command::Srid => srid_report(alloc, text),
    }
}

/// The report on the input of a command.
#[tactic(auto, using(crate::proofs::Spelled::spelled_utf8))]
fn report_on_input(alloc: Global, command: Command, input: &[u8]) -> Result<Report, AllocError>
    ensures { IfOk result (IsReportOn command input.now) }
{
    // Digits are ASCII, so that input which isn't UTF-8 is no hex. It is tested once, and is a text from here on.
    match str::from_utf8(input) {
        Ok(text) => report_on_text(alloc, command, text),
        Err(_) => Report::not_hex(alloc),
    }
}

/// Writes the line of the report, or that an allocation failed, and returns the status.
fn tell<W: Write>(report: Result<Report, AllocError>, out: &mut W) -> u8
    ensures { RunEnds (W.contents out.old) (W.contents out.new) (IsLineOf report) result }
{
    match report {
        Ok(report) => match report.output.write_to(out) {
            Ok(()) => report.status,
            Err(_) => FAILED,
        },
        Err(_) => {
            let _ = write_whole(out, b"out of memory\n");
            FAILED
        }
    }
}

/// Runs the program: writes the line for the arguments and the input, and returns the status.
///
/// The status is 0 for an accepted input, 1 for a rejected one, 2 for an input that isn't hex and for
/// other arguments, and 3 where an allocation, a read or a write failed. The arguments are looked at
/// before the input is read. At most 16777216 reads are made, and no read or write is tried again.
pub fn run<R: Read, W: Write>(alloc: Global, arguments: &[String], input: &mut R, out: &mut W) -> u8
    ensures ends { IsRunOf R.Read W.Write arguments.now input.old out.old out.new result }
    ensures arguments_first { AreNoCommand (map string_bytes arguments.now)
        → input.new ≡ input.old }
{
    let Some(command) = Command::from_arguments(arguments) else {
        return tell(Report::new(alloc, USAGE, MISUSED), out);
    };
    let bytes = match read_to_end(alloc, input) {
        Ok(bytes) => bytes,
        Err(ReadFailure::Memory(error)) => return tell(Err(error), out),
        Err(ReadFailure::Unreadable) => return FAILED,
    };
    let body = without_last_feed(bytes.as_slice());
    tell(report_on_input(alloc, command, body), out)
}
