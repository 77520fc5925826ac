//! What is printed of a recording that was converted.

ghost use Rattle.std.specs.Prelude.{◌≡◌, ◌++◌, ◌+◌, List, [], IfOk, OnOk, count_by, string_bytes};
ghost use Rattle.std.specs.List.{list_any};
ghost use Rattle.connections3.specs.declared.connection.Connection.{Connection};
ghost use Rattle.conversion3.specs.OrderedConnections.{AreOrdered, IsOrderedConnection};
ghost use Rattle.conversion3.specs.Whole.{side_flow};
ghost use Rattle.program3.specs.Printed.{Prints};
ghost use Rattle.recording3.specs.Places.{Passed};
ghost use Rattle.nfs3streams.specs.Printed.{PrintsFindings, PrintsNoRecording, begin_of_flow, below_text, counts_line, decision_text, decisions_text, end_line, end_text, ending_name, findings_status, flaw_line, flaw_text, inside_text, is_at_end, is_flawed, is_whole, stray_text};

use capture3::Side;
use conversion3::{Decision, Flaw, OrderedConnection, StreamFlaw};
use program3::{Report, side_name};
use recording3::{Ending, RecordingEnd, Tally};
use std::alloc::{AllocError, Global};

/// What was found in a recording.
#[derive(Clone, Copy)]
pub struct Found<'a> {
    pub end: RecordingEnd,
    pub tally: Tally,
    pub connections: &'a [OrderedConnection],
    pub decisions: &'a [Decision],
}

/// Returns the report of what was found in a recording.
///
/// # Errors
///
/// `AllocError` if memory ran out for the text.
pub fn found_report(alloc: Global, found: &Found<'_>) -> Result<Report, AllocError>
    ensures { IfOk result (λ report. (frames : List Passed) (connections : List Connection)
        → AreOrdered connections found.now.connections.now
        → PrintsFindings (record {
          frames = frames;
          end = found.now.end;
          tally = found.now.tally;
          connections = connections;
          decisions = found.now.decisions.now;
        }) report) }
{
    let mut text = counts(alloc, &found.end, &found.tally, found.decisions)?;
    push_end(alloc, &mut text, &found.end)?;
    push_decisions(alloc, &mut text, found.connections, found.decisions)?;
    Ok(Report {
        status: status(found.end.why, found.decisions),
        out: text.into_bytes(),
        err: Vec::new(alloc),
    })
}

/// Returns the report of a file that is no recording.
///
/// # Errors
///
/// `AllocError` if memory ran out for the text.
pub fn no_recording_report(alloc: Global, end: &RecordingEnd) -> Result<Report, AllocError>
    ensures { IfOk result (PrintsNoRecording end.now) }
{
    refusal_report(alloc, line_of_end(alloc, end)?)
}

/// Returns a report with a refusal on standard error.
pub fn refusal_report(alloc: Global, line: String) -> Result<Report, AllocError>
    ensures { IfOk result (Prints 2 [] (string_bytes line)) }
{
    Ok(Report {
        status: 2,
        out: Vec::new(alloc),
        err: line.into_bytes(),
    })
}

fn status(why: Ending, decisions: &[Decision]) -> u8
    ensures { result ≡ findings_status why decisions.now }
{
    if is_at_end(why) && !has_flaw(decisions) {
        0
    } else {
        2
    }
}

fn is_at_end(why: Ending) -> bool
    ensures { result ≡ is_at_end why }
{
    matches!(why, Ending::End)
}

fn has_flaw(decisions: &[Decision]) -> bool
    ensures { result ≡ list_any is_flawed decisions.now }
{
    for decision in decisions {
        if matches!(decision, Decision::Flawed(_)) {
            return true;
        }
    }
    false
}

fn whole_count(decisions: &[Decision]) -> usize
    ensures { result ≡ count_by is_whole decisions.now }
{
    let mut count = 0;
    for decision in decisions {
        if matches!(decision, Decision::Whole) {
            count += 1;
        }
    }
    count
}

fn counts(
    alloc: Global,
    end: &RecordingEnd,
    tally: &Tally,
    decisions: &[Decision],
) -> Result<String, AllocError>
    ensures { IfOk result
        (λ line. string_bytes line ≡ counts_line end.now tally.now decisions.now) }
{
    let frames = end.frames;
    let segments = tally.segments;
    let below = below_text(alloc, tally)?;
    let inside = inside_text(alloc, tally)?;
    let all = decisions.len();
    let packed = whole_count(decisions);
    format!(in alloc;
        "frames={frames} segments={segments}{below}{inside} connections={all} packed={packed}\n"
    )
}

/// Returns how many frames have no IP.
fn below_text(alloc: Global, tally: &Tally) -> Result<String, AllocError>
    ensures { IfOk result (λ text. string_bytes text ≡ below_text tally.now) }
{
    let unknown_link = tally.unknown_link;
    let cut = tally.cut;
    let not_ip = tally.not_ip;
    format!(in alloc; " unknown_link={unknown_link} cut={cut} not_ip={not_ip}")
}

/// Returns how many frames have IP, and no segment.
fn inside_text(alloc: Global, tally: &Tally) -> Result<String, AllocError>
    ensures { IfOk result (λ text. string_bytes text ≡ inside_text tally.now) }
{
    let bad_ip = tally.bad_ip;
    let fragment = tally.fragment;
    let not_tcp = tally.not_tcp;
    let bad_tcp = tally.bad_tcp;
    format!(in alloc; " bad_ip={bad_ip} fragment={fragment} not_tcp={not_tcp} bad_tcp={bad_tcp}")
}

/// Appends the line of a recording that does not end at its end.
fn push_end(alloc: Global, text: &mut String, end: &RecordingEnd) -> Result<(), AllocError>
    ensures { OnOk result (string_bytes text.new ≡ string_bytes text.old ++ end_text end.now) }
{
    if is_at_end(end.why) {
        return Ok(());
    }
    let line = line_of_end(alloc, end)?;
    text.push_str(line.as_str())
}

fn line_of_end(alloc: Global, end: &RecordingEnd) -> Result<String, AllocError>
    ensures { IfOk result (λ line. string_bytes line ≡ end_line end.now) }
{
    let RecordingEnd {
        frames,
        offset,
        why,
    } = *end;
    let reason = ending_name(why);
    format!(in alloc; "file {offset}: {reason} after frame {frames}\n")
}

fn ending_name(why: Ending) -> &'static str
    ensures { result.now ≡ ending_name why }
{
    match why {
        Ending::End => "End",
        Ending::Cut => "Cut",
        Ending::NotRecording => "NotRecording",
        Ending::TooLong => "TooLong",
        Ending::BadOrder => "BadOrder",
        Ending::BadSize => "BadSize",
        Ending::Unequal => "Unequal",
        Ending::TooShort => "TooShort",
        Ending::NoInterface => "NoInterface",
        Ending::TooMany => "TooMany",
    }
}

/// Appends the lines of the connections that are not whole.
fn push_decisions(
    alloc: Global,
    text: &mut String,
    connections: &[OrderedConnection],
    decisions: &[Decision],
) -> Result<(), AllocError>
    ensures { OnOk result ((shown : List Connection) → AreOrdered shown connections.now
        → string_bytes text.new
        ≡ string_bytes text.old ++ decisions_text 1 shown decisions.now) }
{
    for index in 0..connections.len().min(decisions.len()) {
        let connection = &connections[index];
        push_decision(alloc, text, index as u64 + 1, connection, &decisions[index])?;
    }
    Ok(())
}

/// Appends the line of a connection that is not whole.
fn push_decision(
    alloc: Global,
    text: &mut String,
    number: u64,
    connection: &OrderedConnection,
    decision: &Decision,
) -> Result<(), AllocError>
    ensures { OnOk result ((shown : Connection) → IsOrderedConnection shown connection.now
        → string_bytes text.new
        ≡ string_bytes text.old ++ decision_text number shown decision.now) }
{
    match decision {
        Decision::Flawed(flaw) => push_flaw(alloc, text, number, connection, flaw),
        _ => Ok(()),
    }
}

/// Appends the line of a connection with a flaw.
fn push_flaw(
    alloc: Global,
    text: &mut String,
    number: u64,
    connection: &OrderedConnection,
    flaw: &Flaw,
) -> Result<(), AllocError>
    ensures { OnOk result ((shown : Connection) → IsOrderedConnection shown connection.now
        → string_bytes text.new ≡ string_bytes text.old ++ flaw_line number shown flaw.now) }
{
    let what = flaw_text(alloc, begin_of(connection, flaw.side), &flaw.kind)?;
    let side = side_name(flaw.side);
    let line: String = format!(in alloc; "connection {number} {side}: {what}\n")?;
    text.push_str(line.as_str())
}

/// Returns the position at which the stream of a side begins.
fn begin_of(connection: &OrderedConnection, side: Side) -> u64
    ensures { (shown : Connection) → IsOrderedConnection shown connection.now
        → result ≡ begin_of_flow (side_flow shown side) }
{
    match connection.side(side) {
        Some(flow) => flow.stream.begin(),
        None => 0,
    }
}

/// Returns what is wrong with a stream that begins at a position.
fn flaw_text(alloc: Global, begin: u64, flaw: &StreamFlaw) -> Result<String, AllocError>
    ensures { IfOk result (λ text. string_bytes text ≡ flaw_text begin flaw.now) }
{
    match *flaw {
        StreamFlaw::NoSyn => String::from_str(alloc, "NoSyn"),
        StreamFlaw::Missing(bytes, frame) => {
            let size = bytes.end.saturating_sub(bytes.begin);
            let before = bytes.begin.saturating_sub(begin);
            format!(in alloc; "{size} bytes are missing after {before}, frame {frame}")
        }
        StreamFlaw::Beyond(mark) => {
            let before = mark.position.saturating_sub(begin);
            let frame = mark.frame;
            format!(in alloc; "bytes follow FIN after {before}, frame {frame}")
        }
        StreamFlaw::Stray(frame) => stray_text(alloc, frame),
        StreamFlaw::Changed(run) => {
            let before = run.position.saturating_sub(begin);
            let size = run.size;
            let frame = run.frame;
            format!(in alloc; "{size} bytes differ that came again after {before}, frame {frame}")
        }
    }
}

/// Returns the text of a number that is none of the stream.
fn stray_text(alloc: Global, frame: Option<u32>) -> Result<String, AllocError>
    ensures { IfOk result (λ text. string_bytes text ≡ stray_text frame) }
{
    match frame {
        Some(frame) => format!(in alloc; "a number is none of the stream, frame {frame}"),
        None => String::from_str(alloc, "a number is none of the stream"),
    }
}
