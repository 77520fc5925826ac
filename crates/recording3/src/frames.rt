//! All frames of a recording, which is read in pieces.

ghost use Rattle.std.specs.Prelude.{◌≡◌, ◌≤◌, ◌<◌, ◌+◌, ◌-◌, ◌^◌, ◌∷◌, ℕ, List, [], length, take, drop, vec_len, IfOk, IfErr, OnOk, OnErr, MatchResult};
ghost use Rattle.capture3.specs.Device.{Counts};
ghost use Rattle.capture3.specs.Observed.{Gave, IsSpent};
ghost use Rattle.recording3.specs.Frames.{CountsFailedReads, Extends, ReadsFrames, StopsReading, StopsFrames};
ghost use Rattle.recording3.specs.Places.{IsPart, LacksPart, MayGoOn, Passed, behind, at_front, frames_of};
ghost use Rattle.recording3.specs.machinery.Reached.{CountsMore, Gets, IsInside, IsOfPassing, Passes, StopsAt, place_of};

use crate::contents::{Content, Ending, Frame, RecordingPart};
use crate::places::{Format, Reached, may_go_on, part_at};
use capture3::{DeviceFailed, Source};
use std::alloc::{AllocError, Global};

// How many bytes are read at once, which the processor's cache has room for.
const WINDOW: usize = 262_144;

// The longest part of a recording.
const LONGEST: usize = 16_781_312;

/// What is known of a frame besides its octets.
#[derive(Clone, Copy, Debug, PartialEq, Eq)]
pub struct FrameHead {
    /// Its number, from 1, with the frames of earlier files counted.
    pub number: u64,
    /// Where in the file its record or block begins.
    pub offset: u64,
    /// Where in the file its octets begin, in that record or block.
    pub at: u64,
    /// When it was recorded, in nanoseconds since 1970; 0 if that is not known.
    pub time: u64,
    /// Its link type, below 65,536.
    pub link: u32,
    /// How many octets it had on the wire, no fewer than were recorded.
    pub wire: u32,
}

/// What frames are passed to.
pub trait FrameTaker {
    /// Why it takes no more.
    type Error;

    // It was passed these frames, in this order.
    ghost took: { Self → List Passed → Type 0 };

    // It was passed these frames, and failed with the error at the last.
    ghost failed: { Self → Self.Error → List Passed → Type 0 };

    /// Takes the next frame, of which these octets were recorded.
    fn take(&mut self, head: &FrameHead, octets: &[u8]) -> Result<(), Self::Error>
        ensures { MatchResult result
            (λ _. Extends (took self.old) (took self.new)
            (record { head = head.now; octets = octets.now } ∷ []))
            (λ error. Extends (took self.old) (failed self.new error)
            (record { head = head.now; octets = octets.now } ∷ [])) };
}

/// How a reading ended: no part of a recording begins there.
#[derive(Clone, Copy, Debug, PartialEq, Eq)]
pub struct RecordingEnd {
    /// How many frames came, with those of earlier files.
    pub frames: u64,
    /// How many octets of the file were read as parts.
    pub offset: u64,
    /// Why there is no other part.
    pub why: Ending,
}

/// Why a reading stopped before that.
#[derive(Clone, Copy, Debug, PartialEq, Eq, Drop)]
pub enum Failed<E> {
    /// A read of the source failed.
    Read,
    /// An allocation failed.
    Memory,
    /// The taker failed.
    Taker(E),
}

/// Why no more bytes came.
enum NoMore {
    /// A read of the source failed.
    Read,
    /// An allocation failed.
    Memory,
}

/// Passes the frame of a part, and goes behind the part.
fn step<T: FrameTaker>(
    reached: &mut Reached,
    bytes: &[u8],
    part: &RecordingPart,
    taker: &mut T,
) -> Result<(), Failed<T::Error>>
    requires part { IsPart (place_of reached.old) bytes.now part.now }
    requires inside { IsInside (length bytes.now) part.now }
    ensures ok { OnOk result (place_of reached.new ≡ behind (place_of reached.old) part.now) }
    ensures took { OnOk result (Extends (T.took taker.old) (T.took taker.new)
        (frames_of (place_of reached.old) bytes.now part.now.content)) }
    ensures err { IfErr result (StopsAt (frames_of (place_of reached.old) bytes.now
        part.now.content) (taker.new ≡ taker.old)
        (λ error. Extends (T.took taker.old) (T.failed taker.new error))) }
    ensures unread { IfErr result IsOfPassing }
{
    match part.content {
        Content::Header(header) => reached.format = Format::Pcap(header),
        Content::Section(order) => {
            reached.format = Format::Pcapng(order);
            reached.interfaces.clear();
        }
        Content::Interface(interface) => {
            if reached.interfaces.push(interface).is_err() {
                return Err(Failed::Memory);
            }
        }
        Content::Frame(frame) => {
            if let Err(error) = hand_over(reached, bytes, &frame, taker) {
                return Err(Failed::Taker(error));
            }
            reached.frames += 1;
        }
        Content::Other => {}
    }
    reached.offset += part.size as u64;
    Ok(())
}

/// Passes a frame.
#[inline(always)]
fn hand_over<T: FrameTaker>(
    reached: &Reached,
    bytes: &[u8],
    frame: &Frame,
    taker: &mut T,
) -> Result<(), T::Error>
    requires begin { frame.now.begin ≤ frame.now.end }
    requires end { frame.now.end ≤ length bytes.now }
    requires few { reached.now.frames < 2 ^ 63 }
    requires near { reached.now.offset < 2 ^ 63 }
    ensures { MatchResult result
        (λ _. Extends (T.took taker.old) (T.took taker.new)
        (frames_of (place_of reached.now) bytes.now (Content.Frame frame.now)))
        (λ error. Extends (T.took taker.old) (T.failed taker.new error)
        (frames_of (place_of reached.now) bytes.now (Content.Frame frame.now))) }
{
    let head = FrameHead {
        number: reached.frames + 1,
        offset: reached.offset,
        at: reached.offset + frame.begin as u64,
        time: frame.time,
        link: frame.link,
        wire: frame.wire,
    };
    taker.take(&head, &bytes[frame.begin..frame.end])
}

/// Passes the frames of the parts that stand whole at the front of the bytes. Returns where the
/// rest begins, and why no part begins there.
fn pass<T: FrameTaker>(
    reached: &mut Reached,
    bytes: &[u8],
    taker: &mut T,
) -> Result<(usize, Ending), Failed<T::Error>>
    ensures within { IfOk result (λ r. r.0 ≤ length bytes.now) }
    ensures passed { IfOk result (λ r. Passes (place_of reached.old)
        (Extends (T.took taker.old) (T.took taker.new)) (take r.0 bytes.now)
        (place_of reached.new)) }
    ensures why { IfOk result
        (λ r. LacksPart (place_of reached.new) (drop r.0 bytes.now) r.1) }
    ensures short { IfOk result (λ r. MayGoOn r.1 → length bytes.now < r.0 + 16781312) }
    ensures err { IfErr result (StopsReading (place_of reached.old) bytes.now
        (Extends (T.took taker.old) (T.took taker.new))
        (λ error. Extends (T.took taker.old) (T.failed taker.new error))) }
    ensures unread { IfErr result IsOfPassing }
{
    let mut at = 0;
    'parts: loop {
        let rest = &bytes[at..];
        let part = match part_at(reached, rest) {
            Ok(part) => part,
            Err(why) => return Ok((at, why)),
        };
        if let Err(failed) = step(reached, rest, &part, taker) {
            return Err(failed);
        }
        at += part.size;
    }
}

/// Gives a window room for more bytes.
fn grow(window: &mut Vec<u8>) -> Result<(), AllocError>
    requires { vec_len window.old < 16781312 }
    ensures items { OnOk result (take (vec_len window.old) window.new.items ≡ window.old.items) }
    ensures room { OnOk result (vec_len window.old < vec_len window.new) }
    ensures limit { OnOk result (vec_len window.new ≤ 16781312) }
{
    let size = (2 * window.len()).max(WINDOW).min(LONGEST);
    window.resize(size, 0)
}

/// Moves what stands between two places of a window to its front, and reads behind it. Returns how
/// many bytes are there then, as many as before only if no byte is left.
fn fill<R: Source>(
    source: &mut R,
    window: &mut [u8],
    at: usize,
    there: usize,
) -> Result<usize, DeviceFailed>
    requires order { at ≤ there }
    requires within { there ≤ length window.old }
    requires room { there - at < length window.old }
    ensures within { IfOk result (λ n. (there - at ≤ n) × (n ≤ length window.new)) }
    ensures bytes { IfOk result (λ n. Gets (R.observed source.old) (R.observed source.new)
        (drop at (take there window.old)) (take n window.new)) }
    ensures end { IfOk result (λ n. n ≡ there - at → IsSpent (R.observed source.new)) }
    ensures none { OnErr result (Gave (R.observed source.old) (R.observed source.new) []) }
    ensures count { Counts (R.failures source.old) (R.failures source.new) result }
{
    window.copy_within(at..there, 0);
    let rest = there - at;
    match source.read_some(&mut window[rest..]) {
        Ok(count) => Ok(rest + count),
        Err(failed) => Err(failed),
    }
}

/// Does the same, and gives the window more room if it is full.
fn refill<R: Source>(
    source: &mut R,
    window: &mut Vec<u8>,
    at: usize,
    there: usize,
) -> Result<usize, NoMore>
    requires order { at ≤ there }
    requires within { there ≤ vec_len window.old }
    requires short { there < at + 16781312 }
    requires limit { vec_len window.old ≤ 16781312 }
    ensures within { IfOk result (λ n. (there - at ≤ n) × (n ≤ vec_len window.new)) }
    ensures limit { OnOk result (vec_len window.new ≤ 16781312) }
    ensures bytes { IfOk result (λ n. Gets (R.observed source.old) (R.observed source.new)
        (drop at (take there window.old.items)) (take n window.new.items)) }
    ensures end { IfOk result (λ n. n ≡ there - at → IsSpent (R.observed source.new)) }
    ensures none { OnErr result (Gave (R.observed source.old) (R.observed source.new) []) }
    ensures count { CountsMore (R.failures source.old) (R.failures source.new) result }
{
    if there - at == window.len() && grow(window).is_err() {
        return Err(NoMore::Memory);
    }
    match fill(source, window, at, there) {
        Ok(there) => Ok(there),
        Err(_) => Err(NoMore::Read),
    }
}

/// Passes all frames that follow the front of a file.
fn run<R: Source, T: FrameTaker>(
    source: &mut R,
    window: &mut Vec<u8>,
    reached: &mut Reached,
    taker: &mut T,
) -> Result<RecordingEnd, Failed<T::Error>>
    requires empty { vec_len window.old ≡ 0 }
    requires front { place_of reached.old ≡ at_front reached.old.frames }
    ensures ok { IfOk result (ReadsFrames reached.old.frames
        (R.observed source.old, R.observed source.new)
        (Extends (T.took taker.old) (T.took taker.new))) }
    ensures err { IfErr result (StopsFrames reached.old.frames
        (R.observed source.old, R.observed source.new)
        (Extends (T.took taker.old) (T.took taker.new))
        (λ error. Extends (T.took taker.old) (T.failed taker.new error))) }
    ensures count { CountsFailedReads (R.failures source.old) (R.failures source.new) result }
{
    let mut there = 0;
    let mut reads: u64 = 0;
    'reads: while reads < u64::MAX {
        let (at, why) = match pass(reached, &window[..there], taker) {
            Ok(passed) => passed,
            Err(failed) => return Err(failed),
        };
        if !may_go_on(why) {
            return Ok(end_of(reached, why));
        }
        let rest = there - at;
        there = match refill(source, window, at, there) {
            Ok(there) => there,
            Err(NoMore::Read) => return Err(Failed::Read),
            Err(NoMore::Memory) => return Err(Failed::Memory),
        };
        if there == rest {
            return Ok(end_of(reached, why));
        }
        reads += 1;
    }
    Ok(end_of(reached, Ending::TooMany))
}

/// Returns how a reading ended there.
fn end_of(reached: &Reached, why: Ending) -> RecordingEnd
    ensures { result ≡ record {
      frames = reached.now.frames;
      offset = reached.now.offset;
      why = why;
    } }
{
    RecordingEnd {
        frames: reached.frames,
        offset: reached.offset,
        why,
    }
}

/// Reads a recording to its end, pcap or pcapng as its first octets tell, and passes each frame to
/// the taker, once and in order. `before` is how many frames earlier files had, which are counted
/// on. It keeps a window of 256 KiB, or as long as the longest part of the recording, which has at
/// most 16,781,312 octets, and the interfaces of a section.
///
/// It returns where the recording ended, and why.
///
/// # Errors
///
/// - `Read` if a read failed. All frames that were read whole were passed.
/// - `Memory` if an allocation failed. The frames of a front of the file were passed.
/// - `Taker` with its error if the taker failed at a frame. It was passed all frames before.
pub fn read_frames<R: Source, T: FrameTaker>(
    alloc: Global,
    source: &mut R,
    before: u64,
    taker: &mut T,
) -> Result<RecordingEnd, Failed<T::Error>>
    ensures ok { IfOk result (ReadsFrames before (R.observed source.old, R.observed source.new)
        (Extends (T.took taker.old) (T.took taker.new))) }
    ensures err { IfErr result (StopsFrames before (R.observed source.old, R.observed source.new)
        (Extends (T.took taker.old) (T.took taker.new))
        (λ error. Extends (T.took taker.old) (T.failed taker.new error))) }
    ensures count { CountsFailedReads (R.failures source.old) (R.failures source.new) result }
{
    let mut reached = Reached {
        format: Format::Unknown,
        interfaces: Vec::new(alloc),
        frames: before,
        offset: 0,
    };
    let mut window = Vec::new(alloc);
    run(source, &mut window, &mut reached, taker)
}
