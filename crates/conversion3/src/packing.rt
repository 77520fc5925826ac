//! Captures of the connections that are whole.

ghost use Rattle.std.specs.Prelude.{◌≡◌, ◌∷◌, ◌++◌, ℕ, [], List, Option, None, IfErr, IfOk, OnOk, take};
ghost use Rattle.std.specs.Option.{option_copied};
ghost use Rattle.capture3.specs.Entries.{CountsReading};
ghost use Rattle.capture3.specs.SidedChunks.{Streams};
ghost use Rattle.connections3.specs.declared.connection.Connection.{Connection};
ghost use Rattle.connections3.specs.declared.connection.Flow.{Flow};
ghost use Rattle.packing3.specs.Packing.{CountsWrites, HasAdded, ending_of};
ghost use Rattle.payload3.specs.Readings.{Allow};
ghost use Rattle.streams3.specs.Content.{AreIn, content_of};
ghost use Rattle.conversion3.specs.OrderedConnections.{IsOrderedConnection, IsOrderedFlow};
ghost use Rattle.conversion3.specs.Packing.{AreSentIn, StopsAfter};
ghost use Rattle.conversion3.specs.Sent.{HasSent, IsSentBy};
ghost use Rattle.conversion3.specs.Whole.{IsWholeConnection, IsWholeFlow};
ghost use Rattle.conversion3.specs.machinery.Contents.{HaveContents};

use crate::decisions::Decision;
use crate::ordered_connections::{OrderedConnection, OrderedFlow};
use crate::sent::sent_runs;
use canon3::Sink;
use capture3::{Error, Side};
use packing3::Packing;
use payload3::Recorded;
use std::alloc::{AllocError, Global};
use std::os::unix::fs::FileExt;
use streams3::Run;

/// Packs the connections that are whole, in order. Each payload is read from the file once more.
///
/// # Errors
///
/// - `Memory` if an allocation failed. The packing has all before this connection, and goes on.
/// - What `Packing::add` returned. The packing has ended with it.
pub fn pack_whole<F: FileExt, W: Sink>(
    alloc: Global,
    recorded: &mut Recorded<'_, F>,
    connections: &[OrderedConnection],
    decisions: &[Decision],
    packing: &mut Packing<W>,
) -> Result<(), Error>
    ensures more { (file : List ℕ) → Allow recorded.new.readings file
        → Allow recorded.old.readings file }
    ensures packed { OnOk result ((before : Option (List ℕ)) (earlier : List Streams)
        → HasAdded W.written packing.old before earlier → (pairs : List Streams)
        × HasAdded W.written packing.new before (earlier ++ pairs)
        × AreSentIn recorded.new.readings connections.now decisions.now pairs) }
    ensures stopped { IfErr result (λ error. (before : Option (List ℕ)) (earlier : List Streams)
        → HasAdded W.written packing.old before earlier → (n : ℕ) × (pairs : List Streams)
        × StopsAfter W.written packing.new before (earlier ++ pairs) error
        × AreSentIn recorded.new.readings (take n connections.now) (take n decisions.now) pairs) }
    ensures read { ending_of packing.old ≡ None
        → CountsReading recorded.old.failures recorded.new.failures result }
    ensures write { ending_of packing.old ≡ None
        → CountsWrites W.failures packing.old packing.new result }
{
    for (connection, decision) in connections.iter().zip(decisions) {
        if matches!(decision, Decision::Whole) {
            pack(alloc, recorded, connection, packing)?;
        }
    }
    Ok(())
}

/// Packs a connection.
fn pack<F: FileExt, W: Sink>(
    alloc: Global,
    recorded: &mut Recorded<'_, F>,
    connection: &OrderedConnection,
    packing: &mut Packing<W>,
) -> Result<(), Error>
    ensures more { (file : List ℕ) → Allow recorded.new.readings file
        → Allow recorded.old.readings file }
    ensures packed { OnOk result ((before : Option (List ℕ)) (earlier : List Streams)
        → HasAdded W.written packing.old before earlier → (streams : Streams)
        × HasAdded W.written packing.new before (earlier ++ streams ∷ [])
        × ((file : List ℕ) (c : Connection) → Allow recorded.new.readings file
        → IsOrderedConnection c connection.now → IsWholeConnection file c
        → HasSent file c streams)) }
    ensures stopped { IfErr result (λ error. (before : Option (List ℕ)) (earlier : List Streams)
        → HasAdded W.written packing.old before earlier
        → StopsAfter W.written packing.new before earlier error) }
    ensures ended { ending_of packing.old ≡ None → OnOk result (ending_of packing.new ≡ None) }
    ensures read { ending_of packing.old ≡ None
        → CountsReading recorded.old.failures recorded.new.failures result }
    ensures write { ending_of packing.old ≡ None
        → CountsWrites W.failures packing.old packing.new result }
{
    let client = runs_of(connection.side(Side::Client), alloc)?;
    let server = runs_of(connection.side(Side::Server), alloc)?;
    pack_runs(recorded, &client, &server, packing)
}

/// Returns where the bytes lie that an end sent.
fn runs_of(flow: Option<&OrderedFlow>, alloc: Global) -> Result<Vec<Run>, AllocError>
    ensures { IfOk result (λ runs. (file : List ℕ) (shown : Option Flow)
        → IsOrderedFlow shown (option_copied flow.entry) → IsWholeFlow file shown
        → AreIn file runs.items → IsSentBy file shown (content_of file runs.items)) }
{
    match flow {
        Some(flow) => sent_runs(&flow.stream, alloc),
        None => Ok(Vec::new(alloc)),
    }
}

/// Packs the bytes of the client's runs and of the server's.
fn pack_runs<F: FileExt, W: Sink>(
    recorded: &mut Recorded<'_, F>,
    client: &[Run],
    server: &[Run],
    packing: &mut Packing<W>,
) -> Result<(), Error>
    ensures more { (file : List ℕ) → Allow recorded.new.readings file
        → Allow recorded.old.readings file }
    ensures packed { OnOk result ((before : Option (List ℕ)) (earlier : List Streams)
        → HasAdded W.written packing.old before earlier → (streams : Streams)
        × HasAdded W.written packing.new before (earlier ++ streams ∷ [])
        × ((file : List ℕ) → Allow recorded.new.readings file
        → HaveContents file client.now server.now streams)) }
    ensures stopped { IfErr result (λ error. (before : Option (List ℕ)) (earlier : List Streams)
        → HasAdded W.written packing.old before earlier
        → StopsAfter W.written packing.new before earlier error) }
    ensures ended { ending_of packing.old ≡ None → OnOk result (ending_of packing.new ≡ None) }
    ensures read { ending_of packing.old ≡ None
        → CountsReading recorded.old.failures recorded.new.failures result }
    ensures write { ending_of packing.old ≡ None
        → CountsWrites W.failures packing.old packing.new result }
{
    let mut client = recorded.payload(client);
    let mut server = recorded.payload(server);
    let result = packing.add(&mut client, &mut server);
    client.gives();
    server.gives();
    recorded.note_payload(&client);
    recorded.note_payload(&server);
    result
}
