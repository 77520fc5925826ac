//! The writer of the masked form, one message at a time.

mod attributes;
mod kept;
mod texts;
mod unnamed_body;
mod zeros;

ghost use Rattle.std.specs.Prelude.{◌≡◌, ◌≤◌, ◌++◌, ◌∷◌, List, [], length, true, IfErr, OnErr, OnOk};
ghost use Rattle.std.specs.Io.KnownBytes.{Appends};
ghost use Rattle.xdr3.specs.Item.{Fixed, Handle as HandleKind, Hyper, Item, Opaque, Rest, Word};
ghost use Rattle.xdr3.specs.Plain.{run_items, run_size};
ghost use Rattle.xdr3.specs.Visit.{Adds, body_limit};
ghost use Rattle.canon3.specs.Bytes.{chunk_bytes, record_bytes};
ghost use Rattle.canon3.specs.SinkWrites.{AppendsFront};
ghost use Rattle.canon3.specs.WriteErrors.{CountsWriting, IsOfWriting};
ghost use Rattle.masking3.specs.Ways.{usual};
ghost use Rattle.capture3.specs.declared.fault.Side.{Side};
ghost use Rattle.masking3.specs.machinery.MaskingWriter.{HasMemory, HoldsMasked, MaskRests, MaskStands, after_messages, visited_items, written_as};
ghost use Rattle.masking3.specs.machinery.MessageSpot.{first_spot};
ghost use Rattle.masking3.specs.machinery.UnnamedBody.{body_by};

use crate::masking_writer::attributes::are_attributes;
use crate::masking_writer::kept::{are_kept, is_free_name};
use crate::masking_writer::texts::masked_text;
use crate::masking_writer::unnamed_body::write_unnamed;
use crate::masking_writer::zeros::write_zeros;
use crate::values::class::{Class, class_of_fixed, class_of_hyper, class_of_word};
use crate::values::class_tables::ClassTables;
use crate::values::spot::{ItemSpot, first_spot, spot_after};
use crate::values::ways::{Way, Ways};
use byteorder::{BigEndian, ByteOrder};
use canon3::{HandleTable, Sink, write_message, write_word};
use capture3::{Error, Kind, MessageVisit};
use rpc_head::Start;
use std::alloc::{AllocError, Global};
use std::hash::BuildHasher;
use std::marker::{Brand, PhantomData};
use xdr3::{PlainField, Visit, Writer, spelled_hyper};

/// Stands for ways that are known only when the program runs.
pub(crate) trait Plan {
    ghost use Rattle.masking3.specs.declared.values.ways.Ways.{Ways};

    /// The ways.
    ghost ways: { Ways };
}

impl Plan for Brand {
    ghost ways = { usual };
}

/// The values of a capture so far, and the message that is written with masked ones.
#[derive(Drop)]
pub(crate) struct MaskingWriter<P: Plan, S: BuildHasher + Drop> {
    pub(crate) handles: HandleTable<S>,
    pub(crate) classes: ClassTables<S>,
    pub(crate) writer: Writer,
    /// Where the next item of the open message stands.
    pub(crate) spot: ItemSpot,
    /// Memory ran out, and the tables may have more than was written.
    pub(crate) failed: bool,
    plan: PhantomData<P>,
}

impl<P: Plan, S: BuildHasher + Copy + Drop> MaskingWriter<P, S> {
    /// Returns a writer before a capture.
    pub(crate) fn new(alloc: Global, ways: Ways, handles: S, values: S) -> MaskingWriter<P, S>
        requires { ways ≡ P.ways }
        ensures rests { MaskRests P.ways result (after_messages [] []) }
        ensures going { HasMemory result }
    {
        MaskingWriter {
            handles: HandleTable::new(alloc, handles),
            classes: ClassTables::new(alloc, ways, values),
            writer: Writer::new(alloc),
            spot: ItemSpot::InCall,
            failed: false,
            plan: PhantomData,
        }
    }

    /// Lets the message go, and keeps its values.
    pub(crate) fn end_message(&mut self)
        ensures rests { (front items : List Item) (side : Side)
            → HoldsMasked P.ways self.old front side items
            → MaskRests P.ways self.new
            (after_messages (front ++ visited_items (first_spot side) items) []) }
        ensures going { HasMemory self.old → HasMemory self.new }
    {
        self.writer.clear();
    }

    fn write_masked_word(&mut self, name: &'static str, n: u32) -> Result<(), AllocError>
        ensures ok { OnOk result
            (Adds (MaskStands P.ways) self.old self.new (Word name.now n ∷ [])) }
    {
        let class = class_of_word(self.spot, name);
        self.spot = spot_after(self.spot, class, name, n);
        let put = self.classes.substitute(class, u64::from(n))?.unwrap_or(n);
        self.writer.word(name, put)
    }

    fn write_masked_hyper(&mut self, name: &'static str, n: u64) -> Result<(), AllocError>
        ensures ok { OnOk result
            (Adds (MaskStands P.ways) self.old self.new (Hyper name.now n ∷ [])) }
    {
        let class = class_of_hyper(self.spot, name);
        let put = self.classes.replaced_hyper(class, n)?;
        self.writer.hyper(name, put)
    }

    fn write_masked_fixed(&mut self, name: &'static str, bytes: &[u8; 8]) -> Result<(), AllocError>
        ensures ok { OnOk result
            (Adds (MaskStands P.ways) self.old self.new (Fixed name.now bytes.now ∷ [])) }
    {
        let class = class_of_fixed(name);
        let value = BigEndian::read_u64(bytes);
        match self.classes.substitute(class, value)? {
            Some(substitute) => self
                .writer
                .fixed(name, &spelled_hyper(u64::from(substitute))),
            None => self.writer.fixed(name, bytes),
        }
    }

    /// Writes a word, with what replaces it.
    #[inline(never)]
    fn write_word(&mut self, name: &'static str, n: u32) -> Result<(), AllocError>
        ensures ok { OnOk result
            (Adds (MaskStands P.ways) self.old self.new (Word name.now n ∷ [])) }
        ensures err { OnErr result (self.new.failed ≡ true) }
    {
        match self.write_masked_word(name, n) {
            Ok(()) => Ok(()),
            Err(error) => self.fail(error),
        }
    }

    /// Writes words and hypers that follow one another. After an error some of them may be written.
    #[inline(always)]
    fn write_run(&mut self, fields: &[PlainField], bytes: &[u8]) -> Result<(), AllocError>
        requires { length bytes.now ≡ run_size fields.now }
        ensures ok { OnOk result
            (Adds (MaskStands P.ways) self.old self.new (run_items fields.now bytes.now)) }
    {
        if are_attributes(fields) {
            return self.write_attributes(bytes);
        }
        if are_kept(self.classes.ways.way(Class::Owners), fields) {
            return self.writer.plain(fields, bytes);
        }
        self.write_each(fields, bytes)
    }

    /// Writes words and hypers, each by itself.
    #[inline(never)]
    fn write_each(&mut self, fields: &[PlainField], bytes: &[u8]) -> Result<(), AllocError>
        requires { length bytes.now ≡ run_size fields.now }
        ensures { OnOk result
            (Adds (MaskStands P.ways) self.old self.new (run_items fields.now bytes.now)) }
    {
        let mut rest = bytes;
        for field in fields {
            match *field {
                PlainField::Word(name) => {
                    self.word(name, BigEndian::read_u32(rest))?;
                    rest = &rest[4..];
                }
                PlainField::Hyper(name) => {
                    self.hyper(name, BigEndian::read_u64(rest))?;
                    rest = &rest[8..];
                }
            }
        }
        Ok(())
    }

    /// Writes a handle as it is, and gathers it.
    fn write_handle(&mut self, name: &'static str, bytes: &[u8]) -> Result<(), AllocError>
        requires { length bytes.now ≤ 64 }
        ensures ok { OnOk result (Adds (MaskStands P.ways) self.old self.new
            (Opaque HandleKind name.now bytes.now ∷ [])) }
    {
        self.handles.handle(name, bytes)?;
        self.writer.handle(name, bytes)
    }

    /// Writes the rest of a message as it is, or as many zeros. After an error some of them may be written.
    fn write_rest(&mut self, name: &'static str, bytes: &[u8]) -> Result<(), AllocError>
        requires { length bytes.now ≤ body_limit }
        ensures ok { OnOk result
            (Adds (MaskStands P.ways) self.old self.new (Rest name.now bytes.now ∷ [])) }
    {
        match self.classes.ways.way(Class::Raw) {
            Way::Keep => self.writer.rest(name, bytes),
            Way::Zero | Way::Number => write_zeros(&mut self.writer, bytes.len()),
        }
    }

    /// Returns the error, after which nothing more is said of the tables.
    fn fail(&mut self, error: AllocError) -> Result<(), AllocError>
        ensures result { result ≡ Err error }
        ensures failed { self.new.failed ≡ true }
    {
        self.failed = true;
        Err(error)
    }
}

/// Writes an entry, whose message has this body, with the name of a call's machine as the way has it.
pub(crate) fn write_entry<W: Sink>(
    sink: &mut W,
    kind: Kind,
    machines: Way,
    body: &[u8],
) -> Result<(), Error>
    ensures ok { OnOk result (Appends (W.written sink.old) (W.written sink.new)
        (written_as machines kind body.now)) }
    ensures err { OnErr result (AppendsFront (W.written sink.old) (W.written sink.new)
        (written_as machines kind body.now)) }
    ensures count { CountsWriting (W.failures sink.old) (W.failures sink.new) result }
    ensures error { IfErr result IsOfWriting }
{
    match kind {
        Kind::Begin => write_word(sink, 1),
        Kind::Call(_) => write_call(sink, machines, body),
        Kind::Reply(_) => write_message(sink, body, &[]),
        Kind::Turn | Kind::Close | Kind::End => write_word(sink, 0),
    }
}

/// Writes a call, with the name of its machine as the way has it.
fn write_call<W: Sink>(sink: &mut W, machines: Way, body: &[u8]) -> Result<(), Error>
    ensures ok { OnOk result (Appends (W.written sink.old) (W.written sink.new)
        (chunk_bytes (record_bytes (body_by machines body.now)))) }
    ensures err { OnErr result (AppendsFront (W.written sink.old) (W.written sink.new)
        (chunk_bytes (record_bytes (body_by machines body.now)))) }
    ensures count { CountsWriting (W.failures sink.old) (W.failures sink.new) result }
    ensures error { IfErr result IsOfWriting }
{
    match machines {
        Way::Keep => write_message(sink, body, &[]),
        Way::Zero | Way::Number => write_unnamed(sink, body),
    }
}

#[tactic(auto, unfolding(xdr3::specs::Visit::Adds, xdr3::specs::Visit::Keeps))]
impl<P: Plan, S: BuildHasher + Copy + Drop> Visit for MaskingWriter<P, S> {
    ghost use Rattle.masking3.specs.machinery.MaskingWriter.{MaskStands};

    ghost stands = { MaskStands P.ways };

    // In line, so that names that are constants are not compared.
    #[inline(always)]
    fn word(&mut self, name: &'static str, n: u32) -> Result<(), AllocError> {
        if is_free_name(name) {
            return self.writer.word(name, n);
        }
        self.write_word(name, n)
    }

    fn hyper(&mut self, name: &'static str, n: u64) -> Result<(), AllocError> {
        match self.write_masked_hyper(name, n) {
            Ok(()) => Ok(()),
            Err(error) => self.fail(error),
        }
    }

    fn fixed(&mut self, name: &'static str, bytes: &[u8; 8]) -> Result<(), AllocError> {
        match self.write_masked_fixed(name, bytes) {
            Ok(()) => Ok(()),
            Err(error) => self.fail(error),
        }
    }

    fn write_verf(&mut self, name: &'static str, bytes: &[u8; 8]) -> Result<(), AllocError> {
        self.writer.write_verf(name, bytes)
    }

    fn var(&mut self, name: &'static str, bytes: &[u8]) -> Result<(), AllocError> {
        self.writer.var(name, bytes)
    }

    fn text(&mut self, name: &'static str, bytes: &[u8]) -> Result<(), AllocError> {
        self.writer
            .text(name, masked_text(&self.classes.ways, name, bytes))
    }

    fn handle(&mut self, name: &'static str, bytes: &[u8]) -> Result<(), AllocError> {
        match self.write_handle(name, bytes) {
            Ok(()) => Ok(()),
            Err(error) => self.fail(error),
        }
    }

    fn rest(&mut self, name: &'static str, bytes: &[u8]) -> Result<(), AllocError> {
        match self.write_rest(name, bytes) {
            Ok(()) => Ok(()),
            Err(error) => self.fail(error),
        }
    }

    // In line, as a word is.
    #[inline(always)]
    fn plain(&mut self, fields: &[PlainField], bytes: &[u8]) -> Result<(), AllocError> {
        match self.write_run(fields, bytes) {
            Ok(()) => Ok(()),
            Err(error) => self.fail(error),
        }
    }
}

impl<P: Plan, S: BuildHasher + Copy + Drop> MessageVisit for MaskingWriter<P, S> {
    ghost use Rattle.masking3.specs.machinery.MaskingWriter.{MaskRests};

    ghost rests = { MaskRests P.ways };

    fn begin(&mut self, start: Start) -> Result<(), AllocError> {
        self.spot = first_spot(start.is_reply);
        self.writer.begin(start)
    }
}
