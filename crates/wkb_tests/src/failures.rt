//! A rectangle over sinks that take little, fail, or have no room. `each_kind` has the other writers.

ghost use Rattle.std.specs.Prelude.{◌≡◌, false};

use crate::answers::{Answer, writer_answer};
use crate::kinds::{LITTLE, RECT, rect};
use crate::sinks::{LimitedSink, LimitedWriter, Limits};
use std::io;
use std::test::Fail;
use wkb::writer::{Out, Sink, SliceSink, write_rect};
use wkb_cases::spelled::{Spelled, bytes};

/// More bytes than the encoding has.
const ROOM: usize = 128;

fn put<S: Sink>(sink: &mut S) -> Result<Answer, Fail>
    requires working { S.has_failed sink.old ≡ false }
{
    Ok(writer_answer(&write_rect(sink, &rect()?, &LITTLE)))
}

/// What the writer returns that puts `len` bytes of the encoding into a sink, which fails with this kind of error.
fn answer_of(len: usize, encoding: &Spelled, failure: io::ErrorKind) -> Answer {
    if len < encoding.len() {
        Answer::Failed(failure)
    } else {
        Answer::Written
    }
}

/// Whether `len` bytes were taken, and are a prefix of the encoding.
fn is_beginning(taken: &[u8], encoding: &Spelled, len: usize) -> bool {
    taken.len() == len && encoding.as_slice().starts_with(taken)
}

// Whether a sink takes `len` bytes. If these aren't all, it has failed, and the writer returns that.
fn takes(encoding: &Spelled, limits: Limits, len: usize) -> Result<bool, Fail> {
    let failure = if limits.most == 0 {
        io::ErrorKind::WriteZero
    } else {
        io::ErrorKind::PermissionDenied
    };
    let mut sink = LimitedSink::new(limits);
    let written = put(&mut sink)?;
    Ok(
        is_beginning(sink.taken.as_slice(), encoding, len)
            && sink.failed() == (len < encoding.len())
            && written == answer_of(len, encoding, failure),
    )
}

// A byte a call, until a call fails; and a short encoding is one call.
#[test]
fn failing_sinks(rt: HostRuntime) -> Result<(), Fail> {
    let encoding = bytes(RECT)?;
    let room = encoding.len();
    for puts in 0..=room {
        let limits = Limits {
            puts,
            most: 1,
            room,
        };
        assert!(rt; takes(&encoding, limits, puts)?, "{puts}");
    }
    for (puts, most, len) in [(0, room, 0), (1, room, room), (room, 0, 0)] {
        let limits = Limits { puts, most, room };
        assert!(rt; takes(&encoding, limits, len)?, "{puts} {most}");
    }
    Ok(())
}

// An interrupted write isn't tried again.
#[test]
fn interrupted_writes(rt: HostRuntime) -> Result<(), Fail> {
    let mut out = Out::new(LimitedWriter::new(usize::MAX, Some(1)));
    let written = put(&mut out)?;
    assert!(rt; written == Answer::Failed(io::ErrorKind::Interrupted) && out.failed());
    let writer = out.into_inner();
    assert!(rt; writer.writes == 1 && writer.taken.len() == 0);
    Ok(())
}

// Whether a slice of `room` bytes takes a prefix of the encoding, and the bytes after it are as they were.
fn fills(encoding: &Spelled, room: usize) -> Result<bool, Fail> {
    let len = room.min(encoding.len());
    let mut slice = [7u8; ROOM];
    let mut sink = SliceSink::new(&mut slice[..room.min(ROOM)]);
    let written = put(&mut sink)?;
    let is_told = is_beginning(sink.written(), encoding, len)
        && sink.len() == len
        && sink.failed() == (len < encoding.len())
        && written == answer_of(len, encoding, io::ErrorKind::WriteZero);
    let (taken, behind) = slice.split_at(len.min(ROOM));
    Ok(is_told && is_beginning(taken, encoding, len) && Some(behind) == [7u8; ROOM].get(len..))
}

// The case rect-cut: a slice of each length up to the encoding's, and longer ones.
#[test]
fn slices_of_each_length(rt: HostRuntime) -> Result<(), Fail> {
    let encoding = bytes(RECT)?;
    for room in 0..=ROOM {
        assert!(rt; fills(&encoding, room)?, "{room}");
    }
    Ok(())
}
