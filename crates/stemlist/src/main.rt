// stemlist [--fold] [--] [FILE ...]: reads words, one a line, from the files named or from standard input, and writes a line for each
// (document 01, "stemlist"). The lines are made by the proved library `listing`; here arguments are taken, and blocks are read, handed
// over and written, in fixed memory.
#![tactic(auto)]

ghost use Rattle.std.specs.Prelude.{◌≡◌, ◌≤◌, ◌<◌, ℕ, List, [], length, IfErr, OnOk, IfSome};
ghost use Rattle.std.specs.Io.KnownBytes.{Appends, Consumes};
ghost use Rattle.writing.specs.Put.{put};
ghost use Rattle.lines.specs.Room.{line_room};
ghost use Rattle.listing.specs.Listing.{listing};
ghost use Rattle.listing.specs.Feed.{fed_line, fed_out, last_out};
ghost use Rattle.stemlist.specs.Stopped.{IsReading};

use listing::feed;
use listing::held::Held;
use std::env::FillError;
use std::fmt::InlineText;
use std::io::{Read, Write};
use std::rt::Env;
use std::{fs, io, str};

// The bytes of a block of input, and of output.
const BLOCK: usize = 65536;

// The bytes of a file's name, with the one that the system ends it with.
const NAME: usize = 4096;

// The system's numbers of the errors that are found before it is asked: an argument that is missing, a name that is too long, and one that
// is not UTF-8, which std takes no other name than.
const INVALID: i32 = 22;

const TOO_LONG: i32 = 36;

const NOT_TEXT: i32 = 84;

// Why a listing stopped before the input's end.
#[derive(Clone, Copy)]
enum Stop {
    Reading(io::Error),
    Writing(io::Error),
}

// A listing stopped since its output could not be written, and that was reported.
#[derive(Clone, Copy)]
struct Reported;

// Whether folded forms are listed, and the fixed memory of a listing: a block of input, and one of output.
#[derive(Drop)]
struct Listing {
    folded: bool,
    block: [u8; BLOCK],
    out: [u8; BLOCK],
}

// Writes the lines of the words that end in the block, and holds what is left of its last line. A call of `feed` takes as much as the output has
// room for, so the place moves on by what each one says.
fn drain<W: Write>(
    to: &mut W,
    folded: bool,
    block: &[u8],
    held: &mut Held,
    out: &mut [u8],
) -> io::Result<()>
    requires { line_room ≤ length out.old }
    ensures held_after { OnOk result (held.new ≡ fed_line held.old block.now) }
    ensures written { OnOk result (Appends (W.contents to.old) (W.contents to.new) (fed_out folded held.old block.now)) }
{
    let mut used = 0;
    while used < block.len() {
        let p = feed::feed(folded, block, used, held, out);
        used = p.used;
        let written = p.written;
        to.write_all(&out[..written])?;
    }
    Ok(())
}

// Writes the line that the input's end closes: it stands at the front of the output.
fn close<W: Write>(to: &mut W, folded: bool, held: &Held, out: &mut [u8]) -> io::Result<()>
    requires { line_room ≤ length out.old }
    ensures out_after { out.new ≡ put 0 (last_out folded held.now) out.old }
    ensures written { OnOk result (Appends (W.contents to.old) (W.contents to.new) (last_out folded held.now)) }
{
    let last = feed::finish(folded, held.as_slice(), out);
    to.write_all(&out[..last])
}

// Lists what a reader gives, up to its end or to an error. Of a reader and a writer whose bytes std knows, as a slice and a Vec, the listing is
// that of all that the reader had left; where reading failed it is that of the lines that were ended by then, and a line that the error broke
// off is not listed. Of files and of the standard streams std knows no bytes.
fn list_stream<R: Read, W: Write>(
    from: &mut R,
    to: &mut W,
    folded: bool,
    block: &mut [u8],
    out: &mut [u8],
) -> Result<(), Stop>
    requires { line_room ≤ length out.old }
    ensures written { OnOk result (0 < length block.old → IfSome (R.remaining from.old) (λ input.
        Appends (W.contents to.old) (W.contents to.new) (listing folded input))) }
    ensures broken { IfErr result (λ stop. IsReading stop → (read : List ℕ) × Consumes (R.remaining from.old) (R.remaining from.new) read
        × Appends (W.contents to.old) (W.contents to.new) (fed_out folded [] read)) }
{
    let mut held = Held::new();
    for _ in 0..u64::MAX {
        let n = from.read(block).map_err(Stop::Reading)?;
        if n == 0 {
            return close(to, folded, &held, out).map_err(Stop::Writing);
        }
        drain(to, folded, &block[..n], &mut held, out).map_err(Stop::Writing)?;
    }
    Err(Stop::Reading(io::Error::from(io::ErrorKind::TimedOut)))
}

// The reason that an error's text gives, without the number that std writes after it.
fn reason(text: &str) -> &str {
    match text.split_once(" (os error ") {
        Some((reason, _)) => reason,
        None => text,
    }
}

// One message on standard error: what failed, and the system's reason. Where that cannot be written, there is no one to tell.
fn report(rt: &HostRuntime, what: &[u8], error: io::Error) {
    let text = InlineText::<128>::of(error);
    let mut to = rt.stderr();
    let _ = to.write_all(b"stemlist: ");
    let _ = to.write_all(what);
    let _ = to.write_all(b": ");
    let _ = to.write_all(reason(text.as_str()).as_bytes());
    let _ = to.write_all(b"\n");
}

// Lists what a reader gives, up to its end or to an error, which is reported here, while the input is still open: one in reading under the
// input's name, and a line that it broke off is not listed; behind one in writing nothing more is listed.
fn list<R: Read>(
    rt: &HostRuntime,
    from: &mut R,
    name: &[u8],
    listing: &mut Listing,
) -> Result<(), Reported> {
    match list_stream(
        from,
        &mut rt.stdout(),
        listing.folded,
        &mut listing.block,
        &mut listing.out,
    ) {
        Ok(()) => Ok(()),
        Err(Stop::Reading(e)) => {
            report(rt, name, e);
            Ok(())
        }
        Err(Stop::Writing(e)) => {
            report(rt, b"standard output", e);
            Err(Reported)
        }
    }
}

// Lists standard input.
fn list_input(rt: &HostRuntime, listing: &mut Listing) -> Result<(), Reported> {
    list(rt, &mut rt.stdin(), b"standard input", listing)
}

// Lists the file of a name; `-` is standard input. One that cannot be opened is reported.
fn list_file(rt: &HostRuntime, name: &[u8], listing: &mut Listing) -> Result<(), Reported> {
    if name == b"-".as_slice() {
        return list_input(rt, listing);
    }
    let opened = match str::from_utf8(name) {
        Ok(path) => fs::open(rt, path),
        Err(_) => Err(io::Error::from_raw_os_error(NOT_TEXT)),
    };
    match opened {
        Ok(mut file) => list(rt, &mut file, name, listing),
        Err(e) => {
            report(rt, name, e);
            Ok(())
        }
    }
}

// Lists the file that argument i names.
fn list_argument(rt: &HostRuntime, i: usize, listing: &mut Listing) -> Result<(), Reported> {
    let mut name = [0u8; NAME];
    match rt.arg(i, &mut name) {
        Ok(n) => list_file(rt, &name[..n], listing),
        Err(e) => {
            let code = match e {
                FillError::TooLong => TOO_LONG,
                FillError::NotPresent => INVALID,
            };
            report(rt, &name, io::Error::from_raw_os_error(code));
            Ok(())
        }
    }
}

// Lists the files that the arguments from `first` on name.
fn list_arguments(rt: &HostRuntime, first: usize, listing: &mut Listing) -> Result<(), Reported> {
    for i in first..usize::MAX {
        if is_missing(rt, i) {
            return Ok(());
        }
        list_argument(rt, i, listing)?;
    }
    Ok(())
}

// Whether argument i is this text, which is not empty.
fn is_argument(rt: &HostRuntime, i: usize, text: &[u8]) -> bool {
    let mut name = [0u8; NAME];
    match rt.arg(i, &mut name) {
        Ok(n) => &name[..n] == text,
        Err(_) => false,
    }
}

// Whether there is no argument i.
fn is_missing(rt: &HostRuntime, i: usize) -> bool {
    matches!(rt.arg(i, &mut []), Err(FillError::NotPresent))
}

fn main(rt: HostRuntime) {
    let mut i: usize = 1;
    let folded = is_argument(&rt, i, b"--fold");
    if folded {
        i += 1;
    }
    if is_argument(&rt, i, b"--") {
        i += 1;
    }
    let mut listing = Listing {
        folded,
        block: [0; BLOCK],
        out: [0; BLOCK],
    };
    let _ = if is_missing(&rt, i) {
        list_input(&rt, &mut listing)
    } else {
        list_arguments(&rt, i, &mut listing)
    };
}
