// Where a block of a buffer lies in memory.
ghost use Rattle.std.specs.Prelude.{◌≡◌, ◌≤◌, length, IfSome};
ghost use Rattle.main_memory.specs.Bytes.{front, filled, IsFill};
ghost use Rattle.main_memory.specs.Blocks.{IsSpan, in_frame, bytes_in, with_bytes_in};

use crate::frames::Frames;

// `len` bytes in a frame from the offset on. If they do not end in that frame, they go on at the start of the next frame.
#[derive(Clone, Copy)]
pub struct Span {
    pub frame: usize,
    pub next: usize,
    pub offset: usize,
    pub len: usize,
}

// How many bytes of the span lie in the first frame.
fn len_in_frame(span: Span) -> usize
    requires span { IsSpan span }
    ensures frame { result ≡ in_frame span }
    ensures inside { result ≤ span.len }
{
    span.len.min(512 - span.offset)
}

// Writes the bytes of the span.
pub(crate) fn write_span(bytes: &mut Frames, span: Span, from: &[u8])
    requires span { IsSpan span }
    requires whole { length from.now ≡ span.len }
    ensures bytes { bytes.new ≡ with_bytes_in span from.now bytes.old }
    ensures size { length bytes.new ≡ 8388608 }
{
    let (first, second) = from.split_at(len_in_frame(span));
    bytes.put(span.frame, span.offset, first);
    bytes.put(span.next, 0, second);
}

// Reads the bytes of the span.
pub(crate) fn read_span(bytes: &Frames, span: Span, into: &mut [u8])
    requires span { IsSpan span }
    requires whole { length into.old ≡ span.len }
    ensures bytes { into.new ≡ bytes_in span bytes.now }
    ensures size { length bytes.now ≡ 8388608 }
{
    let (first, second) = into.split_at_mut(len_in_frame(span));
    bytes.get(span.frame, span.offset, first);
    bytes.get(span.next, 0, second);
}

// The byte that all bytes of the span are, if that is known.
pub(crate) fn fill_span(bytes: &Frames, span: Span) -> Option<u8>
    requires span { IsSpan span }
    ensures { IfSome result (λ byte. IsFill byte (bytes_in span bytes.now)) }
{
    let fill = bytes.fill(span.frame)?;
    if span.len > 512 - span.offset && bytes.fill(span.next)? != fill {
        return None;
    }
    Some(fill)
}

// Writes the first bytes of 512 to the span.
pub(crate) fn write_front(bytes: &mut Frames, span: Span, from: &[u8; 512])
    requires span { IsSpan span }
    ensures bytes { bytes.new ≡ with_bytes_in span (front span.len from.now) bytes.old }
    ensures size { length bytes.new ≡ 8388608 }
{
    if span.offset == 0 && span.len == 512 {
        bytes.put_whole(span.frame, from);
    } else {
        write_span(bytes, span, &from[..span.len]);
    }
}

// Reads the bytes of the span, and then zeros.
pub(crate) fn read_filled(bytes: &Frames, span: Span, into: &mut [u8])
    requires span { IsSpan span }
    requires room { span.len ≤ length into.old }
    ensures bytes { into.new ≡ filled (length into.old) (bytes_in span bytes.now) }
    ensures size { length bytes.now ≡ 8388608 }
{
    let (window, rest) = into.split_at_mut(span.len);
    read_span(bytes, span, window);
    rest.fill(0);
}
