//! How deep brackets nest in a text.
ghost use Rattle.std.specs.Prelude.{◌≡◌, ◌<◌, ◌≤◌, nat_lt, MatchOption};
ghost use Rattle.jsonpath_parser.specs.words.Depth as spec;
ghost use Rattle.jsonpath_parser.specs.Prelude.{place_view};

/// Where reading stands: outside of strings, inside one that this quote ends, or there behind a backslash.
#[derive(Clone, Copy)]
enum Place {
    Outside,
    Inside(u8),
    Escaped(u8),
}

/// The place after this byte.
#[inline]
fn place_after(place: Place, byte: u8) -> Place
    ensures { place_view result ≡ spec.next_place (place_view place) byte }
{
    match place {
        Place::Outside if byte == b'\'' || byte == b'"' => Place::Inside(byte),
        Place::Outside => Place::Outside,
        Place::Inside(quote) if byte == b'\\' => Place::Escaped(quote),
        Place::Inside(quote) if byte == quote => Place::Outside,
        Place::Inside(quote) => Place::Inside(quote),
        Place::Escaped(quote) => Place::Inside(quote),
    }
}

/// How many brackets stand open after this byte, if they are no more than `limit`.
#[inline]
fn nesting_after(place: Place, nesting: usize, byte: u8, limit: usize) -> Option<usize>
    requires { nesting ≤ limit }
    ensures { let after = spec.next_open (place_view place) nesting byte in MatchOption result (limit < after) (λ n. (n ≡ after) × (n ≤ limit)) }
{
    match (place, byte) {
        (Place::Outside, b'(' | b'[') if nesting == limit => None,
        (Place::Outside, b'(' | b'[') => Some(nesting + 1),
        (Place::Outside, b')' | b']') => Some(nesting.saturating_sub(1)),
        _ => Some(nesting),
    }
}

/// Whether the text nests deeper than this: whether more than `depth` brackets, `[` and `(`, stand open at once somewhere
/// in it, those in strings left out. Any text may be asked, also one that is no query. Ask it before a text of unknown
/// depth is read at a [`Cursor`](crate::Cursor), for the stack that reading takes grows with the depth.
///
/// It takes no memory and no stack that grows, and the time is linear in the length of the text.
#[tactic(auto, using(crate::proofs::laws::words::Depths::depth_within, crate::proofs::laws::words::Depths::depth_over, crate::proofs::laws::words::Depths::depth_end))]
pub fn nests_deeper(text: &str, depth: usize) -> bool
    ensures { result ≡ nat_lt depth (spec.depth text.now) }
{
    let mut nesting = 0;
    let mut place = Place::Outside;
    for byte in text.as_bytes() {
        let Some(after) = nesting_after(place, nesting, *byte, depth) else {
            return true;
        };
        nesting = after;
        place = place_after(place, *byte);
    }
    false
}
