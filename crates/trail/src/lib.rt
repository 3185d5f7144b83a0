// A trail: a list of elements over places that the caller lends. It adds and takes at its end, and owns no memory.
#![tactic(auto)]

ghost use Rattle.std.specs.Prelude.{◌≡◌, length, take, slice_get};
ghost use Rattle.trail.specs.Places.{Puts, Last};

mod ends;
mod fault;
mod makes;
mod questions;

pub use fault::TrailFault;

// The first `len` of the lent places hold the elements. A length beyond the places counts as all of them. An invariant that rules it
// out was tried and is no plainer: it spares one `min`, and six methods owe a proof that the prover does not find.
#[derive(Drop)]
pub struct Trail<'a, T> {
    places: &'a mut [T],
    len: usize,
}

// What a trail does with the slice of its places. Slice and length are apart, since a trail hands out its slice and not itself.

// The elements: the places that are in use.
fn in_use<T>(places: &[T], len: usize) -> &[T]
    ensures { result.now ≡ take len places.now }
{
    &places[..len.min(places.len())]
}

fn count<T>(places: &[T], len: usize) -> usize
    ensures { result ≡ length (take len places.now) }
{
    in_use(places, len).len()
}

// The element at a place counted from 0.
fn item<T: Copy>(places: &[T], len: usize, at: usize) -> Option<T>
    ensures { result ≡ slice_get (take len places.now) at }
{
    in_use(places, len).get(at).copied()
}

// The last element, and how many stand before it.
fn last<T: Copy>(places: &[T], len: usize) -> Option<(T, usize)>
    ensures { Last places.now len result }
{
    let (x, front) = in_use(places, len).split_last()?;
    Some((*x, front.len()))
}

// Writes an element behind the last, and answers how many there are then. By index, since after a loan by `get_mut` nothing is
// known of the slice's elements.
fn put<T: Copy>(places: &mut [T], len: usize, x: T) -> Result<usize, TrailFault>
    ensures { Puts places.old len x result places.new }
{
    let used = count(places, len);
    if used == places.len() {
        return Err(TrailFault::Full);
    }
    places[used] = x;
    Ok(used + 1)
}
