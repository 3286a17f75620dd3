//! Laws of streams of bundles, over the definitions alone. Each function does nothing: its contract is
//! the law.
ghost use Rattle.bare_stream.specs.Laws as laws;

/// A stream of bundles, sealed or not, in any mixture, loses its seals and nothing else.
pub fn streams_lose_their_seals()
    ensures { laws.StreamsLoseTheirSeals }
{}

/// Bytes in which the magic of a sealed bundle stands nowhere stay as they are.
pub fn bare_streams_stay()
    ensures { laws.BareStreamsStay }
{}
