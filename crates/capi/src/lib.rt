// The C interface of the public calls, declared and documented in include/octave_eq.h. An export only encodes its call's
// answer. None has a `requires`: C callers prove nothing.
#![tactic(auto)]

mod codec;
mod equaliser;
mod float_codec;
mod gains;
mod headers;
mod two_feeds;
