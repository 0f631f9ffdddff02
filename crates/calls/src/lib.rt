// The ways of decoding. specs/ has all that a coding call leaves, and proofs/ that decoding gives the trace back, whatever the cut.
#![tactic(auto)]

// The general way decodes at any order, the way of order 6 at that order alone. Both give the same.
#[derive(Clone, Copy, Debug, PartialEq, Eq, Hash)]
pub enum Way {
    General,
    OrderSix,
}
