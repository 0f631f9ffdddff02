// Nothing runs here: specs/ has the configuration that plain numbers stand for, and proofs/ that a caller's sequence of exported calls gives
// the trace back.
#![tactic(auto)]
