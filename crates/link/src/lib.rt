// No code: theorems over the one contract (Claims) of the controller's public calls. Each is of every call. In proofs/:
// Link     shows_next       the reply is the machine's, and the image that is left shows the machine's next state
//          not_formed       an image that is not well-formed is refused with 1, and stays
//          refused_same     a refused call leaves every byte
//          stays_bytes, stays_formed    bytes stay bytes, and a well-formed image stays well-formed
//          shows_run        any calls: the machine's state, and its replies
// Fresh    shows_run_fresh  from the fresh image: the machine's run
// Unused   same_outcome     slots of no number kept are not read
//          keeps_unused, append_unused    nor changed, but append's new entry
// Plain    plain_run        calls that neither append nor fold leave the log's ends, and the slots of no number kept
// Agree    agree_run        images that agree on what is used give the same replies to any calls, and go on to agree
// Refused has a lemma of theirs; the others are in the crate `staying`.
#![tactic(auto)]
