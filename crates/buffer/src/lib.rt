#![tactic(auto)]

// A lent buffer that is written from its start, and a list of which a part is lent: the definitions in specs/, the laws in proofs/. It has no code.
